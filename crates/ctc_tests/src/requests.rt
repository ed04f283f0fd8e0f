// What a CTC requests, answers and refuses.
use crate::bench::Bench;
use card::{Bus, Chain, Refusal};
use ctc::Ctc;
use std::process::Abort;

#[test]
fn services(rt: HostRuntime) {
    // channel k adds 2 × k to the vector, whose low three bits are not taken over
    {
        let mut bench = Bench::new(&rt);
        bench.write(0x10, 0x46);
        bench.write(0x13, 0x85);
        bench.write(0x13, 1);
        bench.clocks(16);
        bench.acknowledge(Some(0x46));
        bench.write(0x10, 0xFE);
        bench.write(0x12, 0x85);
        bench.write(0x12, 1);
        bench.clocks(16);
        bench.acknowledge(Some(0xFC));
    }
    // the lower channel outranks the higher: it interrupts its service, and is ended first
    {
        let mut bench = Bench::new(&rt);
        bench.write(0x13, 0xD5);
        bench.write(0x13, 1);
        bench.write(0x11, 0xD5);
        bench.write(0x11, 1);
        bench.line(3, true);
        bench.acknowledge(Some(6));
        bench.line(1, true);
        bench.int(true);
        bench.acknowledge(Some(2));
        bench.line(3, false);
        bench.line(3, true);
        bench.int(false);
        bench.acknowledge(None);
        bench.return_from_interrupt();
        bench.int(false);
        bench.return_from_interrupt();
        bench.int(true);
        bench.acknowledge(Some(6));
    }
    // a request that waits while its own rank is in service is not taken
    {
        let mut bench = Bench::new(&rt);
        bench.write(0x10, 0xD5);
        bench.write(0x10, 1);
        bench.line(0, true);
        bench.acknowledge(Some(0));
        bench.line(0, false);
        bench.line(0, true);
        bench.waiting(1);
        bench.acknowledge(None);
        bench.return_from_interrupt();
        bench.acknowledge(Some(0));
    }
    // a control word with bit 7 clear drops a waiting request, but no service
    {
        let mut bench = Bench::new(&rt);
        bench.write(0x10, 0xD5);
        bench.write(0x10, 1);
        bench.line(0, true);
        bench.waiting(1);
        bench.write(0x10, 0x51);
        bench.waiting(0);
        bench.int(false);
    }
    {
        let mut bench = Bench::new(&rt);
        bench.write(0x10, 0xD5);
        bench.write(0x10, 1);
        bench.write(0x11, 0xD5);
        bench.write(0x11, 1);
        bench.line(0, true);
        bench.acknowledge(Some(0));
        bench.write(0x10, 0x51);
        bench.line(1, true);
        bench.int(false);
        bench.return_from_interrupt();
        bench.int(true);
    }
    // a reset drops both
    {
        let mut bench = Bench::new(&rt);
        bench.write(0x10, 0xD5);
        bench.write(0x10, 1);
        bench.line(0, true);
        bench.acknowledge(Some(0));
        bench.line(0, false);
        bench.line(0, true);
        bench.reset();
        bench.waiting(0);
        bench.write(0x13, 0xC5);
        bench.write(0x13, 1);
        bench.line(3, true);
        bench.line(3, false);
        bench.int(true);
    }
    // a return without service has no effect
    {
        let mut bench = Bench::new(&rt);
        bench.return_from_interrupt();
        bench.write(0x10, 0xD5);
        bench.write(0x10, 1);
        bench.line(0, true);
        bench.return_from_interrupt();
        bench.acknowledge(Some(0));
    }
}

#[test]
fn refusals(rt: HostRuntime) {
    {
        let mut bench = Bench::new(&rt);
        bench.write_refused(0x0F, 0x85, Refusal::PortNotTaken);
        bench.write_refused(0x14, 0x85, Refusal::PortNotTaken);
        bench.read_refused(0x0F, Refusal::PortNotTaken);
        bench.read_refused(0x14, Refusal::PortNotTaken);
        bench.line_refused(0x14, 0, Refusal::PortNotTaken);
        bench.line_refused(0x14, 4, Refusal::PortNotTaken);
    }
    {
        let mut bench = Bench::new(&rt);
        bench.line_refused(0x13, 4, Refusal::NoSuchLine);
        bench.line_refused(0x10, 255, Refusal::NoSuchLine);
    }
    {
        let mut bench = Bench::new(&rt);
        bench.write(0x10, 0x80);
        bench.write_refused(0x11, 0x80, Refusal::ByteNotAwaited);
        bench.write_refused(0x12, 0, Refusal::ByteNotAwaited);
        bench.write_refused(0x13, 0xFE, Refusal::ByteNotAwaited);
        bench.write(0x13, 0x85);
        bench.write(0x13, 0xFE);
        bench.read(0x13, 0xFE);
    }
}

#[test]
fn numbers_of_refusals(rt: HostRuntime) {
    let cases = [
        (Refusal::PortNotTaken, 1),
        (Refusal::NoSuchLine, 2),
        (Refusal::NoSuchRegister, 3),
        (Refusal::LineDriven, 4),
        (Refusal::ByteNotAwaited, 5),
        (Refusal::InsideInstruction, 6),
        (Refusal::TooFewPlaces, 7),
    ];
    for (refusal, number) in cases {
        assert_eq!(rt; u8::from(refusal), number);
    }
}

// Channels 0, 1 and 3 wait, with vectors 40h, 42h and 46h.
fn three_waiting(rt: &impl Abort) -> Ctc {
    let mut card = Ctc::new(0x10);
    assert_eq!(rt; card.write(0x10, 0x40), Ok(()));
    for port in [0x10, 0x11, 0x13] {
        assert_eq!(rt; card.write(port, 0xD5), Ok(()));
        assert_eq!(rt; card.write(port, 1), Ok(()));
    }
    for line in [0, 1, 3] {
        // any port of the card names it
        assert_eq!(rt; card.change_line(0x13 - line, line, true), Ok(()));
    }
    card
}

#[test]
fn waiting_list(rt: HostRuntime) {
    let card = three_waiting(&rt);
    assert_eq!(rt; card.waiting_count(), 3);
    assert_eq!(rt; Ctc::new(0x10).waiting_list(&mut []), Ok(0));
    let mut two = [0xEE; 2];
    assert_eq!(rt; card.waiting_list(&mut two), Err(Refusal::TooFewPlaces));
    assert_eq!(rt; two, [0xEE, 0xEE]);
    let mut three = [0xEE; 3];
    assert_eq!(rt; card.waiting_list(&mut three), Ok(3));
    assert_eq!(rt; three, [0x40, 0x42, 0x46]);
    let mut five = [0xEE; 5];
    assert_eq!(rt; card.waiting_list(&mut five), Ok(3));
    assert_eq!(rt; five, [0x40, 0x42, 0x46, 0xEE, 0xEE]);
}

#[test]
fn chain_wires(rt: HostRuntime) {
    let mut card = three_waiting(&rt);
    assert_eq!(rt; Ctc::new(0x10).ieo(true), true);
    assert_eq!(rt; Ctc::new(0x10).ieo(false), false);
    assert_eq!(rt; card.ieo(true), false);
    assert_eq!(rt; card.ieo_during_return(true), true);
    assert_eq!(rt; card.pulls_int(false), false);
    assert_eq!(rt; card.acknowledge(false), None);
    assert_eq!(rt; card.acknowledge(true), Some(0x40));
    assert_eq!(rt; card.write(0x11, 0x51), Ok(()));
    assert_eq!(rt; card.write(0x13, 0x51), Ok(()));
    // nothing waits any more, and service alone holds IEO low
    assert_eq!(rt; card.waiting_count(), 0);
    assert_eq!(rt; card.ieo(true), false);
    assert_eq!(rt; card.ieo_during_return(true), false);
    card.return_from_interrupt(false);
    assert_eq!(rt; card.ieo_during_return(true), false);
    card.return_from_interrupt(true);
    assert_eq!(rt; card.ieo_during_return(true), true);
    assert_eq!(rt; card.ieo_during_return(false), false);
}

#[test]
fn ports_from_the_base_with_its_low_two_bits_cleared(rt: HostRuntime) {
    let card = Ctc::new(0x36);
    let cases = [
        (0x33, false),
        (0x34, true),
        (0x35, true),
        (0x36, true),
        (0x37, true),
        (0x38, false),
    ];
    for (port, taken) in cases {
        assert_eq!(rt; card.takes(port), taken);
    }
}
