// How the channels of a CTC count.
use crate::bench::Bench;

#[test]
fn timer_mode(rt: HostRuntime) {
    // by 16 with constant 1: a time-out at clock 16 and not at 15, and then every 16 clocks
    {
        let mut bench = Bench::new(&rt);
        bench.write(0x10, 0x85);
        bench.write(0x10, 1);
        bench.clocks(15);
        bench.int(false);
        bench.clocks(1);
        bench.int(true);
        bench.acknowledge(Some(0));
        bench.return_from_interrupt();
        bench.clocks(15);
        bench.int(false);
        bench.clocks(1);
        bench.int(true);
    }
    // by 256 with constant 1
    {
        let mut bench = Bench::new(&rt);
        bench.write(0x11, 0xA5);
        bench.write(0x11, 1);
        bench.clocks(255);
        bench.int(false);
        bench.clocks(1);
        bench.int(true);
    }
    // constant 0 counts as 256
    {
        let mut bench = Bench::new(&rt);
        bench.write(0x12, 0x85);
        bench.write(0x12, 0);
        bench.clocks(16);
        bench.read(0x12, 255);
        bench.clocks(4079);
        bench.int(false);
        bench.clocks(1);
        bench.int(true);
        bench.read(0x12, 0);
    }
    // a constant that is replaced while the channel runs is taken at the next time-out
    {
        let mut bench = Bench::new(&rt);
        bench.write(0x10, 0x85);
        bench.write(0x10, 3);
        bench.clocks(20);
        bench.write(0x10, 0x85);
        bench.write(0x10, 5);
        bench.read(0x10, 2);
        bench.clocks(27);
        bench.int(false);
        bench.clocks(1);
        bench.int(true);
        bench.read(0x10, 5);
    }
    // a control word that leaves bits 5 and 6 leaves the prescaler count; one that changes bit 5 zeroes it
    {
        let mut bench = Bench::new(&rt);
        bench.write(0x10, 0x85);
        bench.write(0x10, 1);
        bench.clocks(10);
        bench.write(0x10, 0x91);
        bench.clocks(5);
        bench.int(false);
        bench.clocks(1);
        bench.int(true);
    }
    {
        let mut bench = Bench::new(&rt);
        bench.write(0x10, 0x85);
        bench.write(0x10, 1);
        bench.clocks(10);
        bench.write(0x10, 0xA1);
        bench.clocks(255);
        bench.int(false);
        bench.clocks(1);
        bench.int(true);
    }
    // and so does one that changes bit 6: to counter mode, and back again
    {
        let mut bench = Bench::new(&rt);
        bench.write(0x10, 0x85);
        bench.write(0x10, 1);
        bench.clocks(10);
        bench.write(0x10, 0xC1);
        bench.write(0x10, 0x81);
        bench.clocks(15);
        bench.int(false);
        bench.clocks(1);
        bench.int(true);
    }
    // an awaited byte is a constant, whatever its bit 0 is
    {
        let mut bench = Bench::new(&rt);
        bench.write(0x11, 0x85);
        bench.write(0x11, 3);
        bench.read(0x11, 3);
        bench.write(0x11, 0x85);
        bench.write(0x11, 4);
        bench.read(0x11, 3);
    }
    // a stopped channel counts nothing until it is given a constant
    {
        let mut bench = Bench::new(&rt);
        bench.write(0x10, 0x85);
        bench.write(0x10, 1);
        bench.write(0x10, 0x83);
        bench.clocks(100);
        bench.int(false);
        bench.write(0x10, 0x85);
        bench.write(0x10, 1);
        bench.clocks(16);
        bench.int(true);
    }
    // without bit 7 a time-out requests nothing
    {
        let mut bench = Bench::new(&rt);
        bench.write(0x10, 0x05);
        bench.write(0x10, 1);
        bench.clocks(64);
        bench.int(false);
        bench.waiting(0);
    }
}

#[test]
fn trigger_lines(rt: HostRuntime) {
    // counter mode counts rising edges with bit 4 set, and no clocks
    {
        let mut bench = Bench::new(&rt);
        bench.write(0x10, 0xD5);
        bench.write(0x10, 2);
        bench.clocks(600);
        bench.read(0x10, 2);
        bench.line(0, true);
        bench.read(0x10, 1);
        bench.line(0, true);
        bench.read(0x10, 1);
        bench.line(0, false);
        bench.int(false);
        bench.line(0, true);
        bench.int(true);
        bench.read(0x10, 2);
    }
    // and falling edges without it
    {
        let mut bench = Bench::new(&rt);
        bench.write(0x13, 0xC5);
        bench.write(0x13, 1);
        bench.line(3, true);
        bench.int(false);
        bench.line(3, false);
        bench.int(true);
    }
    // the line of another channel
    {
        let mut bench = Bench::new(&rt);
        bench.write(0x10, 0xD5);
        bench.write(0x10, 1);
        bench.line(1, true);
        bench.int(false);
    }
    // an armed channel starts at the edge, which is no step itself
    {
        let mut bench = Bench::new(&rt);
        bench.write(0x11, 0x9D);
        bench.write(0x11, 1);
        bench.clocks(100);
        bench.int(false);
        bench.line(1, true);
        bench.read(0x11, 1);
        bench.clocks(15);
        bench.int(false);
        bench.clocks(1);
        bench.int(true);
    }
    // the other edge does not start it
    {
        let mut bench = Bench::new(&rt);
        bench.write(0x11, 0x8D);
        bench.write(0x11, 1);
        bench.line(1, true);
        bench.clocks(100);
        bench.int(false);
        bench.line(1, false);
        bench.clocks(16);
        bench.int(true);
    }
    // an armed channel stays armed where a control word clears bit 3, and where it is given another constant
    {
        let mut bench = Bench::new(&rt);
        bench.write(0x11, 0x9D);
        bench.write(0x11, 1);
        bench.write(0x11, 0x95);
        bench.write(0x11, 2);
        bench.clocks(100);
        bench.read(0x11, 1);
        bench.line(1, true);
        bench.clocks(16);
        bench.int(true);
        bench.read(0x11, 2);
    }
    // in counter mode bit 3 does not arm the channel
    {
        let mut bench = Bench::new(&rt);
        bench.write(0x10, 0xDD);
        bench.write(0x10, 1);
        bench.line(0, true);
        bench.int(true);
    }
    // a control word that changes bit 4 is no edge
    {
        let mut bench = Bench::new(&rt);
        bench.line(0, true);
        bench.write(0x10, 0xC5);
        bench.write(0x10, 1);
        bench.write(0x10, 0xD1);
        bench.int(false);
        bench.read(0x10, 1);
    }
    // an edge is nothing to a channel that runs in timer mode
    {
        let mut bench = Bench::new(&rt);
        bench.write(0x10, 0x95);
        bench.write(0x10, 2);
        bench.line(0, true);
        bench.read(0x10, 2);
    }
}

#[test]
fn resets(rt: HostRuntime) {
    {
        let mut bench = Bench::new(&rt);
        bench.write(0x10, 0x85);
        bench.write(0x10, 9);
        bench.clocks(20);
        bench.reset();
        bench.read(0x10, 8);
        bench.clocks(600);
        bench.read(0x10, 8);
        bench.int(false);
    }
    // the line is high already, so that its going high is no edge
    {
        let mut bench = Bench::new(&rt);
        bench.line(0, true);
        bench.reset();
        bench.write(0x10, 0xD5);
        bench.write(0x10, 1);
        bench.line(0, true);
        bench.int(false);
        bench.line(0, false);
        bench.line(0, true);
        bench.int(true);
    }
    // no constant is awaited
    {
        let mut bench = Bench::new(&rt);
        bench.write(0x10, 0x85);
        bench.reset();
        bench.write(0x10, 0x40);
        bench.write(0x10, 0x85);
        bench.write(0x10, 1);
        bench.clocks(16);
        bench.acknowledge(Some(0x40));
    }
    // the vector is cleared
    {
        let mut bench = Bench::new(&rt);
        bench.write(0x10, 0x40);
        bench.reset();
        bench.write(0x10, 0x85);
        bench.write(0x10, 1);
        bench.clocks(16);
        bench.acknowledge(Some(0));
    }
}
