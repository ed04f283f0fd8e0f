// A CTC made for port 10h, whose calls are checked against what they should answer.
use card::{Bus, Chain, Refusal};
use ctc::Ctc;
use std::process::Abort;

#[derive(Drop)]
pub(crate) struct Bench<'a, R> {
    rt: &'a R,
    card: Ctc,
}

impl<'a, R: Abort> Bench<'a, R> {
    pub(crate) fn new(rt: &'a R) -> Bench<'a, R> {
        Bench {
            rt,
            card: Ctc::new(0x10),
        }
    }

    pub(crate) fn write(&mut self, port: u8, byte: u8) {
        assert_eq!(self.rt; self.card.write(port, byte), Ok(()));
    }

    pub(crate) fn write_refused(&mut self, port: u8, byte: u8, refusal: Refusal) {
        assert_eq!(self.rt; self.card.write(port, byte), Err(refusal));
    }

    pub(crate) fn read(&mut self, port: u8, byte: u8) {
        assert_eq!(self.rt; self.card.read(port), Ok(byte));
    }

    pub(crate) fn read_refused(&mut self, port: u8, refusal: Refusal) {
        assert_eq!(self.rt; self.card.read(port), Err(refusal));
    }

    pub(crate) fn clocks(&mut self, number: u16) {
        for _ in 0..number {
            self.card.clock();
        }
    }

    pub(crate) fn line(&mut self, line: u8, high: bool) {
        assert_eq!(self.rt; self.card.change_line(0x10, line, high), Ok(()));
    }

    pub(crate) fn line_refused(&mut self, port: u8, line: u8, refusal: Refusal) {
        assert_eq!(self.rt; self.card.change_line(port, line, true), Err(refusal));
    }

    pub(crate) fn int(&self, pulled: bool) {
        assert_eq!(self.rt; self.card.pulls_int(true), pulled);
    }

    pub(crate) fn acknowledge(&mut self, vector: Option<u8>) {
        assert_eq!(self.rt; self.card.acknowledge(true), vector);
    }

    pub(crate) fn return_from_interrupt(&mut self) {
        self.card.return_from_interrupt(true);
    }

    pub(crate) fn reset(&mut self) {
        self.card.reset();
    }

    pub(crate) fn waiting(&self, number: u16) {
        assert_eq!(self.rt; self.card.waiting_count(), number);
    }
}
