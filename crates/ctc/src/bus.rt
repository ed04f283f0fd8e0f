// The CTC on the bus. Each call's work is a function of `chip`, with one definition as its contract; here the trait's clauses,
// several to a call, are proved of it once.
use crate::chip::Ctc;
use card::{Bus, Refusal};

impl Bus for Ctc {
    fn write(&mut self, port: u8, byte: u8) -> Result<(), Refusal> {
        self.write_port(port, byte)
    }

    fn read(&mut self, port: u8) -> Result<u8, Refusal> {
        self.read_port(port)
    }

    fn clock(&mut self) {
        self.clock_all();
    }

    fn change_line(&mut self, port: u8, line: u8, high: bool) -> Result<(), Refusal> {
        self.set_line(port, line, high)
    }
}
