// An example for card builders: drives one card through the interface. A CTC counts the rising edges of a shaft encoder,
// and requests an interrupt every third one.
#![tactic(auto)]

use card::{Bus, Refusal};
use ctc::Ctc;

// The port of channel 0; line 0 is its trigger.
const PORT: u8 = 0x10;

fn main(rt: HostRuntime) -> anyhow::Result<()> {
    let mut bench = Bench {
        rt: &rt,
        card: Ctc::new(PORT),
    };
    bench.set_up()?;
    bench.turn(3)?;
    bench.acknowledge()?;
    // Three edges more: the request waits, but its own service holds it back until the return.
    bench.turn(3)?;
    bench.acknowledge()?;
    bench.return_from_interrupt()?;
    bench.acknowledge()?;
    bench.return_from_interrupt()
}

// A card, with its IEI high, and where to print what it does. It takes any card, by the interface alone; the bytes that are
// written are a CTC's.
#[derive(Drop)]
struct Bench<'a, C> {
    rt: &'a HostRuntime,
    card: C,
}

impl<C: Bus> Bench<'_, C> {
    fn set_up(&mut self) -> anyhow::Result<()> {
        self.write(0x40, "vector")?;
        self.write(
            0xD5,
            "control word: interrupt, counter mode, rising edge, a constant follows",
        )?;
        self.write(3, "constant")
    }

    fn write(&mut self, byte: u8, what: &str) -> anyhow::Result<()> {
        match self.card.write(PORT, byte) {
            Ok(()) => println!(self.rt; "write {byte:02X}    {what}")?,
            Err(refusal) => println!(self.rt;
                "write {byte:02X}    refused by {}",
                u8::from(refusal)
            )?,
        }
        Ok(())
    }

    fn turn(&mut self, edges: u8) -> anyhow::Result<()> {
        for _ in 0..edges {
            match self.count_edge() {
                Ok(counter) => println!(self.rt;
                    "edge        counter {counter}, {}",
                    self.pulled()
                )?,
                Err(refusal) => println!(self.rt; "edge        refused by {}", u8::from(refusal))?,
            }
        }
        Ok(())
    }

    // The encoder's line goes high and low again; the counter after it.
    fn count_edge(&mut self) -> Result<u8, Refusal> {
        self.card.change_line(PORT, 0, true)?;
        self.card.change_line(PORT, 0, false)?;
        self.card.read(PORT)
    }

    fn acknowledge(&mut self) -> anyhow::Result<()> {
        match self.card.acknowledge(true) {
            Some(vector) => println!(self.rt;
                "acknowledge vector {vector:02X}, {}",
                self.pulled()
            )?,
            None => println!(self.rt; "acknowledge none, {}", self.pulled())?,
        }
        Ok(())
    }

    fn return_from_interrupt(&mut self) -> anyhow::Result<()> {
        self.card.return_from_interrupt(true);
        println!(self.rt; "return      {}", self.pulled())?;
        Ok(())
    }

    fn pulled(&self) -> &'static str {
        if self.card.pulls_int(true) {
            "INT pulled"
        } else {
            "INT not pulled"
        }
    }
}
