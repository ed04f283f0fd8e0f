// The CTC card: four channels that count clocks or edges of their trigger lines.
#![tactic(auto)]

pub mod bus;
pub mod chain;
pub mod chip;
mod number;

pub use chip::Ctc;
