// One channel of a CTC: its control word, its phase, and what it counts.
#![tactic(auto)]

pub mod channel;
pub mod control;

pub use channel::Channel;
pub use control::is_control_word;
