// Requests of a card are told apart by rank: the higher outranks the lower, and is served first.
#![tactic(auto)]

pub mod from_the_top;
pub mod set;

pub use from_the_top::FromTheTop;
pub use set::RankSet;
