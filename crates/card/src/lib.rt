// The one interface behind which every card of a rack stands.
#![tactic(auto)]

pub mod interface;
pub mod listing;
pub mod refusals;

pub use interface::{Bus, Chain};
pub use listing::{Vectors, check_room, list_vectors, places};
pub use refusals::Refusal;
