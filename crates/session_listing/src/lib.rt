// The listing of a session for a person: one line for the count and one for each call, or the refusal.
#![tactic(auto)]

mod lines;
mod text;

pub use text::listing;
