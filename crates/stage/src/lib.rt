// The stage of a queue: its phases and their table, and equality of sets of bindings.
#![tactic(auto)]

mod bindings;
mod phases;

pub use bindings::same_set;
pub use phases::{Event, Phase, next_phase};
