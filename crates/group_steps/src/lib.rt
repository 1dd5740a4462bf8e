// The steps of a group, by its id: each is the step of its queue, and no other place changes.
#![tactic(auto)]

mod attempts;
mod births;
mod sequences;

pub use attempts::{complete, pop, retry};
pub use births::{land, register};
pub use sequences::register_all;
