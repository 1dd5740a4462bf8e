// Register, land, and register of a whole list: the calls that append undo numbers.
#![tactic(auto)]

mod births;
mod sequences;

pub use births::{Registered, land, register};
pub use sequences::{RegisteredAll, grow_all, register_all};
