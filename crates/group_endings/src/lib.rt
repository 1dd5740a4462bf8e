// Closing a group and sealing the record.
#![tactic(auto)]

mod endings;

pub use endings::{Closed, remove, seal};
