// How groups come: a new record, and opening.
#![tactic(auto)]

mod openings;

pub use openings::{Added, add_iterator, add_scope, is_unsealed, new};
