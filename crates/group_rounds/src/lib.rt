// The retry of every failed group.
#![tactic(auto)]

mod rounds;

pub use rounds::retry_all;
