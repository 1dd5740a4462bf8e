// The steps of an attempt: pop, complete, retry.
#![tactic(auto)]

mod attempts;

pub use attempts::{Completed, Popped, Retried, complete, pop, retry};
