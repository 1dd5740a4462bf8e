// The calls that move the stage and nothing else: admit, end, cancel.
#![tactic(auto)]

mod stages;

pub use stages::{Cancelled, admit, admit_without, after_admit, cancel, end};
