// Admit, end and cancel of a group, by its id: each is the call of its queue, and no other place changes.
#![tactic(auto)]

mod stages;

pub use stages::{admit, admit_without, cancel, end};
