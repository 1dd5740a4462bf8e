// The archive for C: each call of gulberzan_c under its name, with the same clauses: C needs each as a function of its own.
#![tactic(auto)]

mod attempts;
mod births;
mod naming;
mod openings;
mod questions;
mod reading;
mod recorded_attempts;
mod recorded_births;
mod recorded_stages;
mod sequences;
mod stages;
