// What is asked of the places, one by one and in a walk.
#![tactic(auto)]

mod questions;
mod scan;

pub use questions::is_drained;
pub use scan::{
    lowest_free, place_of, some_failed, some_foreign, some_held_from, some_issued, some_littered,
    some_live, some_past, some_pending, some_stuck, some_undrained, some_unfinished,
};
