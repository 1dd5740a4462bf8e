// A queue as words: their places, its parts as they stand there, the check on the way in, and what the calls share.
#![tactic(auto)]

mod check;
mod decoding;
pub mod layout;
mod questions;
mod search;
mod steps;

pub use check::sound;
pub use decoding::{kind_at, selection_in, ticket_at};
pub use questions::{finish_allowed, nothing_left, retry_allowed, target_matches};
pub use search::sought_in;
pub use steps::{
    deselect, move_stage, put_blank, put_iterator, put_phase, put_run, put_scope, select, yes_word,
};
