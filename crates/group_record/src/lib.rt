// The group record: its parts and its setters.
#![tactic(auto)]

mod answered;
mod record;
mod setters;

pub use answered::GroupsAnswered;
pub use record::{Groups, Place};
pub use setters::{empty, free_place, put_back, put_new, put_place, put_queue, sealed_of};
