// The queue record: its parts, the check that answers whether it is well formed, the test for the blank queue, the openings,
// the search for the newest waiting token, how many wait, and the record with another kind, selection or phase.
#![tactic(auto)]

mod answered;
mod blanks;
mod check;
mod limits;
mod openings;
mod record;
mod refusal;
mod search;
mod setters;
mod tally;

pub use answered::Answered;
pub use blanks::is_blank;
pub use check::{scope_fits, slot_fits, sound, ticket_fits, well_formed, zeros_from};
pub use limits::{MOST_BINDINGS, MOST_TOKENS};
pub use openings::{Heading, Opened, blank, iterator, open_as, places_of, scope};
pub use record::{Kind, Queue, Ticket};
pub use refusal::{Refusal, result_number};
pub use search::newest_place;
pub use setters::{move_to, select, set_kind};
pub use tally::waiting_count;
