// The steps on words that are known to be sound: what is decided is asked of queue_decisions, and stored then.
#![tactic(auto)]

mod births;
mod complete;
mod openings;
mod pop;
mod retry;
mod sequences;

pub use births::{grow, grow_landed, land_by, land_in, register_by, register_in};
pub use complete::{complete_by, complete_in, refusal_in, settle};
pub use openings::{open_in, open_iterator, open_scope};
pub use pop::{due_in, issue, pop_by, pop_in};
pub use retry::{again_in, renew, retry_by, retry_in};
pub use sequences::{register_all_by, register_all_in};
