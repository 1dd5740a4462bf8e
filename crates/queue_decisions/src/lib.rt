// What each step decides, over the fields that it looks at: the refusal of a birth, how many of a list are taken, the ticket that is due,
// the refusal of an answer, the ticket renewed. The calls by value, on words, recorded and replayed ask here; only their stores differ.
#![tactic(auto)]

mod answers;
mod births;
mod pops;
mod renewals;
mod sequences;
mod slots;

pub use answers::complete_refusal;
pub use births::{land_refusal, register_refusal};
pub use pops::{Due, number_due, pop_due, seek};
pub use renewals::{Renewal, retry_allowed, retry_due};
pub use sequences::{Taking, register_taking};
