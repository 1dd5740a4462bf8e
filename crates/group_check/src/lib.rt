// Whether a group record is well formed, a group by its id, and how many are live.
#![tactic(auto)]

mod check;
mod ids;
mod tally;

pub use check::{IDS, LAST_BASE, sound, well_grouped};
pub use ids::{Got, Spot, get, look_up, queue_at};
pub use tally::live_count;
