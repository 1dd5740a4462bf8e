// The public calls of a queue for C: the queue is words that the caller lends, checked on the way in and changed in place.
#![tactic(auto)]

mod attempts;
mod births;
mod naming;
mod openings;
mod questions;
mod reading;
mod recorded_attempts;
mod recorded_births;
mod recorded_stages;
mod sequences;
mod stages;
mod told;

pub use attempts::{gulberzan_complete, gulberzan_pop, gulberzan_retry};
pub use births::{gulberzan_land, gulberzan_register};
pub use naming::gulberzan_result_text;
pub use openings::{gulberzan_open_iterator, gulberzan_open_scope};
pub use questions::{
    gulberzan_can_finish, gulberzan_can_retry, gulberzan_domain, gulberzan_has_failed,
    gulberzan_is_cancelled, gulberzan_is_empty, gulberzan_is_issued, gulberzan_is_pending,
    gulberzan_is_settled, gulberzan_well_formed,
};
pub use reading::gulberzan_read;
pub use recorded_attempts::{
    gulberzan_complete_recorded, gulberzan_pop_recorded, gulberzan_retry_recorded,
};
pub use recorded_births::{gulberzan_land_recorded, gulberzan_register_recorded};
pub use recorded_stages::{
    gulberzan_admit_recorded, gulberzan_admit_without_recorded, gulberzan_cancel_recorded,
    gulberzan_end_recorded,
};
pub use sequences::{gulberzan_register_all, gulberzan_register_all_recorded};
pub use stages::{gulberzan_admit, gulberzan_admit_without, gulberzan_cancel, gulberzan_end};
