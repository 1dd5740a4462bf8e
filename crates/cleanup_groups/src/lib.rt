// The public face of the groups: the record, the calls, the refusals' names and the limits. No other call is public.
#![tactic(auto)]

pub use group_check::{Got, IDS, LAST_BASE, get, well_grouped};
pub use group_endings::{Closed, remove, seal};
pub use group_openings::{Added, add_iterator, add_scope, new};
pub use group_questions::{
    accepts_acquisition, group_can_finish, group_can_retry, group_domain, group_has_failed,
    group_is_cancelled, group_is_empty, group_is_issued, group_is_pending, group_is_settled,
};
pub use group_record::{Groups, GroupsAnswered, Place};
pub use group_rounds::retry_all;
pub use group_stages::{admit, admit_without, cancel, end};
pub use group_steps::{complete, land, pop, register, register_all, retry};
pub use group_survey::{
    LenTold, can_add, can_finish, can_retry_all, can_seal, contains, has_failed, has_issued,
    has_pending, is_empty, len,
};
pub use queue_births::{Registered, RegisteredAll};
pub use queue_questions::{DomainTold, Told};
pub use queue_record::{Answered, Kind, Opened, Queue, Refusal, Ticket};
pub use queue_stages::Cancelled;
pub use queue_steps::{Completed, Popped, Retried};
pub use stage::Phase;
