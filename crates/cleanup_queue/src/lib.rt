// The public face of a cleanup queue: the record, its check, the openings, the calls, the refusals' names and the limits. No other
// call is public.
#![tactic(auto)]

pub use queue_births::{Registered, RegisteredAll, land, register, register_all};
pub use queue_questions::{
    DomainTold, Told, can_finish, can_retry, domain, has_failed, is_cancelled, is_empty, is_issued,
    is_pending, is_settled,
};
pub use queue_record::{
    Answered, Kind, MOST_BINDINGS, MOST_TOKENS, Opened, Queue, Refusal, Ticket, iterator, scope,
    well_formed,
};
pub use queue_stages::{Cancelled, admit, admit_without, cancel, end};
pub use queue_steps::{Completed, Popped, Retried, complete, pop, retry};
pub use stage::Phase;
