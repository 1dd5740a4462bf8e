// Questions to one queue, public and for the crates above.
#![tactic(auto)]

mod questions;

pub use questions::{
    DomainTold, Told, can_finish, can_retry, domain, has_failed, is_cancelled, is_empty, is_issued,
    is_pending, is_settled, may_finish,
};
