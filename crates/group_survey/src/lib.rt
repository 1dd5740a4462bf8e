// The calls that ask of all live groups at once.
#![tactic(auto)]

mod whole;

pub use whole::{
    LenTold, can_add, can_finish, can_retry_all, can_seal, contains, has_failed, has_issued,
    has_pending, is_empty, len, may_retry_all,
};
