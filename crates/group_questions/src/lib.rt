// The calls that ask of one group, by its id.
#![tactic(auto)]

mod by_id;

pub use by_id::{
    accepts_acquisition, group_can_finish, group_can_retry, group_domain, group_has_failed,
    group_is_cancelled, group_is_empty, group_is_issued, group_is_pending, group_is_settled,
};
