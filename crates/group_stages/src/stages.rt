// R113: admit, end and cancel of a group, by its id.
ghost use Rattle.std.specs.Prelude.{◌≡◌};
ghost use Rattle.group_stages.specs.Stages.{admitted_in, admitted_in_without, ended_in, cancelled_in};

use group_check::{look_up, queue_at};
use group_record::{Groups, GroupsAnswered, put_back};
use queue_questions::Told;
use queue_stages::Cancelled;

// With a target.
#[tactic(auto, using(group_check::proofs::Spots::spot_below), unfolding(crate::specs::Stages::admitted_in))]
pub fn admit(g: Groups, id: u64, target: &[u64]) -> GroupsAnswered<Told>
    ensures { result ≡ admitted_in g id target.now }
{
    match look_up(g, id) {
        Err(refusal) => GroupsAnswered {
            answer: Err(refusal),
            groups: g,
        },
        Ok(at) => put_back(g, at, queue_stages::admit(queue_at(g, at), target)),
    }
}

// Without a target.
#[tactic(auto, using(group_check::proofs::Spots::spot_below), unfolding(crate::specs::Stages::admitted_in_without))]
pub fn admit_without(g: Groups, id: u64) -> GroupsAnswered<Told>
    ensures { result ≡ admitted_in_without g id }
{
    match look_up(g, id) {
        Err(refusal) => GroupsAnswered {
            answer: Err(refusal),
            groups: g,
        },
        Ok(at) => put_back(g, at, queue_stages::admit_without(queue_at(g, at))),
    }
}

#[tactic(auto, using(group_check::proofs::Spots::spot_below), unfolding(crate::specs::Stages::ended_in))]
pub fn end(g: Groups, id: u64) -> GroupsAnswered<Told>
    ensures { result ≡ ended_in g id }
{
    match look_up(g, id) {
        Err(refusal) => GroupsAnswered {
            answer: Err(refusal),
            groups: g,
        },
        Ok(at) => put_back(g, at, queue_stages::end(queue_at(g, at))),
    }
}

#[tactic(auto, using(group_check::proofs::Spots::spot_below), unfolding(crate::specs::Stages::cancelled_in))]
pub fn cancel(g: Groups, id: u64) -> GroupsAnswered<Cancelled>
    ensures { result ≡ cancelled_in g id }
{
    match look_up(g, id) {
        Err(refusal) => GroupsAnswered {
            answer: Err(refusal),
            groups: g,
        },
        Ok(at) => put_back(g, at, queue_stages::cancel(queue_at(g, at))),
    }
}
