// R113: pop, complete and retry of a group, by its id.
ghost use Rattle.std.specs.Prelude.{◌≡◌};
ghost use Rattle.group_steps.specs.Attempts.{popped_in, completed_in, retried_in};

use group_check::{look_up, queue_at};
use group_record::{Groups, GroupsAnswered, put_back};
use queue_record::Ticket;
use queue_steps::{Completed, Popped, Retried};

#[tactic(auto, using(group_check::proofs::Spots::spot_below), unfolding(crate::specs::Attempts::popped_in))]
pub fn pop(g: Groups, id: u64) -> GroupsAnswered<Popped>
    ensures { result ≡ popped_in g id }
{
    match look_up(g, id) {
        Err(refusal) => GroupsAnswered {
            answer: Err(refusal),
            groups: g,
        },
        Ok(at) => put_back(g, at, queue_steps::pop(queue_at(g, at))),
    }
}

#[tactic(auto, using(group_check::proofs::Spots::spot_below), unfolding(crate::specs::Attempts::completed_in))]
pub fn complete(
    g: Groups,
    id: u64,
    ticket: Ticket,
    outcome: u64,
    kept: u64,
) -> GroupsAnswered<Completed>
    ensures { result ≡ completed_in g id ticket outcome kept }
{
    match look_up(g, id) {
        Err(refusal) => GroupsAnswered {
            answer: Err((refusal, kept)),
            groups: g,
        },
        Ok(at) => put_back(
            g,
            at,
            queue_steps::complete(queue_at(g, at), ticket, outcome, kept),
        ),
    }
}

#[tactic(auto, using(group_check::proofs::Spots::spot_below), unfolding(crate::specs::Attempts::retried_in))]
pub fn retry(g: Groups, id: u64) -> GroupsAnswered<Retried>
    ensures { result ≡ retried_in g id }
{
    match look_up(g, id) {
        Err(refusal) => GroupsAnswered {
            answer: Err(refusal),
            groups: g,
        },
        Ok(at) => put_back(g, at, queue_steps::retry(queue_at(g, at))),
    }
}
