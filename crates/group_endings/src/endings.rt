// Groups closed (R110), and the record sealed (R112).
ghost use Rattle.std.specs.Prelude.{◌≡◌};
ghost use Rattle.group_endings.specs.Endings.{refused_close, removed, sealed_in};

use group_asking::{is_drained, some_undrained};
use group_check::{look_up, queue_at};
use group_openings::is_unsealed;
use group_record::{Groups, GroupsAnswered, free_place, put_place, sealed_of};
use queue_record::Refusal;

pub type Closed = Result<(), Refusal>;

fn close_refused(g: Groups, refusal: Refusal) -> GroupsAnswered<Closed>
    ensures { result ≡ refused_close g refusal }
{
    GroupsAnswered {
        answer: Err(refusal),
        groups: g,
    }
}

// Closes a group; its place is free again.
#[tactic(auto, using(group_check::proofs::Spots::spot_below), unfolding(crate::specs::Endings::removed))]
pub fn remove(g: Groups, id: u64) -> GroupsAnswered<Closed>
    ensures { result ≡ removed g id }
{
    match look_up(g, id) {
        Err(refusal) => close_refused(g, refusal),
        Ok(at) => {
            if !is_drained(queue_at(g, at)) {
                return close_refused(g, Refusal::NotDrained);
            }
            GroupsAnswered {
                answer: Ok(()),
                groups: put_place(g, at, free_place()),
            }
        }
    }
}

// Drops all groups and lets none be opened again.
#[tactic(auto, unfolding(crate::specs::Endings::sealed_in))]
pub fn seal(g: Groups) -> GroupsAnswered<Closed>
    ensures { result ≡ sealed_in g }
{
    match is_unsealed(g) {
        Err(refusal) => close_refused(g, refusal),
        Ok(()) => {
            if some_undrained(g) {
                return close_refused(g, Refusal::NotDrained);
            }
            GroupsAnswered {
                answer: Ok(()),
                groups: sealed_of(g),
            }
        }
    }
}
