// R113: register and land of a group, by its id.
ghost use Rattle.std.specs.Prelude.{◌≡◌};
ghost use Rattle.group_steps.specs.Births.{registered_in, landed_in};

use group_check::{look_up, queue_at};
use group_record::{Groups, GroupsAnswered, put_back};
use queue_births::Registered;

#[tactic(auto, using(group_check::proofs::Spots::spot_below), unfolding(crate::specs::Births::registered_in))]
pub fn register(g: Groups, id: u64, number: u64) -> GroupsAnswered<Registered>
    ensures { result ≡ registered_in g id number }
{
    match look_up(g, id) {
        Err(refusal) => GroupsAnswered {
            answer: Err((refusal, number)),
            groups: g,
        },
        Ok(at) => put_back(g, at, queue_births::register(queue_at(g, at), number)),
    }
}

#[tactic(auto, using(group_check::proofs::Spots::spot_below), unfolding(crate::specs::Births::landed_in))]
pub fn land(g: Groups, id: u64, number: u64) -> GroupsAnswered<Registered>
    ensures { result ≡ landed_in g id number }
{
    match look_up(g, id) {
        Err(refusal) => GroupsAnswered {
            answer: Err((refusal, number)),
            groups: g,
        },
        Ok(at) => put_back(g, at, queue_births::land(queue_at(g, at), number)),
    }
}
