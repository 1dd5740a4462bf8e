// R149: register of a whole list of a group, by its id.
ghost use Rattle.std.specs.Prelude.{◌≡◌};
ghost use Rattle.group_steps.specs.Sequences.{registered_all_in};

use group_check::{look_up, queue_at};
use group_record::{Groups, GroupsAnswered, put_back};
use queue_births::RegisteredAll;

#[tactic(auto, using(group_check::proofs::Spots::spot_below), unfolding(crate::specs::Sequences::registered_all_in))]
pub fn register_all(g: Groups, id: u64, numbers: &[u64]) -> GroupsAnswered<RegisteredAll>
    ensures { result ≡ registered_all_in g id numbers.now }
{
    match look_up(g, id) {
        Err(refusal) => GroupsAnswered {
            answer: RegisteredAll {
                taken: 0,
                refusal: Some(refusal),
            },
            groups: g,
        },
        Ok(at) => put_back(g, at, queue_births::register_all(queue_at(g, at), numbers)),
    }
}
