// A group by its id: where it is, and its queue (R121).
ghost use Rattle.std.specs.Prelude.{◌≡◌, ◌<◌};
ghost use Rattle.group_record.specs.Record.{queue_at};
ghost use Rattle.group_check.specs.Ids.{spot_of, got};

use crate::check::sound;
use group_asking::place_of;
use group_record::Groups;
use queue_record::{Answered, Queue, Refusal, blank};

// The place that is live under an id, or why a call by this id is refused.
pub type Spot = Result<usize, Refusal>;

// R123: every call by id checks 1, then 10.
#[tactic(auto, unfolding(crate::specs::Ids::spot_of))]
pub fn look_up(g: Groups, id: u64) -> Spot
    ensures { result ≡ spot_of g id }
{
    sound(g)?;
    place_of(g, id).ok_or(Refusal::NoGroup)
}

pub type Got = Result<(), Refusal>;

pub fn queue_at(g: Groups, at: usize) -> Queue
    requires { at < 16 }
    ensures { result ≡ queue_at g at }
{
    let place = g.places[at];
    place.queue
}

// The group's queue; beside a refusal the blank queue.
#[tactic(auto, using(crate::proofs::Spots::spot_below), unfolding(crate::specs::Ids::got))]
pub fn get(g: Groups, id: u64) -> Answered<Got>
    ensures { result ≡ got g id }
{
    match look_up(g, id) {
        Err(refusal) => Answered {
            answer: Err(refusal),
            queue: blank(),
        },
        Ok(at) => Answered {
            answer: Ok(()),
            queue: queue_at(g, at),
        },
    }
}
