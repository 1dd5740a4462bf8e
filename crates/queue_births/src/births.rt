// R38 to R40: register and land, the calls that append an undo number.
ghost use Rattle.std.specs.Prelude.{◌<◌, ◌≡◌};
ghost use Rattle.queue_births.specs.Births.{refused_birth, grown, registered, landed};

use queue_decisions::{land_refusal, register_refusal};
use queue_record::{Answered, Queue, Refusal, move_to, well_formed};
use stage::Event;

// The token; or what refused it, and the undo number given.
pub type Registered = Result<u64, (Refusal, u64)>;

fn refused(q: Queue, refusal: Refusal, number: u64) -> Answered<Registered>
    ensures { result ≡ refused_birth q refusal number }
{
    Answered {
        answer: Err((refusal, number)),
        queue: q,
    }
}

// One token more, whose slot holds the number.
pub fn grow(q: Queue, number: u64) -> Queue
    requires { q.count < 64 }
    ensures { result ≡ grown q number }
{
    let count = q.count;
    let at = count as usize;
    let mut after = q;
    after.slots[at] = number;
    after.count = count + 1;
    after
}

pub fn register(q: Queue, number: u64) -> Answered<Registered>
    ensures { result ≡ registered q number }
{
    if !well_formed(q) {
        return refused(q, Refusal::Broken, number);
    }
    if let Some(refusal) = register_refusal(number, q.count) {
        return refused(q, refusal, number);
    }
    let token = q.count;
    let after = grow(q, number);
    Answered {
        answer: Ok(token),
        queue: after,
    }
}

// R40: as register, and moves the stage.
pub fn land(q: Queue, number: u64) -> Answered<Registered>
    ensures { result ≡ landed q number }
{
    if !well_formed(q) {
        return refused(q, Refusal::Broken, number);
    }
    let phase = q.phase;
    if let Some(refusal) = land_refusal(number, phase, q.count) {
        return refused(q, refusal, number);
    }
    let token = q.count;
    let born = grow(q, number);
    let after = move_to(born, stage::next_phase(phase, Event::Land));
    Answered {
        answer: Ok(token),
        queue: after,
    }
}
