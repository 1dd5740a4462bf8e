// Register a whole list: each number in turn, up to the first that is refused.
ghost use Rattle.std.specs.Prelude.{◌+◌, ◌≤◌, ◌≡◌, length};
ghost use Rattle.queue_births.specs.Sequences.{grown_all, registered_all};

use crate::births::grow;
use queue_decisions::{Taking, register_taking};
use queue_record::{Answered, Queue, Refusal, well_formed};

// How many were taken, and what refused the next one, or the whole list: both are said, so this is no Result.
#[derive(Clone, Copy)]
pub struct RegisteredAll {
    pub taken: u64,
    pub refusal: Option<Refusal>,
}

// A token more for each number.
pub fn grow_all(q: Queue, numbers: &[u64]) -> Queue
    requires { q.count + length numbers.now ≤ 64 }
    ensures { result ≡ grown_all q numbers.now }
{
    let mut after = q;
    for number in numbers {
        after = grow(after, *number);
    }
    after
}

// The record is looked at once, and not for each number.
pub fn register_all(q: Queue, numbers: &[u64]) -> Answered<RegisteredAll>
    ensures { result ≡ registered_all q numbers.now }
{
    if !well_formed(q) {
        return Answered {
            answer: RegisteredAll {
                taken: 0,
                refusal: Some(Refusal::Broken),
            },
            queue: q,
        };
    }
    let taking = register_taking(numbers, q.count);
    let taken = taking.taken;
    let copy = taking.numbers;
    let after = grow_all(q, &copy[..taken as usize]);
    Answered {
        answer: RegisteredAll {
            taken,
            refusal: taking.refusal,
        },
        queue: after,
    }
}
