// A queue of one's own, lent to pop and then to complete: one local through both lent calls.
ghost use Rattle.std.specs.Prelude.{◌≡◌};
ghost use Rattle.lent_steps.specs.Turned.{turned};

use queue_lent::{complete_lent, pop_lent};
use queue_record::{Queue, Ticket};
use queue_steps::{Completed, Popped};

// Two answers beside the queue, where Answered has one.
#[derive(Clone, Copy)]
pub struct TurnAnswer {
    pub popped: Popped,
    pub completed: Completed,
    pub queue: Queue,
}

pub fn turn(q: Queue, ticket: Ticket, outcome: u64, kept: u64) -> TurnAnswer
    ensures { result ≡ turned q ticket outcome kept }
{
    let mut queue = q;
    let popped = pop_lent(&mut queue);
    let completed = complete_lent(&mut queue, ticket, outcome, kept);
    TurnAnswer {
        popped,
        completed,
        queue,
    }
}
