// Pop and complete by value, by way of a queue that is lent: who calls these needs no proof by hand.
#![tactic(auto)]

mod turns;

ghost use Rattle.std.specs.Prelude.{◌≡◌};
ghost use Rattle.queue_steps.specs.Attempts.{popped, completed};

use queue_lent::{complete_lent, pop_lent};
use queue_record::{Answered, Queue, Ticket};
use queue_steps::{Completed, Popped};
pub use turns::{TurnAnswer, turn};

pub fn pop_via(q: Queue) -> Answered<Popped>
    ensures { result ≡ popped q }
{
    let mut queue = q;
    let answer = pop_lent(&mut queue);
    Answered { answer, queue }
}

pub fn complete_via(q: Queue, ticket: Ticket, outcome: u64, kept: u64) -> Answered<Completed>
    ensures { result ≡ completed q ticket outcome kept }
{
    let mut queue = q;
    let answer = complete_lent(&mut queue, ticket, outcome, kept);
    Answered { answer, queue }
}
