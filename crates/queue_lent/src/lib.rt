// R60: pop and complete on a record that the caller lends: thin faces over the calls by value.
#![tactic(auto)]

ghost use Rattle.std.specs.Prelude.{◌≡◌};
ghost use Rattle.queue_steps.specs.Attempts.{popped, completed};

use queue_record::{Queue, Ticket};
use queue_steps::{Completed, Popped, complete, pop};

// The record is copied out, stepped by value, and stored whole.
pub fn pop_lent(q: &mut Queue) -> Popped
    ensures { (result ≡ (popped q.old).answer) × (q.new ≡ (popped q.old).queue) }
{
    let out = pop(*q);
    *q = out.queue;
    out.answer
}

pub fn complete_lent(q: &mut Queue, ticket: Ticket, outcome: u64, kept: u64) -> Completed
    ensures { (result ≡ (completed q.old ticket outcome kept).answer) × (q.new ≡ (completed q.old ticket outcome kept).queue) }
{
    let back = complete(*q, ticket, outcome, kept);
    *q = back.queue;
    back.answer
}
