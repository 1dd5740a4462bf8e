// The record with another kind, selection or phase.
ghost use Rattle.std.specs.Prelude.{◌≡◌};
ghost use Rattle.queue_record.specs.Record.{with_kind, with_selection, with_phase};

use crate::record::{Kind, Queue, Ticket};
use stage::Phase;

pub fn set_kind(q: Queue, kind: Kind) -> Queue
    ensures { result ≡ with_kind q kind }
{
    Queue { kind, ..q }
}

pub fn select(q: Queue, selection: Option<Ticket>) -> Queue
    ensures { result ≡ with_selection q selection }
{
    Queue { selection, ..q }
}

pub fn move_to(q: Queue, phase: Phase) -> Queue
    ensures { result ≡ with_phase q phase }
{
    Queue { phase, ..q }
}
