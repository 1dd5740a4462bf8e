// The walks over the places: whether some place says yes, and the lowest that does.
ghost use Rattle.std.specs.Prelude.{◌≡◌, [], drop};
ghost use Rattle.queue_record.specs.Newest.{is_there};
ghost use Rattle.group_asking.specs.Question.{Free, Littered, Live, HoldsId, PastNext, Foreign, Pending, Issued, Failed, Stuck, Unfinished, Undrained};
ghost use Rattle.group_asking.specs.Questions.{asks_of};
ghost use Rattle.group_asking.specs.Scan.{first_from, first_yes, some_yes};

use crate::questions::{belongs_to, is_drained, is_finishing, is_littered, is_stuck};
use group_record::Groups;

pub fn lowest_free(g: Groups) -> Option<usize>
    ensures { result ≡ first_yes g Free [] }
{
    g.places.iter().position(|p| !p.live)
}

// Where this id is live.
pub fn place_of(g: Groups, id: u64) -> Option<usize>
    ensures { result ≡ first_yes g (HoldsId id) [] }
{
    g.places.iter().position(|p| p.live && p.id == id)
}

// Whether it is, from the place `from` on.
pub fn some_held_from(g: Groups, from: usize, id: u64) -> bool
    ensures { result ≡ is_there (first_from (asks_of (HoldsId id) []) 0 (drop from g.places)) }
{
    g.places.iter().skip(from).any(|p| p.live && p.id == id)
}

// A free place that is not blank.
pub fn some_littered(g: Groups) -> bool
    ensures { result ≡ some_yes g Littered [] }
{
    g.places
        .iter()
        .any(|p| !p.live && is_littered(p.id, p.queue))
}

pub fn some_live(g: Groups) -> bool
    ensures { result ≡ some_yes g Live [] }
{
    g.places.iter().any(|p| p.live)
}

// A group whose id is not below this next id.
pub fn some_past(g: Groups, next: u64) -> bool
    ensures { result ≡ some_yes g (PastNext next) [] }
{
    g.places.iter().any(|p| p.live && next <= p.id)
}

// A group whose queue is not well formed or not of this base plus its id.
pub fn some_foreign(g: Groups, base: u64) -> bool
    ensures { result ≡ some_yes g (Foreign base) [] }
{
    g.places
        .iter()
        .any(|p| p.live && !belongs_to(base, p.id, p.queue))
}

pub fn some_pending(g: Groups) -> bool
    ensures { result ≡ some_yes g Pending [] }
{
    g.places
        .iter()
        .any(|p| p.live && p.queue.phase.is_pending())
}

pub fn some_issued(g: Groups) -> bool
    ensures { result ≡ some_yes g Issued [] }
{
    g.places.iter().any(|p| p.live && p.queue.issued)
}

pub fn some_failed(g: Groups) -> bool
    ensures { result ≡ some_yes g Failed [] }
{
    g.places.iter().any(|p| p.live && p.queue.failed)
}

// A failed group that may not be retried.
pub fn some_stuck(g: Groups) -> bool
    ensures { result ≡ some_yes g Stuck [] }
{
    g.places.iter().any(|p| p.live && is_stuck(p.queue))
}

// A group that keeps can_finish from saying yes.
pub fn some_unfinished(g: Groups, target: &[u64]) -> bool
    ensures { result ≡ some_yes g Unfinished target.now }
{
    g.places
        .iter()
        .any(|p| p.live && !is_finishing(p.id, p.queue, target))
}

pub fn some_undrained(g: Groups) -> bool
    ensures { result ≡ some_yes g Undrained [] }
{
    g.places.iter().any(|p| p.live && !is_drained(p.queue))
}
