// What is asked of one place and takes more than a line. Each question is answered yes or no, for any place.
ghost use Rattle.std.specs.Prelude.{◌≡◌};
ghost use Rattle.group_asking.specs.Questions.{is_yes, belongs_to, littered, stuck, finishes, drained};

use queue_questions::{Told, can_finish, can_retry, is_empty};
use queue_record::{Queue, is_blank, well_formed};

fn is_yes(told: Told) -> bool
    ensures { result ≡ is_yes told }
{
    told.unwrap_or(false)
}

// Well formed, and its domain is base plus id: subtracted, since the sum may not fit.
pub fn belongs_to(base: u64, id: u64, q: Queue) -> bool
    ensures { result ≡ belongs_to base id q }
{
    base <= q.domain && q.domain - base == id && well_formed(q)
}

pub fn is_littered(id: u64, q: Queue) -> bool
    ensures { result ≡ littered id q }
{
    id != 0 || !is_blank(q)
}

pub fn is_stuck(q: Queue) -> bool
    ensures { result ≡ stuck q }
{
    q.failed && !is_yes(can_retry(q))
}

// R118: id 0 is asked for no more than that it neither runs a step nor has failed.
pub fn is_finishing(id: u64, q: Queue, target: &[u64]) -> bool
    ensures { result ≡ finishes id q target.now }
{
    !q.phase.is_pending() && !q.failed && (id == 0 || is_yes(can_finish(q, target)))
}

// R109: a settled stage is never pending, so the last test changes no answer; it is there since the rule names it.
#[tactic(auto, unfolding(crate::specs::Questions::drained))]
pub fn is_drained(q: Queue) -> bool
    ensures { result ≡ drained q }
{
    is_yes(is_empty(q)) && q.phase.is_settled() && !q.phase.is_pending()
}
