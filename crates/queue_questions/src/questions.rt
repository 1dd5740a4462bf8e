// R56 to R58: the yes-or-no calls and domain: each refuses a broken record, and changes nothing.
ghost use Rattle.std.specs.Prelude.{◌≡◌};
ghost use Rattle.queue_record.specs.Waiting.{occupied, others};
ghost use Rattle.queue_questions.specs.Questions.{nothing_left, finishable, is_empty_told, is_issued_told, is_pending_told, is_settled_told, is_cancelled_told, has_failed_told, can_retry_told, can_finish_told, domain_told};

use queue_decisions::retry_allowed;
use queue_record::{Queue, Refusal, Ticket, newest_place, sound};
use stage::Phase;

pub type Told = Result<bool, Refusal>;

// R57: nothing waiting and nothing selected.
fn nothing_left(selection: Option<Ticket>, slots: &[u64]) -> bool
    ensures { result ≡ nothing_left selection (others selection (occupied 0 slots.now)) }
{
    selection.is_none() && newest_place(slots).is_none()
}

#[tactic(auto, unfolding(crate::specs::Questions::is_empty_told))]
pub fn is_empty(q: Queue) -> Told
    ensures { result ≡ is_empty_told q }
{
    sound(q)?;
    let slots = q.slots;
    Ok(nothing_left(q.selection, &slots[..q.count as usize]))
}

#[tactic(auto, unfolding(crate::specs::Questions::is_issued_told))]
pub fn is_issued(q: Queue) -> Told
    ensures { result ≡ is_issued_told q }
{
    sound(q)?;
    Ok(q.issued)
}

#[tactic(auto, unfolding(crate::specs::Questions::is_pending_told))]
pub fn is_pending(q: Queue) -> Told
    ensures { result ≡ is_pending_told q }
{
    sound(q)?;
    Ok(q.phase.is_pending())
}

#[tactic(auto, unfolding(crate::specs::Questions::is_settled_told))]
pub fn is_settled(q: Queue) -> Told
    ensures { result ≡ is_settled_told q }
{
    sound(q)?;
    Ok(q.phase.is_settled())
}

#[tactic(auto, unfolding(crate::specs::Questions::is_cancelled_told))]
pub fn is_cancelled(q: Queue) -> Told
    ensures { result ≡ is_cancelled_told q }
{
    sound(q)?;
    Ok(q.phase.is_cancelled())
}

#[tactic(auto, unfolding(crate::specs::Questions::has_failed_told))]
pub fn has_failed(q: Queue) -> Told
    ensures { result ≡ has_failed_told q }
{
    sound(q)?;
    Ok(q.failed)
}

#[tactic(auto, unfolding(crate::specs::Questions::can_retry_told))]
pub fn can_retry(q: Queue) -> Told
    ensures { result ≡ can_retry_told q }
{
    sound(q)?;
    let slots = q.slots;
    Ok(retry_allowed(q.failed, q.selection, &slots, q.next))
}

// R56: nothing selected, neither pending nor cancelled, and the target's set is the committed one.
pub fn may_finish(
    selection: Option<Ticket>,
    phase: Phase,
    target: &[u64],
    committed: &[u64],
) -> bool
    ensures { result ≡ finishable selection phase target.now committed.now }
{
    selection.is_none()
        && !phase.is_pending()
        && !phase.is_cancelled()
        && stage::same_set(target, committed)
}

#[tactic(auto, unfolding(crate::specs::Questions::can_finish_told))]
pub fn can_finish(q: Queue, target: &[u64]) -> Told
    ensures { result ≡ can_finish_told q target.now }
{
    sound(q)?;
    let bindings = q.bindings;
    Ok(may_finish(q.selection, q.phase, target, &bindings[..q.bound as usize]))
}

pub type DomainTold = Result<u64, Refusal>;

#[tactic(auto, unfolding(crate::specs::Questions::domain_told))]
pub fn domain(q: Queue) -> DomainTold
    ensures { result ≡ domain_told q }
{
    sound(q)?;
    Ok(q.domain)
}
