// What refuses a retry (R54, R63), and the ticket renewed (R55).
ghost use Rattle.std.specs.Prelude.{◌≡◌};
ghost use Rattle.queue_decisions.specs.Renewals.{allowed_by, retry_refusal, retry_due};

use crate::slots::{NO_MORE, slot_at};
use queue_record::{Refusal, Ticket};

pub type Renewal = Result<Ticket, Refusal>;

// By the mark, the number in the selected slot and the next attempt; none where nothing refuses it.
fn retry_refusal(failed: bool, number: u64, next: u64) -> Option<Refusal>
    ensures { result ≡ retry_refusal failed number next }
{
    if !failed {
        return Some(Refusal::NoRetry);
    }
    if number == 0 {
        return Some(Refusal::NothingKept);
    }
    if NO_MORE <= next {
        return Some(Refusal::NoFurtherAttempt);
    }
    None
}

// R54: nothing refuses it.
pub fn retry_allowed(failed: bool, selection: Option<Ticket>, slots: &[u64], next: u64) -> bool
    ensures { result ≡ allowed_by failed slots.now next selection }
{
    let Some(ticket) = selection else {
        return false;
    };
    retry_refusal(failed, slot_at(slots, ticket.token), next).is_none()
}

#[tactic(auto, unfolding(crate::specs::Renewals::retry_due))]
pub fn retry_due(failed: bool, selection: Option<Ticket>, slots: &[u64], next: u64) -> Renewal
    ensures { result ≡ retry_due failed selection slots.now next }
{
    let old = selection.ok_or(Refusal::NoRetry)?;
    match retry_refusal(failed, slot_at(slots, old.token), next) {
        Some(refusal) => Err(refusal),
        None => Ok(Ticket {
            attempt: next,
            ..old
        }),
    }
}
