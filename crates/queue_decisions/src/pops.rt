// R42 to R45: what pop hands out: the ready ticket, or else a fresh one for the newest waiting token.
ghost use Rattle.std.specs.Prelude.{◌≡◌};
ghost use Rattle.queue_decisions.specs.Pops.{sought, number_due, is_marked, unless, fresh_due, ready_by, pop_due};

use crate::slots::{NO_MORE, slot_at};
use queue_record::{Refusal, Ticket, newest_place};

// The ticket that is due, its undo number, and the next attempt number once it is out.
pub type Due = Result<Option<(Ticket, u64, u64)>, Refusal>;

// The newest waiting token, looked for only where nothing is selected.
pub fn seek(selection: Option<Ticket>, slots: &[u64]) -> Option<u64>
    ensures { result ≡ sought selection slots.now }
{
    match selection {
        None => newest_place(slots),
        Some(_) => None,
    }
}

// By value; sound words are read at the slot itself, with no test of its place (word_steps).
pub fn number_due(selection: Option<Ticket>, found: Option<u64>, slots: &[u64]) -> u64
    ensures { result ≡ number_due selection found slots.now }
{
    if let Some(ready) = selection {
        return slot_at(slots, ready.token);
    }
    let Some(token) = found else {
        return 0;
    };
    slot_at(slots, token)
}

// A fresh ticket for the token that was found.
fn fresh_due(
    issued: bool,
    failed: bool,
    found: Option<u64>,
    number: u64,
    domain: u64,
    next: u64,
) -> Due
    ensures { result ≡ unless (is_marked issued failed) (fresh_due found number domain next) }
{
    let Some(token) = found else {
        return Ok(None);
    };
    if issued || failed {
        return Ok(None);
    }
    if number == 0 {
        return Err(Refusal::Hollow);
    }
    if NO_MORE <= next {
        return Err(Refusal::NoAttempt);
    }
    let ticket = Ticket {
        domain,
        token,
        attempt: next,
    };
    Ok(Some((ticket, number, next + 1)))
}

fn ready_due(issued: bool, failed: bool, ready: Ticket, number: u64, next: u64) -> Due
    ensures { result ≡ unless (is_marked issued failed) (ready_by ready number next) }
{
    if issued || failed {
        return Ok(None);
    }
    if number == 0 {
        return Err(Refusal::Hollow);
    }
    Ok(Some((ready, number, next)))
}

// By what is selected, as soon as it is known; the marks are asked in either branch, which costs less than joining the two first.
#[tactic(auto, unfolding(crate::specs::Pops::pop_due))]
pub fn pop_due(
    issued: bool,
    failed: bool,
    selection: Option<Ticket>,
    found: Option<u64>,
    number: u64,
    domain: u64,
    next: u64,
) -> Due
    ensures { result ≡ pop_due issued failed selection found number domain next }
{
    let Some(ready) = selection else {
        return fresh_due(issued, failed, found, number, domain, next);
    };
    ready_due(issued, failed, ready, number, next)
}
