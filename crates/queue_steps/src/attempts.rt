// R41 to R55: pop, complete and retry: an undo number goes out, is answered, and may go out again.
ghost use Rattle.std.specs.Prelude.{◌<◌, ◌≡◌};
ghost use Rattle.queue_steps.specs.Attempts.{refused_pop, popped_nothing, handed, popped, answered, refused_complete, completed, refused_retry, renewed_to, retried};

use queue_decisions::{complete_refusal, number_due, pop_due, retry_due, seek};
use queue_record::{Answered, Queue, Refusal, Ticket, select, well_formed};

pub type Popped = Result<Option<(Ticket, u64)>, Refusal>;

fn pop_refused(q: Queue, refusal: Refusal) -> Answered<Popped>
    ensures { result ≡ refused_pop q refusal }
{
    Answered {
        answer: Err(refusal),
        queue: q,
    }
}

fn pop_nothing(q: Queue) -> Answered<Popped>
    ensures { result ≡ popped_nothing q }
{
    Answered {
        answer: Ok(None),
        queue: q,
    }
}

// The ticket with its number, and the queue that waits for its answer.
fn hand_out(q: Queue, ticket: Ticket, number: u64, next: u64) -> Answered<Popped>
    requires { ticket.token < 64 }
    ensures { result ≡ handed q ticket number next }
{
    let mut after = select(q, Some(ticket));
    after.slots[ticket.token as usize] = 0;
    after.next = next;
    after.issued = true;
    Answered {
        answer: Ok(Some((ticket, number))),
        queue: after,
    }
}

pub fn pop(q: Queue) -> Answered<Popped>
    ensures { result ≡ popped q }
{
    if !well_formed(q) {
        return pop_refused(q, Refusal::Broken);
    }
    // A loan of the record's own slots would have the whole record copied twice.
    let slots = q.slots;
    let found = seek(q.selection, &slots[..q.count as usize]);
    let number = number_due(q.selection, found, &slots);
    match pop_due(
        q.issued,
        q.failed,
        q.selection,
        found,
        number,
        q.domain,
        q.next,
    ) {
        Ok(None) => pop_nothing(q),
        Err(refusal) => pop_refused(q, refusal),
        Ok(Some((ticket, number, next))) => hand_out(q, ticket, number, next),
    }
}

// Taken in; or what refused it, and the kept number given.
pub type Completed = Result<(), (Refusal, u64)>;

fn complete_refused(q: Queue, refusal: Refusal, kept: u64) -> Answered<Completed>
    ensures { result ≡ refused_complete q refusal kept }
{
    Answered {
        answer: Err((refusal, kept)),
        queue: q,
    }
}

// The queue once the answer to a token is taken in.
fn answer(q: Queue, token: u64, outcome: u64, kept: u64) -> Queue
    requires { token < 64 }
    ensures { result ≡ answered q token outcome kept }
{
    let mut after = q;
    after.slots[token as usize] = kept;
    after.issued = false;
    if outcome == 0 {
        return select(after, None);
    }
    after.failed = true;
    after
}

pub fn complete(q: Queue, ticket: Ticket, outcome: u64, kept: u64) -> Answered<Completed>
    ensures { result ≡ completed q ticket outcome kept }
{
    if !well_formed(q) {
        return complete_refused(q, Refusal::Broken, kept);
    }
    match complete_refusal(q.issued, q.selection, ticket, outcome, kept) {
        Some(refusal) => complete_refused(q, refusal, kept),
        None => Answered {
            answer: Ok(()),
            queue: answer(q, ticket.token, outcome, kept),
        },
    }
}

pub type Retried = Result<Ticket, Refusal>;

fn retry_refused(q: Queue, refusal: Refusal) -> Answered<Retried>
    ensures { result ≡ refused_retry q refusal }
{
    Answered {
        answer: Err(refusal),
        queue: q,
    }
}

// The renewed ticket is selected, next rises past it, failed clears.
fn renew(q: Queue, ticket: Ticket) -> Queue
    requires { ticket.attempt < 18446744073709551615 }
    ensures { result ≡ renewed_to q ticket }
{
    let mut after = select(q, Some(ticket));
    after.next = ticket.attempt + 1;
    after.failed = false;
    after
}

pub fn retry(q: Queue) -> Answered<Retried>
    ensures { result ≡ retried q }
{
    if !well_formed(q) {
        return retry_refused(q, Refusal::Broken);
    }
    match retry_due(q.failed, q.selection, &q.slots, q.next) {
        Err(refusal) => retry_refused(q, refusal),
        Ok(ticket) => Answered {
            answer: Ok(ticket),
            queue: renew(q, ticket),
        },
    }
}
