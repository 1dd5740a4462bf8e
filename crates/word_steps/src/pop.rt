// Pop: what is due on sound words, and the stores that hand it out.
ghost use Rattle.std.specs.Prelude.{◌≡◌, true, ◌<◌};
ghost use Rattle.queue_decisions.specs.Slots.{slot_in};
ghost use Rattle.queue_decisions.specs.Pops.{sought, number_due};
ghost use Rattle.queue_steps.specs.Attempts.{due_in, issued_to};
ghost use Rattle.queue_words.specs.Words.{slots_in, selection_in, queue_of, words_of, is_sound};
ghost use Rattle.queue_words.specs.Exported.{exported, pop_on};

use queue_decisions::{Due, pop_due};
use queue_record::Ticket;
use queue_words::layout::*;
use queue_words::{select, selection_in, sought_in};

fn slot_in(w: &Words, token: u64) -> u64
    requires { token < 64 }
    ensures { result ≡ slot_in (slots_in w.now) token }
{
    w[SLOTS + token as usize]
}

// In sound words the token in question is one of the 64: its slot is read with no test.
fn number_in(w: &Words, selection: Option<Ticket>, found: Option<u64>) -> u64
    requires { (is_sound w.now ≡ true) × (selection ≡ selection_in w.now) × (found ≡ sought (selection_in w.now) (slots_in w.now)) }
    ensures { result ≡ number_due selection found (slots_in w.now) }
{
    if let Some(ready) = selection {
        return slot_in(w, ready.token);
    }
    let Some(token) = found else {
        return 0;
    };
    slot_in(w, token)
}

pub fn due_in(w: &Words) -> Due
    requires { is_sound w.now ≡ true }
    ensures { result ≡ due_in (queue_of w.now) }
{
    let issued = w[ISSUED] == 1;
    let failed = w[FAILED] == 1;
    let domain = w[DOMAIN];
    let next = w[NEXT];
    let selection = selection_in(w);
    let found = sought_in(w);
    let number = number_in(w, selection, found);
    pop_due(issued, failed, selection, found, number, domain, next)
}

// The ticket is selected, its slot empties, issued is set.
pub fn issue(queue: &mut Words, ticket: Ticket, next: u64)
    requires { (is_sound queue.old ≡ true) × (ticket.token < 64) }
    ensures { queue.new ≡ words_of (issued_to (queue_of queue.old) ticket next) }
{
    select(queue, ticket);
    let at = SLOTS + ticket.token as usize;
    queue[at] = 0;
    queue[NEXT] = next;
    queue[ISSUED] = 1;
}

// The call, by what is due.
pub fn pop_by(queue: &mut Words, due: Due, answer: &mut Answer) -> u64
    requires { (is_sound queue.old ≡ true) × (due ≡ due_in (queue_of queue.old)) }
    ensures { exported result answer.new queue.new ≡ pop_on queue.old }
{
    match due {
        Ok(None) => {
            *answer = [1, 0, 0, 0, 0];
            0
        }
        Err(refusal) => {
            *answer = [0, 0, 0, 0, 0];
            refusal.into()
        }
        Ok(Some((ticket, number, next))) => {
            issue(queue, ticket, next);
            *answer = [2, ticket.domain, ticket.token, ticket.attempt, number];
            0
        }
    }
}

pub fn pop_in(queue: &mut Words, answer: &mut Answer) -> u64
    requires { is_sound queue.old ≡ true }
    ensures { exported result answer.new queue.new ≡ pop_on queue.old }
{
    let due = due_in(queue);
    pop_by(queue, due, answer)
}
