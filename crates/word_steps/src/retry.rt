// Retry: the ticket that is due again on the words, and its stores.
ghost use Rattle.std.specs.Prelude.{◌≡◌, true, ◌<◌};
ghost use Rattle.queue_steps.specs.Attempts.{due_again_in, renewed_to};
ghost use Rattle.queue_words.specs.Words.{queue_of, words_of, is_sound};
ghost use Rattle.queue_words.specs.Exported.{exported, retry_on};

use queue_decisions::{Renewal, retry_due};
use queue_record::Ticket;
use queue_words::layout::*;
use queue_words::{select, selection_in};

pub fn again_in(w: &Words) -> Renewal
    ensures { result ≡ due_again_in (queue_of w.now) }
{
    let selection = selection_in(w);
    let words = &w[..];
    retry_due(w[FAILED] == 1, selection, &words[SLOTS..COUNT], w[NEXT])
}

// The renewed ticket is selected, next rises past it, failed clears.
pub fn renew(queue: &mut Words, ticket: Ticket)
    requires { (is_sound queue.old ≡ true) × (ticket.attempt < 18446744073709551615) }
    ensures { queue.new ≡ words_of (renewed_to (queue_of queue.old) ticket) }
{
    select(queue, ticket);
    queue[NEXT] = ticket.attempt + 1;
    queue[FAILED] = 0;
}

// The call, by the ticket that is due again.
pub fn retry_by(queue: &mut Words, again: Renewal, answer: &mut Answer) -> u64
    requires { (is_sound queue.old ≡ true) × (again ≡ due_again_in (queue_of queue.old)) }
    ensures { exported result answer.new queue.new ≡ retry_on queue.old }
{
    match again {
        Err(refusal) => {
            *answer = [0, 0, 0, 0, 0];
            refusal.into()
        }
        Ok(ticket) => {
            renew(queue, ticket);
            *answer = [1, ticket.domain, ticket.token, ticket.attempt, 0];
            0
        }
    }
}

pub fn retry_in(queue: &mut Words, answer: &mut Answer) -> u64
    requires { is_sound queue.old ≡ true }
    ensures { exported result answer.new queue.new ≡ retry_on queue.old }
{
    let again = again_in(queue);
    retry_by(queue, again, answer)
}
