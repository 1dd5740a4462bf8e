// Complete: the stores that take an answer in, and the call on sound words.
ghost use Rattle.std.specs.Prelude.{◌≡◌, true, ◌<◌};
ghost use Rattle.queue_steps.specs.Attempts.{answered, refusal_in, completed};
ghost use Rattle.queue_words.specs.Words.{queue_of, words_of, is_sound};
ghost use Rattle.queue_words.specs.Exported.{exported, on_record, complete_exported, complete_on};

use queue_decisions::complete_refusal;
use queue_record::{Refusal, Ticket};
use queue_words::layout::*;
use queue_words::{deselect, selection_in, ticket_at};

// R50 to R52: the slot takes the kept number, issued clears; Done frees the selection, Failed marks it.
pub fn settle(queue: &mut Words, token: u64, outcome: u64, kept: u64)
    requires { (is_sound queue.old ≡ true) × (token < 64) }
    ensures { queue.new ≡ words_of (answered (queue_of queue.old) token outcome kept) }
{
    let at = SLOTS + token as usize;
    queue[at] = kept;
    queue[ISSUED] = 0;
    if outcome == 0 {
        deselect(queue);
        return;
    }
    queue[FAILED] = 1;
}

// What refuses an answer on the words.
pub fn refusal_in(w: &Words, ticket: Ticket, outcome: u64, kept: u64) -> Option<Refusal>
    ensures { result ≡ refusal_in (queue_of w.now) ticket outcome kept }
{
    complete_refusal(w[ISSUED] == 1, selection_in(w), ticket, outcome, kept)
}

// The call, by what refuses it.
pub fn complete_by(
    queue: &mut Words,
    ticket: Ticket,
    outcome: u64,
    kept: u64,
    refusal: Option<Refusal>,
    answer: &mut Answer,
) -> u64
    requires { (is_sound queue.old ≡ true) × (refusal ≡ refusal_in (queue_of queue.old) ticket outcome kept) }
    ensures { exported result answer.new queue.new ≡ on_record queue.old kept (complete_exported (completed (queue_of queue.old) ticket outcome kept)) }
{
    if let Some(refusal) = refusal {
        *answer = [0, kept, 0, 0, 0];
        return refusal.into();
    }
    settle(queue, ticket.token, outcome, kept);
    *answer = [1, 0, 0, 0, 0];
    0
}

pub fn complete_in(
    queue: &mut Words,
    ticket: &TicketWords,
    outcome: u64,
    kept: u64,
    answer: &mut Answer,
) -> u64
    requires { is_sound queue.old ≡ true }
    ensures { exported result answer.new queue.new ≡ complete_on queue.old ticket.now outcome kept }
{
    let given = ticket_at(ticket);
    let refusal = refusal_in(queue, given, outcome, kept);
    complete_by(queue, given, outcome, kept, refusal, answer)
}
