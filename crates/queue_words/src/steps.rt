// The stores that calls share: the selection, the stage, the openings.
ghost use Rattle.std.specs.Prelude.{◌≡◌, true, ◌+◌, ◌≤◌, length, Some, None};
ghost use Rattle.queue_record.specs.Record.{with_phase};
ghost use Rattle.queue_record.specs.Openings.{scope_of, blank};
ghost use Rattle.queue_words.specs.Layout.{at_bindings, word_count};
ghost use Rattle.queue_words.specs.Words.{queue_of, words_of, is_sound};
ghost use Rattle.queue_words.specs.Exported.{exported};
ghost use Rattle.queue_words.specs.InPlace.{set_selection, yes_word, said_in, iterator_in, run_put};

use crate::layout::*;
use queue_record::Ticket;
use stage::Phase;

pub fn select(queue: &mut Words, ticket: Ticket)
    ensures { queue.new ≡ set_selection queue.old (Some ticket) }
{
    queue[SELECTED] = 1;
    queue[TICKET_DOMAIN] = ticket.domain;
    queue[TICKET_TOKEN] = ticket.token;
    queue[TICKET_ATTEMPT] = ticket.attempt;
}

// Four times 0: nothing is selected.
pub fn deselect(queue: &mut Words)
    ensures { queue.new ≡ set_selection queue.old None }
{
    queue[SELECTED] = 0;
    queue[TICKET_DOMAIN] = 0;
    queue[TICKET_TOKEN] = 0;
    queue[TICKET_ATTEMPT] = 0;
}

pub fn yes_word(told: bool) -> u64
    ensures { result ≡ yes_word told }
{
    if told {
        return 2;
    }
    1
}

pub fn put_phase(queue: &mut Words, phase: Phase)
    requires { is_sound queue.old ≡ true }
    ensures { queue.new ≡ words_of (with_phase (queue_of queue.old) phase) }
{
    queue[PHASE] = u64::from(phase);
}

// The same, and yes or no as the answer.
pub fn move_stage(queue: &mut Words, told: bool, phase: Phase, answer: &mut Answer) -> u64
    requires { is_sound queue.old ≡ true }
    ensures { exported result answer.new queue.new ≡ said_in (words_of (with_phase (queue_of queue.old) phase)) told }
{
    put_phase(queue, phase);
    *answer = [yes_word(told), 0, 0, 0, 0];
    0
}

// A scope's words: Ended, and all else 0.
pub fn put_scope(queue: &mut Words, domain: u64, first: u64)
    ensures { queue.new ≡ words_of (scope_of domain first) }
{
    *queue = [0u64; WORDS];
    queue[DOMAIN] = domain;
    queue[NEXT] = first;
    queue[PHASE] = 2;
}

// What a refused opening leaves.
pub fn put_blank(queue: &mut Words)
    ensures { queue.new ≡ words_of blank }
{
    put_scope(queue, 0, 0);
}

// The values one behind the other from a place on.
pub fn put_run(queue: &mut Words, from: usize, values: &[u64])
    requires { (length queue.old ≡ word_count) × (from + length values.now ≤ word_count) }
    ensures { queue.new ≡ run_put queue.old from values.now }
{
    queue[from..from + values.len()].copy_from_slice(values);
}

// An iterator's words: Idle is 0. The bindings come by value, so that a list inside the queue was read before it is written over.
pub fn put_iterator(queue: &mut Words, domain: u64, first: u64, places: BindingWords, bound: u64)
    ensures { queue.new ≡ run_put (iterator_in domain first bound) at_bindings places }
{
    *queue = [0u64; WORDS];
    queue[KIND] = 1;
    queue[DOMAIN] = domain;
    queue[NEXT] = first;
    queue[BOUND] = bound;
    put_run(queue, BINDINGS, &places[..]);
}
