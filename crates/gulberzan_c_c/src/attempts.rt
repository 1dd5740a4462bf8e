// Pop, complete and retry: an undo number goes out, is answered, and may go out again.
ghost use Rattle.std.specs.Prelude.{◌≡◌};
ghost use Rattle.queue_words.specs.Exported.{exported, pop_on, complete_on, retry_on};

use queue_words::layout::{Answer, TicketWords, Words};

#[unsafe(no_mangle)]
pub extern "C" fn gulberzan_pop(queue: &mut Words, answer: &mut Answer) -> u64
    ensures { exported result answer.new queue.new ≡ pop_on queue.old }
{
    gulberzan_c::gulberzan_pop(queue, answer)
}

#[unsafe(no_mangle)]
pub extern "C" fn gulberzan_complete(
    queue: &mut Words,
    ticket: &TicketWords,
    outcome: u64,
    kept: u64,
    answer: &mut Answer,
) -> u64
    ensures { exported result answer.new queue.new ≡ complete_on queue.old ticket.now outcome kept }
{
    gulberzan_c::gulberzan_complete(queue, ticket, outcome, kept, answer)
}

#[unsafe(no_mangle)]
pub extern "C" fn gulberzan_retry(queue: &mut Words, answer: &mut Answer) -> u64
    ensures { exported result answer.new queue.new ≡ retry_on queue.old }
{
    gulberzan_c::gulberzan_retry(queue, answer)
}
