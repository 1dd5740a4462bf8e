// Pop, complete and retry: an undo number goes out, is answered, and may go out again.
ghost use Rattle.std.specs.Prelude.{◌≡◌};
ghost use Rattle.queue_words.specs.Exported.{exported, pop_on, complete_on, retry_on};

use queue_record::Refusal;
use queue_words::layout::*;
use queue_words::sound;
use word_steps::{complete_in, pop_in, retry_in};

#[unsafe(no_mangle)]
pub extern "C" fn gulberzan_pop(queue: &mut Words, answer: &mut Answer) -> u64
    ensures { exported result answer.new queue.new ≡ pop_on queue.old }
{
    if !sound(queue) {
        *answer = [0, 0, 0, 0, 0];
        return Refusal::Broken.into();
    }
    pop_in(queue, answer)
}

#[unsafe(no_mangle)]
pub extern "C" fn gulberzan_complete(
    queue: &mut Words,
    ticket: &TicketWords,
    outcome: u64,
    kept: u64,
    answer: &mut Answer,
) -> u64
    ensures { exported result answer.new queue.new ≡ complete_on queue.old ticket.now outcome kept }
{
    if !sound(queue) {
        *answer = [0, kept, 0, 0, 0];
        return Refusal::Broken.into();
    }
    complete_in(queue, ticket, outcome, kept, answer)
}

#[unsafe(no_mangle)]
pub extern "C" fn gulberzan_retry(queue: &mut Words, answer: &mut Answer) -> u64
    ensures { exported result answer.new queue.new ≡ retry_on queue.old }
{
    if !sound(queue) {
        *answer = [0, 0, 0, 0, 0];
        return Refusal::Broken.into();
    }
    retry_in(queue, answer)
}
