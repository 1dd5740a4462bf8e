// Pop, complete and retry, recorded: decided, noted in the log, and only then stored.
ghost use Rattle.std.specs.Prelude.{◌≡◌};
ghost use Rattle.queue_words.specs.Exported.{exported};
ghost use Rattle.gulberzan_c.specs.Recorded.{recorded_on, pop_recorded_on, complete_recorded_on, retry_recorded_on};

use queue_words::layout::{Answer, TicketWords, Words};

#[unsafe(no_mangle)]
pub extern "C" fn gulberzan_pop_recorded(
    queue: &mut Words,
    log: &mut [u64],
    used: &mut u64,
    answer: &mut Answer,
) -> u64
    ensures { recorded_on (exported result answer.new queue.new) log.new used.new ≡ pop_recorded_on queue.old log.old used.old }
{
    gulberzan_c::gulberzan_pop_recorded(queue, log, used, answer)
}

#[unsafe(no_mangle)]
pub extern "C" fn gulberzan_complete_recorded(
    queue: &mut Words,
    ticket: &TicketWords,
    outcome: u64,
    kept: u64,
    log: &mut [u64],
    used: &mut u64,
    answer: &mut Answer,
) -> u64
    ensures { recorded_on (exported result answer.new queue.new) log.new used.new ≡ complete_recorded_on queue.old ticket.now outcome kept log.old used.old }
{
    gulberzan_c::gulberzan_complete_recorded(queue, ticket, outcome, kept, log, used, answer)
}

#[unsafe(no_mangle)]
pub extern "C" fn gulberzan_retry_recorded(
    queue: &mut Words,
    log: &mut [u64],
    used: &mut u64,
    answer: &mut Answer,
) -> u64
    ensures { recorded_on (exported result answer.new queue.new) log.new used.new ≡ retry_recorded_on queue.old log.old used.old }
{
    gulberzan_c::gulberzan_retry_recorded(queue, log, used, answer)
}
