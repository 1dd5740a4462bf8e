// Register a whole list, plain and recorded: what is taken of it is decided at once, its rows are written, and only then is it stored.
ghost use Rattle.std.specs.Prelude.{◌≡◌};
ghost use Rattle.queue_words.specs.Exported.{exported, register_all_on};
ghost use Rattle.gulberzan_c.specs.Recorded.{recorded_on, register_all_recorded_on};

use queue_words::layout::{Answer, Words};

#[unsafe(no_mangle)]
pub extern "C" fn gulberzan_register_all(
    queue: &mut Words,
    numbers: &[u64],
    answer: &mut Answer,
) -> u64
    ensures { exported result answer.new queue.new ≡ register_all_on queue.old numbers.now }
{
    gulberzan_c::gulberzan_register_all(queue, numbers, answer)
}

#[unsafe(no_mangle)]
pub extern "C" fn gulberzan_register_all_recorded(
    queue: &mut Words,
    numbers: &[u64],
    log: &mut [u64],
    used: &mut u64,
    answer: &mut Answer,
) -> u64
    ensures { recorded_on (exported result answer.new queue.new) log.new used.new ≡ register_all_recorded_on queue.old numbers.now log.old used.old }
{
    gulberzan_c::gulberzan_register_all_recorded(queue, numbers, log, used, answer)
}
