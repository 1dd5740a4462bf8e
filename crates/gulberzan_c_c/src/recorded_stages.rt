// Admit, end and cancel, recorded: decided, noted in the log, and only then stored.
ghost use Rattle.std.specs.Prelude.{◌≡◌};
ghost use Rattle.queue_words.specs.Exported.{exported};
ghost use Rattle.gulberzan_c.specs.Recorded.{recorded_on, admit_recorded_on, admit_without_recorded_on, end_recorded_on, cancel_recorded_on};

use queue_words::layout::{Answer, Words};

#[unsafe(no_mangle)]
pub extern "C" fn gulberzan_admit_recorded(
    queue: &mut Words,
    target: &[u64],
    log: &mut [u64],
    used: &mut u64,
    answer: &mut Answer,
) -> u64
    ensures { recorded_on (exported result answer.new queue.new) log.new used.new ≡ admit_recorded_on queue.old target.now log.old used.old }
{
    gulberzan_c::gulberzan_admit_recorded(queue, target, log, used, answer)
}

#[unsafe(no_mangle)]
pub extern "C" fn gulberzan_admit_without_recorded(
    queue: &mut Words,
    log: &mut [u64],
    used: &mut u64,
    answer: &mut Answer,
) -> u64
    ensures { recorded_on (exported result answer.new queue.new) log.new used.new ≡ admit_without_recorded_on queue.old log.old used.old }
{
    gulberzan_c::gulberzan_admit_without_recorded(queue, log, used, answer)
}

#[unsafe(no_mangle)]
pub extern "C" fn gulberzan_end_recorded(
    queue: &mut Words,
    log: &mut [u64],
    used: &mut u64,
    answer: &mut Answer,
) -> u64
    ensures { recorded_on (exported result answer.new queue.new) log.new used.new ≡ end_recorded_on queue.old log.old used.old }
{
    gulberzan_c::gulberzan_end_recorded(queue, log, used, answer)
}

#[unsafe(no_mangle)]
pub extern "C" fn gulberzan_cancel_recorded(
    queue: &mut Words,
    log: &mut [u64],
    used: &mut u64,
    answer: &mut Answer,
) -> u64
    ensures { recorded_on (exported result answer.new queue.new) log.new used.new ≡ cancel_recorded_on queue.old log.old used.old }
{
    gulberzan_c::gulberzan_cancel_recorded(queue, log, used, answer)
}
