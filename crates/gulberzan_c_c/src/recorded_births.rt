// Register and land, recorded: decided, noted in the log, and only then stored.
ghost use Rattle.std.specs.Prelude.{◌≡◌};
ghost use Rattle.queue_words.specs.Exported.{exported};
ghost use Rattle.gulberzan_c.specs.Recorded.{recorded_on, register_recorded_on, land_recorded_on};

use queue_words::layout::{Answer, Words};

#[unsafe(no_mangle)]
pub extern "C" fn gulberzan_register_recorded(
    queue: &mut Words,
    number: u64,
    log: &mut [u64],
    used: &mut u64,
    answer: &mut Answer,
) -> u64
    ensures { recorded_on (exported result answer.new queue.new) log.new used.new ≡ register_recorded_on queue.old number log.old used.old }
{
    gulberzan_c::gulberzan_register_recorded(queue, number, log, used, answer)
}

#[unsafe(no_mangle)]
pub extern "C" fn gulberzan_land_recorded(
    queue: &mut Words,
    number: u64,
    log: &mut [u64],
    used: &mut u64,
    answer: &mut Answer,
) -> u64
    ensures { recorded_on (exported result answer.new queue.new) log.new used.new ≡ land_recorded_on queue.old number log.old used.old }
{
    gulberzan_c::gulberzan_land_recorded(queue, number, log, used, answer)
}
