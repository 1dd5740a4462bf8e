// Register and land: the calls that append an undo number.
ghost use Rattle.std.specs.Prelude.{◌≡◌};
ghost use Rattle.queue_words.specs.Exported.{exported, register_on, land_on};

use queue_words::layout::{Answer, Words};

#[unsafe(no_mangle)]
pub extern "C" fn gulberzan_register(queue: &mut Words, number: u64, answer: &mut Answer) -> u64
    ensures { exported result answer.new queue.new ≡ register_on queue.old number }
{
    gulberzan_c::gulberzan_register(queue, number, answer)
}

// As register, and moves the stage.
#[unsafe(no_mangle)]
pub extern "C" fn gulberzan_land(queue: &mut Words, number: u64, answer: &mut Answer) -> u64
    ensures { exported result answer.new queue.new ≡ land_on queue.old number }
{
    gulberzan_c::gulberzan_land(queue, number, answer)
}
