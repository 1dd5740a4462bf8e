// Register and land: the calls that append an undo number.
ghost use Rattle.std.specs.Prelude.{◌≡◌};
ghost use Rattle.queue_words.specs.Exported.{exported, register_on, land_on};

use queue_record::Refusal;
use queue_words::layout::*;
use queue_words::sound;
use word_steps::{land_in, register_in};

#[unsafe(no_mangle)]
pub extern "C" fn gulberzan_register(queue: &mut Words, number: u64, answer: &mut Answer) -> u64
    ensures { exported result answer.new queue.new ≡ register_on queue.old number }
{
    if !sound(queue) {
        *answer = [0, number, 0, 0, 0];
        return Refusal::Broken.into();
    }
    register_in(queue, number, answer)
}

// As register, and moves the stage.
#[unsafe(no_mangle)]
pub extern "C" fn gulberzan_land(queue: &mut Words, number: u64, answer: &mut Answer) -> u64
    ensures { exported result answer.new queue.new ≡ land_on queue.old number }
{
    if !sound(queue) {
        *answer = [0, number, 0, 0, 0];
        return Refusal::Broken.into();
    }
    land_in(queue, number, answer)
}
