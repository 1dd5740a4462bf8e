// Admit, end and cancel: the calls that move the stage and nothing else.
ghost use Rattle.std.specs.Prelude.{◌≡◌};
ghost use Rattle.queue_words.specs.Exported.{exported, admit_on, admit_without_on, end_on, cancel_on};

use queue_words::layout::{Answer, Words};

#[unsafe(no_mangle)]
pub extern "C" fn gulberzan_admit(queue: &mut Words, target: &[u64], answer: &mut Answer) -> u64
    ensures { exported result answer.new queue.new ≡ admit_on queue.old target.now }
{
    gulberzan_c::gulberzan_admit(queue, target, answer)
}

#[unsafe(no_mangle)]
pub extern "C" fn gulberzan_admit_without(queue: &mut Words, answer: &mut Answer) -> u64
    ensures { exported result answer.new queue.new ≡ admit_without_on queue.old }
{
    gulberzan_c::gulberzan_admit_without(queue, answer)
}

#[unsafe(no_mangle)]
pub extern "C" fn gulberzan_end(queue: &mut Words, answer: &mut Answer) -> u64
    ensures { exported result answer.new queue.new ≡ end_on queue.old }
{
    gulberzan_c::gulberzan_end(queue, answer)
}

#[unsafe(no_mangle)]
pub extern "C" fn gulberzan_cancel(queue: &mut Words, answer: &mut Answer) -> u64
    ensures { exported result answer.new queue.new ≡ cancel_on queue.old }
{
    gulberzan_c::gulberzan_cancel(queue, answer)
}
