// Admit, end and cancel: the calls that move the stage and nothing else.
ghost use Rattle.std.specs.Prelude.{◌≡◌, true};
ghost use Rattle.queue_words.specs.Words.{is_sound};
ghost use Rattle.queue_words.specs.Exported.{exported, admit_by, admit_on, admit_without_on, end_on, cancel_on};

use queue_record::Refusal;
use queue_stages::after_admit;
use queue_words::layout::*;
use queue_words::{move_stage, sound, target_matches};
use stage::{Event, Phase};

// On sound words, by whether the target matches; yes if the stage is pending afterwards.
pub(crate) fn admit_in(queue: &mut Words, matched: bool, answer: &mut Answer) -> u64
    requires { is_sound queue.old ≡ true }
    ensures { exported result answer.new queue.new ≡ admit_by queue.old matched }
{
    let phase = after_admit(Phase::from(queue[PHASE]), matched);
    move_stage(queue, phase.is_pending(), phase, answer)
}

// Yes if the stage was pending before.
pub(crate) fn end_in(queue: &mut Words, answer: &mut Answer) -> u64
    requires { is_sound queue.old ≡ true }
    ensures { exported result answer.new queue.new ≡ end_on queue.old }
{
    let was = Phase::from(queue[PHASE]);
    let phase = stage::next_phase(was, Event::End);
    move_stage(queue, was.is_pending(), phase, answer)
}

pub(crate) fn cancel_in(queue: &mut Words, answer: &mut Answer) -> u64
    requires { is_sound queue.old ≡ true }
    ensures { exported result answer.new queue.new ≡ cancel_on queue.old }
{
    let was = Phase::from(queue[PHASE]);
    let phase = stage::next_phase(was, Event::Cancel);
    move_stage(queue, false, phase, answer)
}

#[unsafe(no_mangle)]
pub extern "C" fn gulberzan_admit(queue: &mut Words, target: &[u64], answer: &mut Answer) -> u64
    ensures { exported result answer.new queue.new ≡ admit_on queue.old target.now }
{
    if !sound(queue) {
        *answer = [0, 0, 0, 0, 0];
        return Refusal::Broken.into();
    }
    let matched = target_matches(queue, target);
    admit_in(queue, matched, answer)
}

#[unsafe(no_mangle)]
pub extern "C" fn gulberzan_admit_without(queue: &mut Words, answer: &mut Answer) -> u64
    ensures { exported result answer.new queue.new ≡ admit_without_on queue.old }
{
    if !sound(queue) {
        *answer = [0, 0, 0, 0, 0];
        return Refusal::Broken.into();
    }
    admit_in(queue, false, answer)
}

#[unsafe(no_mangle)]
pub extern "C" fn gulberzan_end(queue: &mut Words, answer: &mut Answer) -> u64
    ensures { exported result answer.new queue.new ≡ end_on queue.old }
{
    if !sound(queue) {
        *answer = [0, 0, 0, 0, 0];
        return Refusal::Broken.into();
    }
    end_in(queue, answer)
}

#[unsafe(no_mangle)]
pub extern "C" fn gulberzan_cancel(queue: &mut Words, answer: &mut Answer) -> u64
    ensures { exported result answer.new queue.new ≡ cancel_on queue.old }
{
    if !sound(queue) {
        *answer = [0, 0, 0, 0, 0];
        return Refusal::Broken.into();
    }
    cancel_in(queue, answer)
}
