// Register and land: their stores, and the calls on sound words.
ghost use Rattle.std.specs.Prelude.{◌≡◌, true, ◌<◌};
ghost use Rattle.stage.specs.Phases.{phase_at};
ghost use Rattle.queue_decisions.specs.Births.{register_refusal, land_refusal};
ghost use Rattle.queue_births.specs.Births.{grown, landed_to};
ghost use Rattle.queue_words.specs.Layout.{at_count, at_phase};
ghost use Rattle.queue_words.specs.Words.{word, queue_of, words_of, is_sound};
ghost use Rattle.queue_words.specs.Exported.{exported, register_on, land_on};

use queue_decisions::{land_refusal, register_refusal};
use queue_record::Refusal;
use queue_words::layout::*;
use stage::{Event, Phase};

// One token more, whose slot holds the number.
pub fn grow(queue: &mut Words, number: u64)
    requires { (is_sound queue.old ≡ true) × (word queue.old at_count < 64) }
    ensures { queue.new ≡ words_of (grown (queue_of queue.old) number) }
{
    let count = queue[COUNT];
    let at = SLOTS + count as usize;
    queue[at] = number;
    queue[COUNT] = count + 1;
}

// The same, and the stage moves.
pub fn grow_landed(queue: &mut Words, number: u64)
    requires { (is_sound queue.old ≡ true) × (word queue.old at_count < 64) }
    ensures { queue.new ≡ words_of (landed_to (queue_of queue.old) number) }
{
    let phase = Phase::from(queue[PHASE]);
    grow(queue, number);
    queue[PHASE] = u64::from(stage::next_phase(phase, Event::Land));
}

// The call, by what refuses it.
pub fn register_by(
    queue: &mut Words,
    number: u64,
    refusal: Option<Refusal>,
    answer: &mut Answer,
) -> u64
    requires { (is_sound queue.old ≡ true) × (refusal ≡ register_refusal number (word queue.old at_count)) }
    ensures { exported result answer.new queue.new ≡ register_on queue.old number }
{
    if let Some(refusal) = refusal {
        *answer = [0, number, 0, 0, 0];
        return refusal.into();
    }
    let token = queue[COUNT];
    grow(queue, number);
    *answer = [1, token, 0, 0, 0];
    0
}

pub fn land_by(queue: &mut Words, number: u64, refusal: Option<Refusal>, answer: &mut Answer) -> u64
    requires { (is_sound queue.old ≡ true) × (refusal ≡ land_refusal number (phase_at (word queue.old at_phase)) (word queue.old at_count)) }
    ensures { exported result answer.new queue.new ≡ land_on queue.old number }
{
    if let Some(refusal) = refusal {
        *answer = [0, number, 0, 0, 0];
        return refusal.into();
    }
    let token = queue[COUNT];
    grow_landed(queue, number);
    *answer = [1, token, 0, 0, 0];
    0
}

pub fn register_in(queue: &mut Words, number: u64, answer: &mut Answer) -> u64
    requires { is_sound queue.old ≡ true }
    ensures { exported result answer.new queue.new ≡ register_on queue.old number }
{
    let refusal = register_refusal(number, queue[COUNT]);
    register_by(queue, number, refusal, answer)
}

pub fn land_in(queue: &mut Words, number: u64, answer: &mut Answer) -> u64
    requires { is_sound queue.old ≡ true }
    ensures { exported result answer.new queue.new ≡ land_on queue.old number }
{
    let refusal = land_refusal(number, Phase::from(queue[PHASE]), queue[COUNT]);
    land_by(queue, number, refusal, answer)
}
