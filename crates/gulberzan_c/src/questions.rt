// The calls that ask and change nothing. Each is a name of the C interface, and asks for itself whether its words are sound.
ghost use Rattle.std.specs.Prelude.{◌≡◌};
ghost use Rattle.queue_words.specs.Words.{is_sound};
ghost use Rattle.queue_words.specs.Exported.{exported, is_empty_on, is_issued_on, is_pending_on, is_settled_on, is_cancelled_on, has_failed_on, can_retry_on, can_finish_on, domain_on};
ghost use Rattle.queue_words.specs.InPlace.{sound_number};

use queue_record::Refusal;
use queue_words::layout::*;
use queue_words::{finish_allowed, nothing_left, retry_allowed, sound, yes_word};
use stage::Phase;

#[unsafe(no_mangle)]
pub extern "C" fn gulberzan_is_empty(queue: &Words, answer: &mut Answer) -> u64
    ensures { exported result answer.new queue.now ≡ is_empty_on queue.now }
{
    if !sound(queue) {
        *answer = [0, 0, 0, 0, 0];
        return Refusal::Broken.into();
    }
    *answer = [yes_word(nothing_left(queue)), 0, 0, 0, 0];
    0
}

#[unsafe(no_mangle)]
pub extern "C" fn gulberzan_is_issued(queue: &Words, answer: &mut Answer) -> u64
    ensures { exported result answer.new queue.now ≡ is_issued_on queue.now }
{
    if !sound(queue) {
        *answer = [0, 0, 0, 0, 0];
        return Refusal::Broken.into();
    }
    *answer = [yes_word(queue[ISSUED] == 1), 0, 0, 0, 0];
    0
}

#[unsafe(no_mangle)]
pub extern "C" fn gulberzan_is_pending(queue: &Words, answer: &mut Answer) -> u64
    ensures { exported result answer.new queue.now ≡ is_pending_on queue.now }
{
    if !sound(queue) {
        *answer = [0, 0, 0, 0, 0];
        return Refusal::Broken.into();
    }
    *answer = [yes_word(Phase::from(queue[PHASE]).is_pending()), 0, 0, 0, 0];
    0
}

#[unsafe(no_mangle)]
pub extern "C" fn gulberzan_is_settled(queue: &Words, answer: &mut Answer) -> u64
    ensures { exported result answer.new queue.now ≡ is_settled_on queue.now }
{
    if !sound(queue) {
        *answer = [0, 0, 0, 0, 0];
        return Refusal::Broken.into();
    }
    *answer = [yes_word(Phase::from(queue[PHASE]).is_settled()), 0, 0, 0, 0];
    0
}

#[unsafe(no_mangle)]
pub extern "C" fn gulberzan_is_cancelled(queue: &Words, answer: &mut Answer) -> u64
    ensures { exported result answer.new queue.now ≡ is_cancelled_on queue.now }
{
    if !sound(queue) {
        *answer = [0, 0, 0, 0, 0];
        return Refusal::Broken.into();
    }
    *answer = [
        yes_word(Phase::from(queue[PHASE]).is_cancelled()),
        0,
        0,
        0,
        0,
    ];
    0
}

#[unsafe(no_mangle)]
pub extern "C" fn gulberzan_has_failed(queue: &Words, answer: &mut Answer) -> u64
    ensures { exported result answer.new queue.now ≡ has_failed_on queue.now }
{
    if !sound(queue) {
        *answer = [0, 0, 0, 0, 0];
        return Refusal::Broken.into();
    }
    *answer = [yes_word(queue[FAILED] == 1), 0, 0, 0, 0];
    0
}

#[unsafe(no_mangle)]
pub extern "C" fn gulberzan_can_retry(queue: &Words, answer: &mut Answer) -> u64
    ensures { exported result answer.new queue.now ≡ can_retry_on queue.now }
{
    if !sound(queue) {
        *answer = [0, 0, 0, 0, 0];
        return Refusal::Broken.into();
    }
    *answer = [yes_word(retry_allowed(queue)), 0, 0, 0, 0];
    0
}

#[unsafe(no_mangle)]
pub extern "C" fn gulberzan_can_finish(queue: &Words, target: &[u64], answer: &mut Answer) -> u64
    ensures { exported result answer.new queue.now ≡ can_finish_on queue.now target.now }
{
    if !sound(queue) {
        *answer = [0, 0, 0, 0, 0];
        return Refusal::Broken.into();
    }
    *answer = [yes_word(finish_allowed(queue, target)), 0, 0, 0, 0];
    0
}

#[unsafe(no_mangle)]
pub extern "C" fn gulberzan_domain(queue: &Words, answer: &mut Answer) -> u64
    ensures { exported result answer.new queue.now ≡ domain_on queue.now }
{
    if !sound(queue) {
        *answer = [0, 0, 0, 0, 0];
        return Refusal::Broken.into();
    }
    *answer = [1, queue[DOMAIN], 0, 0, 0];
    0
}

// 1 if the words encode a well-formed record, else 0.
#[unsafe(no_mangle)]
pub extern "C" fn gulberzan_well_formed(queue: &Words) -> u64
    ensures { result ≡ sound_number (is_sound queue.now) }
{
    if sound(queue) {
        return 1;
    }
    0
}
