// Register a whole list: its stores, and the call on sound words.
ghost use Rattle.std.specs.Prelude.{◌+◌, ◌≤◌, ◌≡◌, true, length};
ghost use Rattle.queue_births.specs.Sequences.{took_as, grown_all};
ghost use Rattle.queue_words.specs.Layout.{at_count};
ghost use Rattle.queue_words.specs.Words.{word, queue_of, words_of, is_sound};
ghost use Rattle.queue_words.specs.Exported.{exported, born_all_case, born_all_said, register_all_on};

use crate::births::grow;
use queue_decisions::register_taking;
use queue_record::{Refusal, result_number};
use queue_words::layout::*;

// A token more for each number.
fn grow_all(queue: &mut Words, numbers: &[u64])
    requires { (is_sound queue.old ≡ true) × (word queue.old at_count + length numbers.now ≤ 64) }
    ensures { queue.new ≡ words_of (grown_all (queue_of queue.old) numbers.now) }
{
    for number in numbers {
        grow(queue, *number);
    }
}

// The answer's case: 1 where nothing refused.
fn all_case(refusal: Option<Refusal>) -> u64
    ensures { result ≡ born_all_case refusal }
{
    match refusal {
        None => 1,
        Some(_) => 0,
    }
}

// The call, by the numbers that are taken and what refuses the next one.
pub fn register_all_by(
    queue: &mut Words,
    taken: &[u64],
    refusal: Option<Refusal>,
    answer: &mut Answer,
) -> u64
    requires { (is_sound queue.old ≡ true) × (word queue.old at_count + length taken.now ≤ 64) }
    ensures { exported result answer.new queue.new ≡ born_all_said (took_as (length taken.now) refusal) (words_of (grown_all (queue_of queue.old) taken.now)) }
{
    let count = taken.len() as u64;
    grow_all(queue, taken);
    *answer = [all_case(refusal), count, 0, 0, 0];
    result_number(refusal)
}

// The list is copied before the first store: it may lie inside the queue or the answer.
pub fn register_all_in(queue: &mut Words, numbers: &[u64], answer: &mut Answer) -> u64
    requires { is_sound queue.old ≡ true }
    ensures { exported result answer.new queue.new ≡ register_all_on queue.old numbers.now }
{
    let taking = register_taking(numbers, queue[COUNT]);
    let copy = taking.numbers;
    let taken = taking.taken as usize;
    register_all_by(queue, &copy[..taken], taking.refusal, answer)
}
