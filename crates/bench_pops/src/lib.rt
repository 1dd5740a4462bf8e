// For the benchmark alone: pops by value, a call that C can't make, from 64 tokens of which one waits.
#![tactic(auto)]

ghost use Rattle.std.specs.Prelude.{◌<◌};

use cleanup_queue::{MOST_TOKENS, Queue, complete, pop, register, scope};
use queue_record::select;

const DOMAIN: u64 = 5;

fn settle_newest(q: Queue) -> Queue {
    let popped = pop(q);
    let Ok(Some((ticket, _))) = popped.answer else {
        return popped.queue;
    };
    complete(popped.queue, ticket, 0, 0).queue
}

// One token more, its number one above it; unless it is the one that waits, it is settled at once.
fn add_token(q: Queue, token: u64, place: u64) -> Queue
    requires { token < 64 }
{
    let queue = register(q, token + 1).queue;
    if token == place {
        return queue;
    }
    settle_newest(queue)
}

fn one_waits(place: u64) -> Queue {
    let mut queue = scope(DOMAIN, 0).queue;
    for token in 0..MOST_TOKENS {
        queue = add_token(queue, token, place);
    }
    queue
}

// As it was before the pop, so that the next one is the same again; only the attempt number goes on rising.
fn put_back(q: Queue, place: u64, number: u64) -> Queue
    requires { place < 64 }
{
    let mut queue = select(q, None);
    queue.slots[place as usize] = number;
    queue.issued = false;
    queue
}

// Each pop works on what the last one left, so none can be left out. Answers 0, or how many pops were left at a wrong one.
#[unsafe(no_mangle)]
pub extern "C" fn bench_pops_by_value(place: u64, times: u64) -> u64 {
    if MOST_TOKENS <= place {
        return times;
    }
    let mut queue = one_waits(place);
    for done in 0..times {
        let popped = pop(queue);
        match popped.answer {
            Ok(Some((_, number))) if number == place + 1 => {
                queue = put_back(popped.queue, place, number);
            }
            _ => return times - done,
        }
    }
    0
}
