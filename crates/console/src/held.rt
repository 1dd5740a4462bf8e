// What the console holds beside the log and the group record, and what a line leaves of it.
ghost use Rattle.std.specs.Prelude.{◌≡◌, ◌≤◌, length, take};

use crate::answers::Said;
use cleanup_groups::Groups;
use cleanup_queue::Queue;

#[derive(Clone, Copy)]
pub struct Held {
    pub queue: Queue,
    // The queue that the reader or a get gave last.
    pub seen: Queue,
    // The list, of which the first `listed` numbers count.
    pub list: [u64; 64],
    pub listed: usize,
    // How many words of the log are lent.
    pub lent: usize,
    pub used: u64,
    // The domain of tickets, and the number that a group's complete keeps.
    pub domain: u64,
    pub kept: u64,
}

pub fn start() -> Held {
    let blank = cleanup_queue::scope(0, 0).queue;
    Held {
        queue: blank,
        seen: blank,
        list: [0u64; 64],
        listed: 0,
        lent: 20480,
        used: 0,
        domain: 0,
        kept: 0,
    }
}

// The new record of base 0.
pub fn first_groups() -> Groups {
    cleanup_groups::new(0).groups
}

#[derive(Clone, Copy)]
pub struct Turned {
    pub said: Said,
    pub held: Held,
}

// What a call answered, and nothing changed.
pub fn unchanged(h: Held, said: Said) -> Turned {
    Turned { said, held: h }
}

pub fn no_call(h: Held) -> Turned {
    unchanged(h, Said::NoCall)
}

// What a call of the queue leaves.
#[derive(Clone, Copy)]
pub struct Left {
    pub said: Said,
    pub queue: Queue,
    pub used: u64,
}

pub fn leaves(q: Queue, used: u64, said: Said) -> Left {
    Left {
        said,
        queue: q,
        used,
    }
}

pub fn settle(h: Held, left: Left) -> Turned {
    let mut after = h;
    after.queue = left.queue;
    after.used = left.used;
    unchanged(after, left.said)
}

pub fn keep_seen(h: Held, q: Queue, said: Said) -> Turned {
    let mut after = h;
    after.seen = q;
    unchanged(after, said)
}

// As many as asked for, or as there are.
pub fn first_of(asked: usize, words: &[u64]) -> usize
    ensures within { result ≤ length words.now }
    ensures prefix_len { result ≡ length (take result words.now) }
{
    asked.min(words.len())
}
