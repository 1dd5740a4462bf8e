// The plain calls and the lent ones: openings, steps, stages, questions of the held queue. Calls go by their numbers here and in the
// files beside: these are the program's input, a line a call.
use crate::answers::Said;
use crate::held::{Left, leaves};
use crate::script::Call;
use crate::{answers, asked};
use cleanup_queue::{Queue, Ticket};

fn open(used: u64, call: Call, list: &[u64]) -> Left {
    let opened = if call.number == 0 {
        cleanup_queue::scope(call.a, call.b)
    } else {
        cleanup_queue::iterator(call.a, call.b, list)
    };
    leaves(opened.queue, used, answers::passed(opened.answer))
}

fn birth(q: Queue, used: u64, call: Call) -> Left {
    let born = if call.number == 10 {
        cleanup_queue::register(q, call.a)
    } else {
        cleanup_queue::land(q, call.a)
    };
    leaves(born.queue, used, answers::numbered(born.answer))
}

fn births(q: Queue, used: u64, list: &[u64]) -> Left {
    let born = cleanup_queue::register_all(q, list);
    leaves(born.queue, used, answers::all_born(born.answer))
}

// Pop by value, or on the queue lent.
fn pop(q: Queue, used: u64, call: Call) -> Left {
    let popped = if call.number == 12 {
        cleanup_queue::pop(q)
    } else {
        lent_steps::pop_via(q)
    };
    leaves(popped.queue, used, answers::popped(popped.answer))
}

// Complete by value, or on the queue lent; the ticket's domain is the held one.
fn complete(q: Queue, used: u64, domain: u64, call: Call) -> Left {
    let ticket = Ticket {
        domain,
        token: call.a,
        attempt: call.b,
    };
    let completed = if call.number == 13 {
        cleanup_queue::complete(q, ticket, call.c, call.d)
    } else {
        lent_steps::complete_via(q, ticket, call.c, call.d)
    };
    leaves(completed.queue, used, answers::completed(completed.answer))
}

fn retry(q: Queue, used: u64) -> Left {
    let retried = cleanup_queue::retry(q);
    leaves(retried.queue, used, answers::retried(retried.answer))
}

fn stage(q: Queue, used: u64, call: Call, list: &[u64]) -> Left {
    let staged = match call.number {
        15 => cleanup_queue::admit(q, list),
        16 => cleanup_queue::admit_without(q),
        _ => cleanup_queue::end(q),
    };
    leaves(staged.queue, used, answers::told(staged.answer))
}

fn cancel(q: Queue, used: u64) -> Left {
    let cancelled = cleanup_queue::cancel(q);
    leaves(cancelled.queue, used, answers::passed(cancelled.answer))
}

// The used count is the one that stays.
pub fn step(q: Queue, used: u64, domain: u64, call: Call, list: &[u64]) -> Left {
    match call.number {
        0 | 1 => open(used, call, list),
        10 | 11 => birth(q, used, call),
        12 | 42 => pop(q, used, call),
        13 | 43 => complete(q, used, domain, call),
        14 => retry(q, used),
        15 | 16 | 17 => stage(q, used, call, list),
        18 => cancel(q, used),
        19 => births(q, used, list),
        _ => leaves(q, used, Said::NoCall),
    }
}

pub fn question(q: Queue, call: Call, list: &[u64]) -> Said {
    match call.number {
        28 => answers::counted(cleanup_queue::domain(q)),
        number => answers::told(asked::of_queue(q, number, list)),
    }
}
