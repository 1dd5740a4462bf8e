// The recorded calls and the reader, on the lent words of the log.
use crate::answers;
use crate::answers::Said;
use crate::held::{Held, Left, Turned, keep_seen, leaves, no_call};
use crate::script::Call;
use cleanup_log::{Heading, Recorded};
use cleanup_queue::{Kind, Queue, Registered, Ticket, Told};

fn born(a: Recorded<Registered>) -> Left {
    leaves(a.queue, a.used, answers::numbered(a.answer))
}

fn birth(q: Queue, used: u64, call: Call, log: &mut [u64]) -> Left {
    if call.number == 30 {
        return born(cleanup_log::register_recorded(q, call.a, log, used));
    }
    born(cleanup_log::land_recorded(q, call.a, log, used))
}

fn births(q: Queue, used: u64, list: &[u64], log: &mut [u64]) -> Left {
    let born = cleanup_log::register_all_recorded(q, list, log, used);
    leaves(born.queue, born.used, answers::all_born(born.answer))
}

fn pop(q: Queue, used: u64, log: &mut [u64]) -> Left {
    let popped = cleanup_log::pop_recorded(q, log, used);
    leaves(popped.queue, popped.used, answers::popped(popped.answer))
}

fn complete(q: Queue, used: u64, domain: u64, call: Call, log: &mut [u64]) -> Left {
    let ticket = Ticket {
        domain,
        token: call.a,
        attempt: call.b,
    };
    let completed = cleanup_log::complete_recorded(q, ticket, call.c, call.d, log, used);
    leaves(
        completed.queue,
        completed.used,
        answers::completed(completed.answer),
    )
}

fn retry(q: Queue, used: u64, log: &mut [u64]) -> Left {
    let retried = cleanup_log::retry_recorded(q, log, used);
    leaves(
        retried.queue,
        retried.used,
        answers::retried(retried.answer),
    )
}

fn staged(a: Recorded<Told>) -> Left {
    leaves(a.queue, a.used, answers::told(a.answer))
}

fn stage(q: Queue, used: u64, call: Call, list: &[u64], log: &mut [u64]) -> Left {
    match call.number {
        35 => staged(cleanup_log::admit_recorded(q, list, log, used)),
        36 => staged(cleanup_log::admit_without_recorded(q, log, used)),
        _ => staged(cleanup_log::end_recorded(q, log, used)),
    }
}

fn cancel(q: Queue, used: u64, log: &mut [u64]) -> Left {
    let cancelled = cleanup_log::cancel_recorded(q, log, used);
    leaves(
        cancelled.queue,
        cancelled.used,
        answers::passed(cancelled.answer),
    )
}

pub fn step(q: Queue, used: u64, domain: u64, call: Call, list: &[u64], log: &mut [u64]) -> Left {
    match call.number {
        30 | 31 => birth(q, used, call, log),
        32 => pop(q, used, log),
        33 => complete(q, used, domain, call, log),
        34 => retry(q, used, log),
        35 | 36 | 37 => stage(q, used, call, list, log),
        38 => cancel(q, used, log),
        39 => births(q, used, list, log),
        _ => leaves(q, used, Said::NoCall),
    }
}

pub fn read(h: Held, call: Call, list: &[u64], log: &[u64]) -> Turned {
    let kind = match call.a {
        0 => Kind::Scope,
        1 => Kind::Iterator,
        _ => return no_call(h),
    };
    let heading = Heading {
        kind,
        domain: call.b,
        first: call.c,
    };
    let reading = cleanup_log::read_log(heading, list, log);
    keep_seen(h, reading.queue, answers::numbered(reading.answer))
}
