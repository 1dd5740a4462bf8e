// The steps of a group by its id, and the retry of all.
use crate::answers;
use crate::answers::Said;
use crate::lives::{Grouped, leave};
use crate::script::Call;
use cleanup_groups::Groups;
use cleanup_queue::Ticket;

fn birth(g: Groups, call: Call) -> Grouped {
    let born = if call.number == 70 {
        cleanup_groups::register(g, call.a, call.b)
    } else {
        cleanup_groups::land(g, call.a, call.b)
    };
    leave(born.groups, answers::numbered(born.answer))
}

fn births(g: Groups, id: u64, list: &[u64]) -> Grouped {
    let born = cleanup_groups::register_all(g, id, list);
    leave(born.groups, answers::all_born(born.answer))
}

fn pop(g: Groups, id: u64) -> Grouped {
    let popped = cleanup_groups::pop(g, id);
    leave(popped.groups, answers::popped(popped.answer))
}

// A complete by id has no column left for the kept number, so that one is held, as the domain is.
fn complete(g: Groups, call: Call, domain: u64, kept: u64) -> Grouped {
    let ticket = Ticket {
        domain,
        token: call.b,
        attempt: call.c,
    };
    let completed = cleanup_groups::complete(g, call.a, ticket, call.d, kept);
    leave(completed.groups, answers::completed(completed.answer))
}

fn retry(g: Groups, id: u64) -> Grouped {
    let retried = cleanup_groups::retry(g, id);
    leave(retried.groups, answers::retried(retried.answer))
}

fn stage(g: Groups, call: Call, list: &[u64]) -> Grouped {
    let staged = match call.number {
        75 => cleanup_groups::admit(g, call.a, list),
        76 => cleanup_groups::admit_without(g, call.a),
        _ => cleanup_groups::end(g, call.a),
    };
    leave(staged.groups, answers::told(staged.answer))
}

fn cancel(g: Groups, id: u64) -> Grouped {
    let cancelled = cleanup_groups::cancel(g, id);
    leave(cancelled.groups, answers::passed(cancelled.answer))
}

pub fn retry_all(g: Groups) -> Grouped {
    let retried = cleanup_groups::retry_all(g);
    leave(retried.groups, answers::told(retried.answer))
}

pub fn step(g: Groups, call: Call, list: &[u64], domain: u64, kept: u64) -> Grouped {
    match call.number {
        70 | 71 => birth(g, call),
        72 => pop(g, call.a),
        73 => complete(g, call, domain, kept),
        74 => retry(g, call.a),
        75 | 76 | 77 => stage(g, call, list),
        78 => cancel(g, call.a),
        79 => births(g, call.a, list),
        _ => leave(g, Said::NoCall),
    }
}
