// The lines that set what is held, and the log.
use crate::answers::Said;
use crate::held::{Held, Turned, no_call, unchanged};
use crate::script::Call;
use crate::{answers, fields};

// The held domain and number, the empty list, how many words are lent, or the used count.
fn set_number(h: Held, call: Call) -> Turned {
    let mut after = h;
    match call.number {
        90 => {
            after.domain = call.a;
            after.kept = call.b;
        }
        120 => after.listed = 0,
        135 => after.lent = call.a as usize,
        _ => after.used = call.a,
    }
    unchanged(after, answers::done())
}

fn longer_list(h: Held, value: u64) -> Turned {
    let at = h.listed;
    if 64 <= at {
        return no_call(h);
    }
    let mut after = h;
    after.list[at] = value;
    after.listed = at + 1;
    unchanged(after, answers::done())
}

fn set_queue(h: Held, call: Call) -> Turned {
    if !fields::fits(call.a, call.b, call.c) {
        return no_call(h);
    }
    let mut after = h;
    after.queue = fields::set_field(h.queue, call.a, call.b, call.c);
    unchanged(after, answers::done())
}

fn set_word(h: Held, log: &mut [u64], at: usize, value: u64) -> Turned {
    if log.len() <= at {
        return no_call(h);
    }
    log[at] = value;
    unchanged(h, answers::done())
}

pub fn set_held(h: Held, call: Call, log: &mut [u64]) -> Turned {
    match call.number {
        90 | 120 | 136 => set_number(h, call),
        121 => longer_list(h, call.a),
        130 => set_queue(h, call),
        134 => set_word(h, log, call.a as usize, call.b),
        135 => {
            if 20500 < call.a {
                return no_call(h);
            }
            set_number(h, call)
        }
        _ => no_call(h),
    }
}

// Every word of the log is 0 again.
pub fn clear(log: &mut [u64; 20500]) -> Said {
    *log = [0u64; 20500];
    answers::done()
}
