// Which part a call works on, and the call put to that part.
use crate::answers::Said;
use crate::held::{Held, Turned, first_of, keep_seen, settle, unchanged};
use crate::lives::Grouped;
use crate::script::Call;
use crate::{answers, asked, grouped, lives, out, places, plain, recorded, setting, showing};
use cleanup_groups::Groups;
use std::io::Write;

#[derive(Clone, Copy)]
pub enum Subject {
    // The queue, the log and what else is held.
    Held,
    Groups,
    // A get: the group record is asked, and what it gives is held.
    Seen,
    Shown,
    All,
    NoCall,
}

// By tens; a number that names no call is found out by its part.
fn subject_of_ten(ten: u64) -> Subject {
    match ten {
        0 | 1 | 2 | 3 | 4 | 5 | 9 | 12 | 13 => Subject::Held,
        6 | 7 | 8 | 10 | 11 => Subject::Groups,
        _ => Subject::NoCall,
    }
}

pub fn subject_of(number: u64) -> Subject {
    match number {
        110 => Subject::Seen,
        131 | 132 | 133 => Subject::Groups,
        140 | 141 | 142 | 143 => Subject::Shown,
        150 => Subject::All,
        _ => subject_of_ten(number / 10),
    }
}

// The recorded calls and the reader.
fn on_log(h: Held, call: Call, list: &[u64], log: &mut [u64]) -> Turned {
    let lent = first_of(h.lent, log);
    if call.number == 50 {
        return recorded::read(h, call, list, &log[..lent]);
    }
    let left = recorded::step(h.queue, h.used, h.domain, call, list, &mut log[..lent]);
    settle(h, left)
}

pub fn on_held(h: Held, call: Call, log: &mut [u64]) -> Turned {
    let all = h.list;
    let count = first_of(h.listed, &all);
    let list = &all[..count];
    match call.number / 10 {
        0 | 1 | 4 => settle(h, plain::step(h.queue, h.used, h.domain, call, list)),
        2 => unchanged(h, plain::question(h.queue, call, list)),
        3 | 5 => on_log(h, call, list, log),
        _ => setting::set_held(h, call, log),
    }
}

pub fn on_groups(g: Groups, call: Call, h: Held) -> Grouped {
    if call.number == 104 {
        return grouped::retry_all(g);
    }
    let all = h.list;
    let count = first_of(h.listed, &all);
    let list = &all[..count];
    match call.number / 10 {
        6 => lives::come_or_go(g, call, list),
        7 => grouped::step(g, call, list, h.domain, h.kept),
        8 => lives::leave(g, asked::of_group(g, call, list)),
        13 => places::set_groups(g, call),
        _ => lives::leave(g, asked::of_all(g, call, list)),
    }
}

// A refused get leaves what was seen.
pub fn on_seen(h: Held, g: Groups, id: u64) -> Turned {
    let found = cleanup_groups::get(g, id);
    let said = answers::passed(found.answer);
    match found.answer {
        Ok(()) => keep_seen(h, found.queue, said),
        Err(_) => unchanged(h, said),
    }
}

pub fn show<W: Write>(
    output: &mut W,
    page: &mut [u8; 4096],
    h: Held,
    g: Groups,
    number: u64,
    log: &[u64],
) -> Said {
    if number == 143 {
        showing::show_groups(output, page, out::fresh(), g);
        return Said::Shown;
    }
    let lent = first_of(h.lent, log);
    showing::show_held(output, page, out::fresh(), h, number, &log[..lent]);
    Said::Shown
}
