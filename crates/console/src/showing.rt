// The lines that show: a queue, the log, the group record.
use crate::fields::ticket_in;
use crate::held::Held;
use crate::out::{Pen, end_line, number, numbers};
use cleanup_groups::Groups;
use cleanup_queue::Queue;
use std::io::Write;

fn head<W: Write>(output: &mut W, page: &mut [u8; 4096], pen: Pen, q: Queue) -> Pen {
    let three = [q.kind as u64, q.domain, q.next];
    let first = numbers(output, page, pen, &three);
    let second = numbers(output, page, first, &q.slots);
    number(output, page, second, q.count)
}

fn tail<W: Write>(output: &mut W, page: &mut [u8; 4096], pen: Pen, q: Queue) -> Pen {
    let ticket = ticket_in(q.selection);
    let seven = [
        q.selection.is_some() as u64,
        ticket.domain,
        ticket.token,
        ticket.attempt,
        q.failed as u64,
        q.issued as u64,
        q.phase as u64,
    ];
    let first = numbers(output, page, pen, &seven);
    let second = numbers(output, page, first, &q.bindings);
    number(output, page, second, q.bound)
}

// The 92 decimals of a queue, behind what the line has already.
fn show_queue<W: Write>(output: &mut W, page: &mut [u8; 4096], pen: Pen, q: Queue) -> Pen {
    let half = head(output, page, pen, q);
    let whole = tail(output, page, half, q);
    end_line(output, page, whole)
}

fn show_log<W: Write>(
    output: &mut W,
    page: &mut [u8; 4096],
    pen: Pen,
    log: &[u64],
    used: u64,
) -> Pen {
    let lent = number(output, page, pen, log.len() as u64);
    let counted = number(output, page, lent, used);
    let whole = numbers(output, page, counted, log);
    end_line(output, page, whole)
}

pub fn show_groups<W: Write>(output: &mut W, page: &mut [u8; 4096], pen: Pen, g: Groups) -> Pen {
    let three = [g.base, g.next, g.sealed as u64];
    let first = numbers(output, page, pen, &three);
    let mut now = end_line(output, page, first);
    for place in &g.places {
        let two = [place.id, place.live as u64];
        let named = numbers(output, page, now, &two);
        now = show_queue(output, page, named, place.queue);
    }
    now
}

pub fn show_held<W: Write>(
    output: &mut W,
    page: &mut [u8; 4096],
    pen: Pen,
    h: Held,
    number: u64,
    log: &[u64],
) -> Pen {
    match number {
        140 => show_queue(output, page, pen, h.queue),
        141 => show_queue(output, page, pen, h.seen),
        _ => show_log(output, page, pen, log, h.used),
    }
}
