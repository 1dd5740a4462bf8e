// One field of a queue set by its number.
use cleanup_queue::{Kind, MOST_BINDINGS, MOST_TOKENS, Phase, Queue, Ticket};

// Whether the field, the index and the value are in their ranges.
pub fn fits(field: u64, index: u64, value: u64) -> bool {
    match field {
        0 | 5 | 9 | 10 => value < 2,
        3 => index < MOST_TOKENS,
        11 => value < 5,
        12 => index < MOST_BINDINGS,
        _ => field < 14,
    }
}

fn set_kind(q: Queue, value: u64) -> Queue {
    let kind = match value {
        0 => Kind::Scope,
        _ => Kind::Iterator,
    };
    queue_record::set_kind(q, kind)
}

fn set_number(q: Queue, field: u64, value: u64) -> Queue {
    let mut after = q;
    match field {
        1 => after.domain = value,
        2 => after.next = value,
        4 => after.count = value,
        9 => after.failed = value == 1,
        10 => after.issued = value == 1,
        _ => after.bound = value,
    }
    after
}

// A slot or a binding; past the last one nothing is set.
fn set_entry(q: Queue, field: u64, index: u64, value: u64) -> Queue {
    let at = index as usize;
    let mut after = q;
    if field == 3 {
        if at < 64 {
            after.slots[at] = value;
        }
        return after;
    }
    if at < 16 {
        after.bindings[at] = value;
    }
    after
}

// The selected ticket; where none is, one of zeros.
pub fn ticket_in(selection: Option<Ticket>) -> Ticket {
    selection.unwrap_or(Ticket {
        domain: 0,
        token: 0,
        attempt: 0,
    })
}

fn set_selected(q: Queue, value: u64) -> Queue {
    if value == 0 {
        return queue_record::select(q, None);
    }
    queue_record::select(q, Some(ticket_in(q.selection)))
}

fn set_ticket(q: Queue, field: u64, value: u64) -> Queue {
    let mut ticket = ticket_in(q.selection);
    match field {
        6 => ticket.domain = value,
        7 => ticket.token = value,
        _ => ticket.attempt = value,
    }
    queue_record::select(q, Some(ticket))
}

// A field that fits.
pub fn set_field(q: Queue, field: u64, index: u64, value: u64) -> Queue {
    match field {
        0 => set_kind(q, value),
        3 | 12 => set_entry(q, field, index, value),
        5 => set_selected(q, value),
        6 | 7 | 8 => set_ticket(q, field, value),
        11 => queue_record::move_to(q, Phase::from(value)),
        _ => set_number(q, field, value),
    }
}
