// A field of the group record, of a place, or of a place's queue, set by its number.
use crate::answers::Said;
use crate::lives::{Grouped, leave};
use crate::script::Call;
use crate::{answers, fields};
use cleanup_groups::Groups;

// Whether what the line names is in its ranges; the place is looked at where it is used.
fn fits(call: Call) -> bool {
    if call.number == 133 {
        return fields::fits(call.b, call.c, call.d);
    }
    if call.number == 132 {
        if call.b == 1 {
            return call.c < 2;
        }
        return call.b == 0;
    }
    if call.a == 2 {
        return call.b < 2;
    }
    call.a < 2
}

fn set_record(g: Groups, field: u64, value: u64) -> Groups {
    let mut after = g;
    match field {
        0 => after.base = value,
        1 => after.next = value,
        _ => after.sealed = value == 1,
    }
    after
}

fn set_place(g: Groups, call: Call) -> Grouped {
    let at = call.a as usize;
    if 16 <= at {
        return leave(g, Said::NoCall);
    }
    let mut place = g.places[at];
    if call.number == 133 {
        place.queue = fields::set_field(place.queue, call.b, call.c, call.d);
    } else if call.b == 0 {
        place.id = call.c;
    } else {
        place.live = call.c == 1;
    }
    let mut groups = g;
    groups.places[at] = place;
    leave(groups, answers::done())
}

pub fn set_groups(g: Groups, call: Call) -> Grouped {
    if !fits(call) {
        return leave(g, Said::NoCall);
    }
    if call.number == 131 {
        return leave(set_record(g, call.a, call.b), answers::done());
    }
    set_place(g, call)
}
