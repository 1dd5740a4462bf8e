// How groups come and go: a new record, openings, closing, sealing.
use crate::answers;
use crate::answers::Said;
use crate::script::Call;
use cleanup_groups::Groups;

#[derive(Clone, Copy)]
pub struct Grouped {
    pub said: Said,
    pub groups: Groups,
}

pub fn leave(g: Groups, said: Said) -> Grouped {
    Grouped { said, groups: g }
}

fn make(base: u64) -> Grouped {
    let made = cleanup_groups::new(base);
    leave(made.groups, answers::passed(made.answer))
}

fn add(g: Groups, call: Call, list: &[u64]) -> Grouped {
    let added = if call.number == 61 {
        cleanup_groups::add_scope(g)
    } else {
        cleanup_groups::add_iterator(g, list)
    };
    leave(added.groups, answers::counted(added.answer))
}

fn close(g: Groups, call: Call) -> Grouped {
    let closed = if call.number == 63 {
        cleanup_groups::remove(g, call.a)
    } else {
        cleanup_groups::seal(g)
    };
    leave(closed.groups, answers::passed(closed.answer))
}

pub fn come_or_go(g: Groups, call: Call, list: &[u64]) -> Grouped {
    match call.number {
        60 => make(call.a),
        61 | 62 => add(g, call, list),
        63 | 64 => close(g, call),
        _ => leave(g, Said::NoCall),
    }
}
