// The yes-or-no calls, by their numbers: of the held queue, of one group, of the whole group record.
use crate::answers;
use crate::answers::Said;
use crate::script::Call;
use cleanup_groups::Groups;
use cleanup_queue::{Queue, Told};

pub fn of_queue(q: Queue, number: u64, target: &[u64]) -> Told {
    match number {
        20 => cleanup_queue::is_empty(q),
        21 => cleanup_queue::is_issued(q),
        22 => cleanup_queue::is_pending(q),
        23 => cleanup_queue::is_settled(q),
        24 => cleanup_queue::is_cancelled(q),
        25 => cleanup_queue::has_failed(q),
        26 => cleanup_queue::can_retry(q),
        27 => cleanup_queue::can_finish(q, target),
        _ => Ok(cleanup_queue::well_formed(q)),
    }
}

fn told_of_group(g: Groups, number: u64, id: u64, target: &[u64]) -> Told {
    match number {
        80 => cleanup_groups::group_is_empty(g, id),
        81 => cleanup_groups::group_is_issued(g, id),
        82 => cleanup_groups::group_is_pending(g, id),
        83 => cleanup_groups::group_is_settled(g, id),
        84 => cleanup_groups::group_is_cancelled(g, id),
        85 => cleanup_groups::group_has_failed(g, id),
        86 => cleanup_groups::group_can_retry(g, id),
        87 => cleanup_groups::group_can_finish(g, id, target),
        _ => Ok(cleanup_groups::well_grouped(g)),
    }
}

pub fn of_group(g: Groups, call: Call, target: &[u64]) -> Said {
    match call.number {
        88 => answers::counted(cleanup_groups::group_domain(g, call.a)),
        number => answers::told(told_of_group(g, number, call.a, target)),
    }
}

fn told_of_all(g: Groups, number: u64, id: u64, target: &[u64]) -> Told {
    match number {
        100 => cleanup_groups::has_pending(g),
        101 => cleanup_groups::has_issued(g),
        102 => cleanup_groups::has_failed(g),
        103 => cleanup_groups::can_retry_all(g),
        105 => cleanup_groups::can_finish(g, target),
        106 => cleanup_groups::can_seal(g),
        107 => cleanup_groups::contains(g, id),
        109 => cleanup_groups::is_empty(g),
        111 => cleanup_groups::accepts_acquisition(g, id),
        _ => cleanup_groups::can_add(g),
    }
}

pub fn of_all(g: Groups, call: Call, target: &[u64]) -> Said {
    match call.number {
        108 => answers::counted(cleanup_groups::len(g)),
        number if number <= 112 => answers::told(told_of_all(g, number, call.a, target)),
        _ => Said::NoCall,
    }
}
