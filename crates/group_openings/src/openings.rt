// A new record (R99, R100), and groups opened in it (R107).
ghost use Rattle.std.specs.Prelude.{◌≡◌};
ghost use Rattle.group_openings.specs.Openings.{new_of, unsealed, room_of, refused_add, added, added_queue, added_scope, added_iterator};

use group_asking::lowest_free;
use group_check::{IDS, LAST_BASE, Spot, sound};
use group_record::{Groups, GroupsAnswered, empty, put_new};
use queue_record::{Answered, Opened, Queue, Refusal, iterator, scope};

// The root is open as id 0; a base too large gets the empty record of base 0.
#[tactic(auto, using(crate::proofs::Room::none_yet), unfolding(crate::specs::Openings::new_of))]
pub fn new(base: u64) -> GroupsAnswered<Opened>
    ensures { result ≡ new_of base }
{
    if LAST_BASE < base {
        return GroupsAnswered {
            answer: Err(Refusal::NoId),
            groups: empty(0),
        };
    }
    let root = scope(base, 0);
    GroupsAnswered {
        answer: Ok(()),
        groups: put_new(empty(base), 0, root.queue),
    }
}

// What opening and sealing check first.
pub fn is_unsealed(g: Groups) -> Opened
    ensures { result ≡ unsealed g }
{
    sound(g)?;
    if g.sealed {
        return Err(Refusal::Sealed);
    }
    Ok(())
}

// The lowest free place, if an id is left for it.
fn room(g: Groups) -> Spot
    ensures { result ≡ room_of g }
{
    let place = lowest_free(g).ok_or(Refusal::GroupsFull)?;
    if IDS <= g.next {
        return Err(Refusal::NoId);
    }
    Ok(place)
}

pub type Added = Result<u64, Refusal>;

fn add_refused(g: Groups, refusal: Refusal) -> GroupsAnswered<Added>
    ensures { result ≡ refused_add g refusal }
{
    GroupsAnswered {
        answer: Err(refusal),
        groups: g,
    }
}

#[tactic(auto, using(crate::proofs::Room::room_below))]
fn add(g: Groups, queue: Queue) -> GroupsAnswered<Added>
    ensures { result ≡ added g queue }
{
    match room(g) {
        Err(refusal) => add_refused(g, refusal),
        Ok(at) => GroupsAnswered {
            answer: Ok(g.next),
            groups: put_new(g, at, queue),
        },
    }
}

// Where the queue's own opening is refused, that refusal is passed on.
fn add_opened(g: Groups, opening: Answered<Opened>) -> GroupsAnswered<Added>
    ensures { result ≡ added_queue g opening.queue opening.answer }
{
    match opening.answer {
        Err(refusal) => add_refused(g, refusal),
        Ok(()) => add(g, opening.queue),
    }
}

// A scope has no bindings: it never gets 14.
#[tactic(auto, using(crate::proofs::Room::domain_fits), unfolding(crate::specs::Openings::added_scope))]
pub fn add_scope(g: Groups) -> GroupsAnswered<Added>
    ensures { result ≡ added_scope g }
{
    match is_unsealed(g) {
        Err(refusal) => add_refused(g, refusal),
        Ok(()) => add_opened(g, scope(g.base + g.next, 0)),
    }
}

// Opens an iterator with its committed bindings.
#[tactic(auto, using(crate::proofs::Room::domain_fits), unfolding(crate::specs::Openings::added_iterator))]
pub fn add_iterator(g: Groups, bindings: &[u64]) -> GroupsAnswered<Added>
    ensures { result ≡ added_iterator g bindings.now }
{
    match is_unsealed(g) {
        Err(refusal) => add_refused(g, refusal),
        Ok(()) => add_opened(g, iterator(g.base + g.next, 0, bindings)),
    }
}
