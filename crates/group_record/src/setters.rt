// Places and records made, and a record with one place set: a field that is added later changes this file and no call.
ghost use Rattle.std.specs.Prelude.{◌<◌, ◌≡◌};
ghost use Rattle.group_record.specs.declared.answered.GroupsAnswered.{GroupsAnswered};
ghost use Rattle.group_record.specs.Record.{free_place, live_place, empty_of, with_place, with_queue, with_opened, sealing};

use crate::answered::GroupsAnswered;
use crate::record::{Groups, Place};
use queue_record::{Answered, Queue, blank};

pub fn free_place() -> Place
    ensures { result ≡ free_place }
{
    Place {
        id: 0,
        live: false,
        queue: blank(),
    }
}

fn live_place(id: u64, queue: Queue) -> Place
    ensures { result ≡ live_place id queue }
{
    Place {
        id,
        live: true,
        queue,
    }
}

#[tactic(auto, unfolding(crate::specs::Record::empty_of))]
pub fn empty(base: u64) -> Groups
    ensures { result ≡ empty_of base }
{
    Groups {
        base,
        next: 0,
        sealed: false,
        places: [free_place(); 16],
    }
}

// Every place is free.
#[tactic(auto, unfolding(crate::specs::Record::sealing))]
pub fn sealed_of(g: Groups) -> Groups
    ensures { result ≡ sealing g }
{
    Groups {
        sealed: true,
        places: [free_place(); 16],
        ..g
    }
}

pub fn put_place(g: Groups, at: usize, place: Place) -> Groups
    requires { at < 16 }
    ensures { result ≡ with_place g at place }
{
    let mut after = g;
    after.places[at] = place;
    after
}

pub fn put_queue(g: Groups, at: usize, queue: Queue) -> Groups
    requires { at < 16 }
    ensures { result ≡ with_queue g at queue }
{
    put_place(
        g,
        at,
        Place {
            queue,
            ..g.places[at]
        },
    )
}

// What a step of the queue there says, and its queue in its place.
pub fn put_back<A>(g: Groups, at: usize, step: Answered<A>) -> GroupsAnswered<A>
    requires { at < 16 }
    ensures { result ≡ record { answer = step.answer; groups = with_queue g at step.queue } }
{
    GroupsAnswered {
        answer: step.answer,
        groups: put_queue(g, at, step.queue),
    }
}

// One group more, and next rises by 1.
pub fn put_new(g: Groups, at: usize, queue: Queue) -> Groups
    requires { (at < 16) × (g.next < 65536) }
    ensures { result ≡ with_opened g at queue }
{
    Groups {
        next: g.next + 1,
        ..put_place(g, at, live_place(g.next, queue))
    }
}
