// R21 to R26: the openings: a scope, and an iterator with its committed bindings.
ghost use Rattle.std.specs.Prelude.{◌≤◌, ◌≡◌, length};
ghost use Rattle.queue_record.specs.Openings.{binding_places, started, blank, opening_of, scope_opened, iterator_opened, opened_as};

use crate::answered::Answered;
use crate::limits::MOST_BINDINGS;
use crate::record::{Kind, Queue};
use crate::refusal::Refusal;
use stage::Phase;

// What a queue is opened as. A struct that lends a slice would want its proofs by hand, so an iterator's bindings go beside it.
#[derive(Clone, Copy)]
pub struct Heading {
    pub kind: Kind,
    pub domain: u64,
    pub first: u64,
}

pub type Opened = Result<(), Refusal>;

// The given bindings in their 16 places.
pub fn places_of(given: &[u64]) -> [u64; 16]
    requires { length given.now ≤ 16 }
    ensures { result ≡ binding_places given.now }
{
    let mut places = [0u64; 16];
    places[..given.len()].copy_from_slice(given);
    places
}

// A queue in which nothing has happened yet.
fn started(heading: Heading, phase: Phase, bindings: [u64; 16], bound: u64) -> Queue
    ensures { result ≡ started heading phase bindings bound }
{
    Queue {
        kind: heading.kind,
        domain: heading.domain,
        next: heading.first,
        slots: [0u64; 64],
        count: 0,
        selection: None,
        failed: false,
        issued: false,
        phase,
        bindings,
        bound,
    }
}

// R26: what a refused opening leaves.
#[tactic(auto, unfolding(crate::specs::Openings::blank, crate::specs::Openings::scope_of))]
pub fn blank() -> Queue
    ensures { result ≡ blank }
{
    let heading = Heading {
        kind: Kind::Scope,
        domain: 0,
        first: 0,
    };
    started(heading, Phase::Ended, [0u64; 16], 0)
}

// Nothing refuses a scope yet; its answer is every opening's.
#[tactic(auto, unfolding(crate::specs::Openings::scope_of))]
pub fn scope(domain: u64, first: u64) -> Answered<Opened>
    ensures { result ≡ scope_opened domain first }
{
    let heading = Heading {
        kind: Kind::Scope,
        domain,
        first,
    };
    let queue = started(heading, Phase::Ended, [0u64; 16], 0);
    Answered {
        answer: Ok(()),
        queue,
    }
}

// R22, R25: the committed bindings are kept as given; more than 16 are refused.
#[tactic(auto, unfolding(crate::specs::Openings::iterator_opened, crate::specs::Openings::iterator_of))]
pub fn iterator(domain: u64, first: u64, bindings: &[u64]) -> Answered<Opened>
    ensures { result ≡ iterator_opened domain first bindings.now }
{
    let bound = bindings.len() as u64;
    if MOST_BINDINGS < bound {
        let none = blank();
        return Answered {
            answer: Err(Refusal::TooManyBindings),
            queue: none,
        };
    }
    let places = places_of(bindings);
    let heading = Heading {
        kind: Kind::Iterator,
        domain,
        first,
    };
    let queue = started(heading, Phase::Idle, places, bound);
    Answered {
        answer: Ok(()),
        queue,
    }
}

// Either, as the heading says; a scope's bindings are not looked at.
pub fn open_as(heading: Heading, bindings: &[u64]) -> Answered<Opened>
    ensures { result ≡ opened_as (opening_of heading bindings.now) }
{
    match heading.kind {
        Kind::Scope => scope(heading.domain, heading.first),
        Kind::Iterator => iterator(heading.domain, heading.first, bindings),
    }
}
