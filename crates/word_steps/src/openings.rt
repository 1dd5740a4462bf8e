// The openings on words: every word is written.
ghost use Rattle.queue_record.specs.Openings.{opening_of, scope_opened, iterator_opened, opened_as};
ghost use Rattle.queue_words.specs.Exported.{OpensOn};

use queue_record::{Heading, Kind, Refusal, places_of};
use queue_words::layout::*;
use queue_words::{put_blank, put_iterator, put_scope};

pub fn open_scope(queue: &mut Words, domain: u64, first: u64) -> u64
    ensures { OpensOn (scope_opened domain first) result queue.new }
{
    put_scope(queue, domain, first);
    0
}

// The bindings are copied before the first store: they may lie inside the queue.
pub fn open_iterator(queue: &mut Words, domain: u64, first: u64, bindings: &[u64]) -> u64
    ensures { OpensOn (iterator_opened domain first bindings.now) result queue.new }
{
    let bound = bindings.len() as u64;
    if queue_record::MOST_BINDINGS < bound {
        put_blank(queue);
        return Refusal::TooManyBindings.into();
    }
    let places = places_of(bindings);
    put_iterator(queue, domain, first, places, bound);
    0
}

pub fn open_in(queue: &mut Words, heading: Heading, bindings: &[u64]) -> u64
    ensures { OpensOn (opened_as (opening_of heading bindings.now)) result queue.new }
{
    let kind = heading.kind;
    match kind {
        Kind::Scope => open_scope(queue, heading.domain, heading.first),
        Kind::Iterator => open_iterator(queue, heading.domain, heading.first, bindings),
    }
}
