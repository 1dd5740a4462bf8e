// The parts of a record from their words: the kind, a ticket and the selection.
ghost use Rattle.std.specs.Prelude.{◌≡◌};
ghost use Rattle.queue_words.specs.Layout.{at_given_domain, at_given_token, at_given_attempt};
ghost use Rattle.queue_words.specs.Words.{word, kind_at, ticket_of, selection_in};

use crate::layout::*;
use queue_record::{Kind, Ticket};

// No conversion of Kind: a word past 1 counts as an iterator only here, behind the test of the marks.
pub fn kind_at(number: u64) -> Kind
    ensures { result ≡ kind_at number }
{
    if number == 0 {
        return Kind::Scope;
    }
    Kind::Iterator
}

pub fn selection_in(w: &Words) -> Option<Ticket>
    ensures { result ≡ selection_in w.now }
{
    if w[SELECTED] == 0 {
        return None;
    }
    Some(Ticket {
        domain: w[TICKET_DOMAIN],
        token: w[TICKET_TOKEN],
        attempt: w[TICKET_ATTEMPT],
    })
}

pub fn ticket_at(words: &TicketWords) -> Ticket
    ensures { result ≡ ticket_of (word words.now at_given_domain) (word words.now at_given_token) (word words.now at_given_attempt) }
{
    Ticket {
        domain: words[GIVEN_DOMAIN],
        token: words[GIVEN_TOKEN],
        attempt: words[GIVEN_ATTEMPT],
    }
}
