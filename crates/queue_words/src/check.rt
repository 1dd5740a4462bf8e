// Whether words encode a well-formed record: one test for each clause, and one pass over the unused places.
ghost use Rattle.std.specs.Prelude.{◌≤◌, ◌≡◌};
ghost use Rattle.queue_words.specs.Layout.{at_count};
ghost use Rattle.queue_words.specs.Words.{word, marks_encode, ticket_encodes, queue_of, encodes, places_fit, selection_fits, is_sound};

use crate::decoding::kind_at;
use crate::layout::*;
use queue_record::{
    MOST_BINDINGS, MOST_TOKENS, Ticket, scope_fits, slot_fits, ticket_fits, zeros_from,
};
use stage::Phase;

// No number past the last of its kind.
fn marks_encode(kind: u64, selected: u64, failed: u64, issued: u64, phase: u64) -> bool
    ensures { result ≡ marks_encode kind selected failed issued phase }
{
    kind <= 1 && selected <= 1 && failed <= 1 && issued <= 1 && phase <= 4
}

// No ticket's words where none is selected.
fn ticket_encodes(selected: u64, domain: u64, token: u64, attempt: u64) -> bool
    ensures { result ≡ ticket_encodes selected domain token attempt }
{
    selected != 0 || (domain == 0 && token == 0 && attempt == 0)
}

// Whether the words encode a record.
#[tactic(auto, unfolding(crate::specs::Words::encodes))]
fn encode_record(w: &Words) -> bool
    ensures { result ≡ encodes w.now }
{
    marks_encode(w[KIND], w[SELECTED], w[FAILED], w[ISSUED], w[PHASE])
        && ticket_encodes(
            w[SELECTED],
            w[TICKET_DOMAIN],
            w[TICKET_TOKEN],
            w[TICKET_ATTEMPT],
        )
}

// The unused places are 0, and a scope has no bindings and is Ended or Closed.
#[tactic(auto, unfolding(crate::specs::Words::places_fit, crate::specs::Words::queue_of))]
fn places_fit(w: &Words) -> bool
    ensures { result ≡ places_fit (queue_of w.now) }
{
    let count = w[COUNT];
    let bound = w[BOUND];
    count <= MOST_TOKENS
        && bound <= MOST_BINDINGS
        && zeros_from(&w[SLOTS..COUNT], count)
        && zeros_from(&w[BINDINGS..BOUND], bound)
        && scope_fits(kind_at(w[KIND]), bound, Phase::from(w[PHASE]))
}

// The selected ticket, the two marks and the ticket's slot agree.
#[tactic(auto, using(crate::proofs::CheckParts::own_fits), unfolding(crate::specs::Words::selection_fits, crate::specs::Words::queue_of))]
fn selection_fits(w: &Words) -> bool
    requires { word w.now at_count ≤ 64 }
    ensures { result ≡ selection_fits (queue_of w.now) }
{
    if w[SELECTED] == 0 {
        return w[FAILED] != 1 && w[ISSUED] != 1;
    }
    let ticket = Ticket {
        domain: w[TICKET_DOMAIN],
        token: w[TICKET_TOKEN],
        attempt: w[TICKET_ATTEMPT],
    };
    ticket_fits(w[DOMAIN], w[COUNT], w[NEXT], ticket)
        && slot_fits(
            w[FAILED] == 1,
            w[ISSUED] == 1,
            w[SLOTS + ticket.token as usize],
        )
}

// What every call asks first.
#[tactic(auto, using(crate::proofs::CheckParts::sound_parts, crate::proofs::CheckParts::places_few))]
pub fn sound(w: &Words) -> bool
    ensures { result ≡ is_sound w.now }
{
    encode_record(w) && places_fit(w) && selection_fits(w)
}
