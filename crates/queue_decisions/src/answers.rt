// R64: what refuses the answer to a ticket.
ghost use Rattle.std.specs.Prelude.{◌≡◌};
ghost use Rattle.queue_decisions.specs.Answers.{is_out, keeps_on_done, complete_refusal};

use queue_record::{Refusal, Ticket};

// R139: whether `ticket` is the one that is out, in every part.
fn is_out(issued: bool, selection: Option<Ticket>, ticket: Ticket) -> bool
    ensures { result ≡ is_out issued selection ticket }
{
    issued && selection == Some(ticket)
}

fn keeps_on_done(outcome: u64, kept: u64) -> bool
    ensures { result ≡ keeps_on_done outcome kept }
{
    outcome == 0 && kept != 0
}

#[tactic(auto, unfolding(crate::specs::Answers::complete_refusal))]
pub fn complete_refusal(
    issued: bool,
    selection: Option<Ticket>,
    ticket: Ticket,
    outcome: u64,
    kept: u64,
) -> Option<Refusal>
    ensures { result ≡ complete_refusal issued selection ticket outcome kept }
{
    if 1 < outcome {
        return Some(Refusal::BadOutcome);
    }
    if !is_out(issued, selection, ticket) {
        return Some(Refusal::NotOut);
    }
    if keeps_on_done(outcome, kept) {
        return Some(Refusal::KeptOnDone);
    }
    None
}
