// R12: whether a record is well formed, one test for each clause.
ghost use Rattle.std.specs.Prelude.{◌≤◌, ◌≡◌, ◌↔◌, true, ◌&&◌, Some, IsOk, IfErr};
ghost use Rattle.queue_record.specs.declared.refusal.Refusal.TheVariants.{Broken};
ghost use Rattle.queue_record.specs.WellFormed.{rest_zero, scope_fits, ticket_fits, marks_fit, is_selected, selected_fits, slot_fits, well_formed};

use crate::limits::{MOST_BINDINGS, MOST_TOKENS};
use crate::record::{Kind, Queue, Ticket};
use crate::refusal::Refusal;
use stage::Phase;

// Whether every number of `s` from the place `from` on is 0.
pub fn zeros_from(s: &[u64], from: u64) -> bool
    ensures { result ≡ rest_zero from s.now }
{
    // a `skip` would step over the places one by one
    let start = s.len().min(from as usize);
    s[start..].iter().all(|x| *x == 0)
}

// R20: a scope takes no bindings, and its stage is settled.
pub fn scope_fits(kind: Kind, bound: u64, phase: Phase) -> bool
    ensures { result ≡ scope_fits kind bound phase }
{
    match kind {
        Kind::Scope => bound == 0 && phase.is_settled(),
        Kind::Iterator => true,
    }
}

// R15: the ticket is this queue's, of a token that was given, and its attempt has been used.
pub fn ticket_fits(domain: u64, count: u64, next: u64, t: Ticket) -> bool
    ensures { result ≡ ticket_fits domain count next (Some t) }
{
    t.domain == domain && t.token < count && t.attempt < next
}

// R17 to R19: never both marks; an issued slot is empty, a ready one occupied.
pub fn slot_fits(failed: bool, issued: bool, number: u64) -> bool
    ensures { result ≡ (marks_fit true failed issued && slot_fits failed issued number) }
{
    if issued {
        return !failed && number == 0;
    }
    failed || number != 0
}

// R15 to R19: the selected ticket, the marks and the ticket's slot agree. It takes the record's parts one by one, and the check copies what
// it lends: where the record itself is lent, a call by value copies the whole of it.
fn selection_fits(
    domain: u64,
    count: u64,
    next: u64,
    selection: Option<Ticket>,
    failed: bool,
    issued: bool,
    slots: &[u64; 64],
) -> bool
    requires { count ≤ 64 }
    ensures { result ≡ (ticket_fits domain count next selection && (marks_fit (is_selected selection) failed issued && selected_fits failed issued slots.now selection)) }
{
    let Some(ticket) = selection else {
        return !failed && !issued;
    };
    ticket_fits(domain, count, next, ticket)
        && slot_fits(failed, issued, slots[ticket.token as usize])
}

#[tactic(auto, unfolding(crate::specs::WellFormed::well_formed))]
pub fn well_formed(q: Queue) -> bool
    ensures { result ≡ well_formed q }
{
    let slots = q.slots;
    let bindings = q.bindings;
    q.count <= MOST_TOKENS
        && q.bound <= MOST_BINDINGS
        && zeros_from(&slots, q.count)
        && zeros_from(&bindings, q.bound)
        && scope_fits(q.kind, q.bound, q.phase)
        && selection_fits(
            q.domain,
            q.count,
            q.next,
            q.selection,
            q.failed,
            q.issued,
            &slots,
        )
}

// What each question asks first. Where the answer stands beside the record, `?` can't pass the record on: those calls ask well_formed.
pub fn sound(q: Queue) -> Result<(), Refusal>
    ensures ok { IsOk result ↔ (well_formed q ≡ true) }
    ensures err { IfErr result (λ refusal. refusal ≡ Broken) }
{
    if well_formed(q) {
        Ok(())
    } else {
        Err(Refusal::Broken)
    }
}
