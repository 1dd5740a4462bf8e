// R64: what refuses a register or a land.
ghost use Rattle.std.specs.Prelude.{◌≡◌};
ghost use Rattle.queue_decisions.specs.Births.{register_refusal, land_refusal};

use queue_record::{MOST_TOKENS, Refusal};
use stage::Phase;

#[tactic(auto, unfolding(crate::specs::Births::register_refusal))]
pub fn register_refusal(number: u64, count: u64) -> Option<Refusal>
    ensures { result ≡ register_refusal number count }
{
    if number == 0 {
        return Some(Refusal::BadNumber);
    }
    if MOST_TOKENS <= count {
        return Some(Refusal::NoSlot);
    }
    None
}

#[tactic(auto, unfolding(crate::specs::Births::land_refusal))]
pub fn land_refusal(number: u64, phase: Phase, count: u64) -> Option<Refusal>
    ensures { result ≡ land_refusal number phase count }
{
    if number == 0 {
        return Some(Refusal::BadNumber);
    }
    if !phase.is_pending() {
        return Some(Refusal::NotPending);
    }
    if MOST_TOKENS <= count {
        return Some(Refusal::NoSlot);
    }
    None
}
