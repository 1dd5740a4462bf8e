// What stands in a token's slot, and the number that no attempt carries.
ghost use Rattle.std.specs.Prelude.{◌≡◌};
ghost use Rattle.queue_decisions.specs.Slots.{slot_in};

pub const NO_MORE: u64 = 18446744073709551615;

// Behind the slots nothing stands.
pub fn slot_at(slots: &[u64], token: u64) -> u64
    ensures { result ≡ slot_in slots.now token }
{
    slots.get(token as usize).copied().unwrap_or(0)
}
