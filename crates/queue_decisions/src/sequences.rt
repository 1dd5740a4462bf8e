// How many numbers of a list can be registered one after the other, and what refuses the next one.
ghost use Rattle.std.specs.Prelude.{◌≡◌};
ghost use Rattle.queue_decisions.specs.Sequences.{taking_of};

use crate::births::register_refusal;
use queue_record::Refusal;

// A copy of the numbers that are taken, with 0 behind them; how many they are; what refuses the next one, if one is left. The memory
// is fixed (no heap), and `taking_of` speaks of all 64 places.
#[derive(Clone, Copy)]
pub struct Taking {
    pub numbers: [u64; 64],
    pub taken: u64,
    pub refusal: Option<Refusal>,
}

pub fn register_taking(given: &[u64], count: u64) -> Taking
    ensures { result ≡ taking_of given.now count }
{
    let mut numbers = [0u64; 64];
    let mut tokens = count;
    for (i, number) in given.iter().enumerate() {
        if let Some(refusal) = register_refusal(*number, tokens) {
            return Taking {
                numbers,
                taken: i as u64,
                refusal: Some(refusal),
            };
        }
        numbers[i] = *number;
        tokens += 1;
    }
    Taking {
        numbers,
        taken: given.len() as u64,
        refusal: None,
    }
}
