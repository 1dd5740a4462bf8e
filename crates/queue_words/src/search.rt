// The newest waiting token.
ghost use Rattle.std.specs.Prelude.{◌≡◌, true};
ghost use Rattle.queue_record.specs.Waiting.{occupied};
ghost use Rattle.queue_record.specs.Newest.{newest};
ghost use Rattle.queue_decisions.specs.Pops.{sought};
ghost use Rattle.queue_words.specs.Words.{slots_in, selection_in, is_sound};

use crate::layout::*;
use queue_record::newest_place;

// Of the tokens that there are: behind them a sound record holds only 0.
pub fn newest_waiting(w: &Words) -> Option<u64>
    requires { is_sound w.now ≡ true }
    ensures { result ≡ newest (occupied 0 (slots_in w.now)) }
{
    let end = SLOTS + w[COUNT] as usize;
    let words = &w[..];
    newest_place(&words[SLOTS..end])
}

// Looked for only where nothing is selected.
pub fn sought_in(w: &Words) -> Option<u64>
    requires { is_sound w.now ≡ true }
    ensures { result ≡ sought (selection_in w.now) (slots_in w.now) }
{
    if w[SELECTED] != 0 {
        return None;
    }
    newest_waiting(w)
}
