// What is asked of sound words.
ghost use Rattle.std.specs.Prelude.{◌≡◌, true, ◌≤◌};
ghost use Rattle.stage.specs.Phases.{phase_at};
ghost use Rattle.queue_record.specs.Waiting.{occupied, others};
ghost use Rattle.queue_steps.specs.Attempts.{retry_allowed};
ghost use Rattle.queue_questions.specs.Questions.{nothing_left, matches, finishable, committed};
ghost use Rattle.queue_words.specs.Layout.{at_phase, at_bound};
ghost use Rattle.queue_words.specs.Words.{word, slots_in, selection_in, queue_of, is_sound};

use crate::decoding::selection_in;
use crate::layout::*;
use crate::search::newest_waiting;
use queue_questions::may_finish;
use stage::Phase;

// Nothing waiting and nothing selected.
pub fn nothing_left(w: &Words) -> bool
    requires { is_sound w.now ≡ true }
    ensures { result ≡ nothing_left (selection_in w.now) (others (selection_in w.now) (occupied 0 (slots_in w.now))) }
{
    w[SELECTED] == 0 && newest_waiting(w).is_none()
}

pub fn retry_allowed(w: &Words) -> bool
    ensures { result ≡ retry_allowed (queue_of w.now) (selection_in w.now) }
{
    let selection = selection_in(w);
    let words = &w[..];
    queue_decisions::retry_allowed(w[FAILED] == 1, selection, &words[SLOTS..COUNT], w[NEXT])
}

pub fn finish_allowed(w: &Words, target: &[u64]) -> bool
    requires { word w.now at_bound ≤ 16 }
    ensures { result ≡ finishable (selection_in w.now) (phase_at (word w.now at_phase)) target.now (committed (queue_of w.now)) }
{
    let selection = selection_in(w);
    let phase = Phase::from(w[PHASE]);
    let end = BINDINGS + w[BOUND] as usize;
    let words = &w[..];
    may_finish(selection, phase, target, &words[BINDINGS..end])
}

// Whether the target is the committed set.
pub fn target_matches(w: &Words, target: &[u64]) -> bool
    requires { word w.now at_bound ≤ 16 }
    ensures { result ≡ matches (queue_of w.now) target.now }
{
    let end = BINDINGS + w[BOUND] as usize;
    let words = &w[..];
    stage::same_set(target, &words[BINDINGS..end])
}
