// R33 to R37: admit, end and cancel, the calls that move the stage and nothing else.
ghost use Rattle.std.specs.Prelude.{◌≡◌, false};
ghost use Rattle.queue_stages.specs.Stages.{after_admit, admitted_by, refused_stage, admitted, ended, cancelled_by};
ghost use Rattle.queue_questions.specs.Questions.{matches};

use queue_questions::Told;
use queue_record::{Answered, Queue, Refusal, move_to, well_formed};
use stage::{Event, Phase};

// R33: an Idle stage moves only for a target that matches; in other phases admit moves nothing.
pub fn after_admit(phase: Phase, matched: bool) -> Phase
    ensures { result ≡ after_admit phase matched }
{
    if matched {
        stage::next_phase(phase, Event::Admit)
    } else {
        phase
    }
}

// Admit, once it is known whether the target matches.
fn admit_by(q: Queue, matched: bool) -> Answered<Told>
    ensures { result ≡ admitted_by q matched }
{
    let phase = after_admit(q.phase, matched);
    Answered {
        answer: Ok(phase.is_pending()),
        queue: move_to(q, phase),
    }
}

fn stage_refused(q: Queue) -> Answered<Told>
    ensures { result ≡ refused_stage q }
{
    Answered {
        answer: Err(Refusal::Broken),
        queue: q,
    }
}

// R35: with a target; yes if the stage is pending afterwards.
#[tactic(auto, unfolding(crate::specs::Stages::admitted))]
pub fn admit(q: Queue, target: &[u64]) -> Answered<Told>
    ensures { result ≡ admitted q (matches q target.now) }
{
    if !well_formed(q) {
        return stage_refused(q);
    }
    let bindings = q.bindings;
    let matched = stage::same_set(target, &bindings[..q.bound as usize]);
    admit_by(q, matched)
}

// An enum cannot hold the reference to a target, so an admit with none is a call of its own.
#[tactic(auto, unfolding(crate::specs::Stages::admitted))]
pub fn admit_without(q: Queue) -> Answered<Told>
    ensures { result ≡ admitted q false }
{
    if !well_formed(q) {
        return stage_refused(q);
    }
    admit_by(q, false)
}

// R36: yes if the stage was pending before.
#[tactic(auto, unfolding(crate::specs::Stages::ended))]
pub fn end(q: Queue) -> Answered<Told>
    ensures { result ≡ ended q }
{
    if !well_formed(q) {
        return stage_refused(q);
    }
    Answered {
        answer: Ok(q.phase.is_pending()),
        queue: move_to(q, stage::next_phase(q.phase, Event::End)),
    }
}

pub type Cancelled = Result<(), Refusal>;

#[tactic(auto, unfolding(crate::specs::Stages::cancelled_by))]
pub fn cancel(q: Queue) -> Answered<Cancelled>
    ensures { result ≡ cancelled_by q }
{
    if !well_formed(q) {
        return Answered {
            answer: Err(Refusal::Broken),
            queue: q,
        };
    }
    Answered {
        answer: Ok(()),
        queue: move_to(q, stage::next_phase(q.phase, Event::Cancel)),
    }
}
