// R117: retry of every group that has failed.
ghost use Rattle.std.specs.Prelude.{◌≡◌};
ghost use Rattle.group_rounds.specs.Rounds.{retried_place, all_retried, retried_all};

use group_check::well_grouped;
use group_record::{Groups, GroupsAnswered, Place};
use group_survey::may_retry_all;
use queue_questions::Told;
use queue_record::Refusal;

// A live place whose group has failed, retried; any other as it is.
fn renew(place: Place) -> Place
    ensures { result ≡ retried_place place }
{
    if place.live && place.queue.failed {
        Place {
            queue: queue_steps::retry(place.queue).queue,
            ..place
        }
    } else {
        place
    }
}

fn renew_all(g: Groups) -> Groups
    ensures { result ≡ all_retried g }
{
    let mut after = g;
    for place in after.places.iter_mut() {
        *place = renew(*place);
    }
    after
}

// Yes if each failed group was retried; no, and nothing changed, if none has failed or one may not be retried.
#[tactic(auto, unfolding(crate::specs::Rounds::retried_all))]
pub fn retry_all(g: Groups) -> GroupsAnswered<Told>
    ensures { result ≡ retried_all g }
{
    if !well_grouped(g) {
        return GroupsAnswered {
            answer: Err(Refusal::Broken),
            groups: g,
        };
    }
    if !may_retry_all(g) {
        return GroupsAnswered {
            answer: Ok(false),
            groups: g,
        };
    }
    GroupsAnswered {
        answer: Ok(true),
        groups: renew_all(g),
    }
}
