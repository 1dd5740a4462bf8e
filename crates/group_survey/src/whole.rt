// R115 to R120: the yes-or-no calls of the whole record, and how many groups are live.
ghost use Rattle.std.specs.Prelude.{◌≡◌};
ghost use Rattle.group_survey.specs.Whole.{contains_told, is_empty_of, has_pending_of, has_issued_of, has_failed_of, can_retry_all_of, retries_all, can_finish_of, can_seal_of, room_for, can_add_of, len_of};

use group_asking::{
    lowest_free, place_of, some_failed, some_issued, some_live, some_pending, some_stuck,
    some_undrained, some_unfinished,
};
use group_check::{IDS, live_count, sound};
use group_record::Groups;
use queue_questions::Told;
use queue_record::Refusal;

// R123: an id that is not live gets a no here, and not 10: this is the question whether it is.
#[tactic(auto, using(group_asking::proofs::Walk::there_is))]
pub fn contains(g: Groups, id: u64) -> Told
    ensures { result ≡ contains_told g id }
{
    sound(g)?;
    Ok(place_of(g, id).is_some())
}

pub fn is_empty(g: Groups) -> Told
    ensures { result ≡ is_empty_of g }
{
    sound(g)?;
    Ok(!some_live(g))
}

pub fn has_pending(g: Groups) -> Told
    ensures { result ≡ has_pending_of g }
{
    sound(g)?;
    Ok(some_pending(g))
}

pub fn has_issued(g: Groups) -> Told
    ensures { result ≡ has_issued_of g }
{
    sound(g)?;
    Ok(some_issued(g))
}

pub fn has_failed(g: Groups) -> Told
    ensures { result ≡ has_failed_of g }
{
    sound(g)?;
    Ok(some_failed(g))
}

// Some group has failed, and each that has may be retried.
pub fn may_retry_all(g: Groups) -> bool
    ensures { result ≡ retries_all g }
{
    some_failed(g) && !some_stuck(g)
}

pub fn can_retry_all(g: Groups) -> Told
    ensures { result ≡ can_retry_all_of g }
{
    sound(g)?;
    Ok(may_retry_all(g))
}

pub fn can_finish(g: Groups, target: &[u64]) -> Told
    ensures { result ≡ can_finish_of g target.now }
{
    sound(g)?;
    Ok(!some_unfinished(g, target))
}

// R119: of a sealed record yes, as upstream's body, though seal then gives 12.
pub fn can_seal(g: Groups) -> Told
    ensures { result ≡ can_seal_of g }
{
    sound(g)?;
    Ok(!some_undrained(g))
}

// Not sealed, a place is free, and an id is left.
#[tactic(auto, using(group_asking::proofs::Walk::there_is))]
fn has_room(g: Groups) -> bool
    ensures { result ≡ room_for g }
{
    !g.sealed && lowest_free(g).is_some() && g.next < IDS
}

// Whether a group may be opened.
pub fn can_add(g: Groups) -> Told
    ensures { result ≡ can_add_of g }
{
    sound(g)?;
    Ok(has_room(g))
}

pub type LenTold = Result<u64, Refusal>;

pub fn len(g: Groups) -> LenTold
    ensures { result ≡ len_of g }
{
    sound(g)?;
    Ok(live_count(g))
}
