// R113: the yes-or-no calls of a group, by its id. They are named after the queue's, since the record has calls of those names too.
ghost use Rattle.std.specs.Prelude.{◌≡◌};
ghost use Rattle.group_questions.specs.ById.{is_empty_in, is_issued_in, is_pending_in, is_settled_in, is_cancelled_in, has_failed_in, can_retry_in, can_finish_in, domain_in, accepts_in};

use group_check::get;
use group_record::Groups;
use queue_questions::{DomainTold, Told};

pub fn group_is_empty(g: Groups, id: u64) -> Told
    ensures { result ≡ is_empty_in g id }
{
    let found = get(g, id);
    found.answer?;
    queue_questions::is_empty(found.queue)
}

pub fn group_is_issued(g: Groups, id: u64) -> Told
    ensures { result ≡ is_issued_in g id }
{
    let found = get(g, id);
    found.answer?;
    queue_questions::is_issued(found.queue)
}

pub fn group_is_pending(g: Groups, id: u64) -> Told
    ensures { result ≡ is_pending_in g id }
{
    let found = get(g, id);
    found.answer?;
    queue_questions::is_pending(found.queue)
}

pub fn group_is_settled(g: Groups, id: u64) -> Told
    ensures { result ≡ is_settled_in g id }
{
    let found = get(g, id);
    found.answer?;
    queue_questions::is_settled(found.queue)
}

pub fn group_is_cancelled(g: Groups, id: u64) -> Told
    ensures { result ≡ is_cancelled_in g id }
{
    let found = get(g, id);
    found.answer?;
    queue_questions::is_cancelled(found.queue)
}

pub fn group_has_failed(g: Groups, id: u64) -> Told
    ensures { result ≡ has_failed_in g id }
{
    let found = get(g, id);
    found.answer?;
    queue_questions::has_failed(found.queue)
}

pub fn group_can_retry(g: Groups, id: u64) -> Told
    ensures { result ≡ can_retry_in g id }
{
    let found = get(g, id);
    found.answer?;
    queue_questions::can_retry(found.queue)
}

pub fn group_can_finish(g: Groups, id: u64, target: &[u64]) -> Told
    ensures { result ≡ can_finish_in g id target.now }
{
    let found = get(g, id);
    found.answer?;
    queue_questions::can_finish(found.queue, target)
}

pub fn group_domain(g: Groups, id: u64) -> DomainTold
    ensures { result ≡ domain_in g id }
{
    let found = get(g, id);
    found.answer?;
    queue_questions::domain(found.queue)
}

// R122: whether the stage is not cancelled: land is not asked here, and Stopping still takes one.
pub fn accepts_acquisition(g: Groups, id: u64) -> Told
    ensures { result ≡ accepts_in g id }
{
    Ok(!group_is_cancelled(g, id)?)
}
