// R101: whether a group record is well formed, one test for each clause.
ghost use Rattle.std.specs.Prelude.{◌≡◌, ◌↔◌, true, drop, IsOk, IfErr};
ghost use Rattle.queue_record.specs.declared.refusal.Refusal.TheVariants.{Broken};
ghost use Rattle.group_check.specs.WellFormed.{clashes, distinct_ids, sealed_fits, well_grouped};

use group_asking::{some_foreign, some_held_from, some_littered, some_live, some_past};
use group_record::{Groups, Place};
use queue_record::Refusal;

// R99: the largest base to which every id, and the id past the last one, can be added.
pub const LAST_BASE: u64 = 18446744073709486079;

// The id past the last one.
pub const IDS: u64 = 65536;

// Whether a place from `from` on is live under this live place's id.
fn clash(g: Groups, from: usize, place: Place) -> bool
    ensures { result ≡ clashes place (drop from g.places) }
{
    place.live && some_held_from(g, from, place.id)
}

fn distinct_ids(g: Groups) -> bool
    ensures { result ≡ distinct_ids g.places }
{
    for (i, place) in g.places.iter().enumerate() {
        if clash(g, i + 1, *place) {
            return false;
        }
    }
    true
}

fn sealed_fits(g: Groups) -> bool
    ensures { result ≡ sealed_fits g }
{
    !g.sealed || !some_live(g)
}

// What every call but `new` asks first. The two clauses that need no walk come first.
#[tactic(auto, unfolding(crate::specs::WellFormed::well_grouped))]
pub fn well_grouped(g: Groups) -> bool
    ensures { result ≡ well_grouped g }
{
    g.base <= LAST_BASE
        && g.next <= IDS
        && distinct_ids(g)
        && !some_past(g, g.next)
        && !some_foreign(g, g.base)
        && !some_littered(g)
        && sealed_fits(g)
}

// What each call asks first.
pub fn sound(g: Groups) -> Result<(), Refusal>
    ensures ok { IsOk result ↔ (well_grouped g ≡ true) }
    ensures err { IfErr result (λ refusal. refusal ≡ Broken) }
{
    if well_grouped(g) {
        Ok(())
    } else {
        Err(Refusal::Broken)
    }
}
