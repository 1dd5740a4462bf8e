// How many groups are live.
ghost use Rattle.std.specs.Prelude.{◌≡◌};
ghost use Rattle.group_check.specs.Count.{live_count};

use group_record::Groups;

pub fn live_count(g: Groups) -> u64
    ensures { result ≡ live_count g.places }
{
    g.places.iter().filter(|place| place.live).count() as u64
}
