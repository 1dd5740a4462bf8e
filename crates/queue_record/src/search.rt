// R43: the search for the newest waiting token.
ghost use Rattle.std.specs.Prelude.{◌≡◌};
ghost use Rattle.queue_record.specs.Waiting.{occupied};
ghost use Rattle.queue_record.specs.Newest.{newest};

// From the last place down to the first number that is met: tokens fill the slots upwards, so that one is the newest.
pub fn newest_place(slots: &[u64]) -> Option<u64>
    ensures { result ≡ newest (occupied 0 slots.now) }
{
    match slots.iter().rposition(|x| *x != 0) {
        Some(place) => Some(place as u64),
        None => None,
    }
}
