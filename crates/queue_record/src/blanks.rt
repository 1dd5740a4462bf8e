// Whether a record is the blank queue.
ghost use Rattle.std.specs.Prelude.{◌≡◌};
ghost use Rattle.queue_record.specs.Blank.{is_blank};

use crate::openings::blank;
use crate::record::Queue;

pub fn is_blank(q: Queue) -> bool
    ensures { result ≡ is_blank q }
{
    q == blank()
}
