// R11: how many tokens wait.
ghost use Rattle.std.specs.Prelude.{◌≡◌, length};
ghost use Rattle.queue_record.specs.Waiting.{occupied, others, share};

use crate::record::Ticket;

// What one slot adds: 1 if it is occupied and not the selected one.
fn slot_share(selection: Option<Ticket>, place: u64, number: u64) -> u64
    ensures { result ≡ share selection place number }
{
    if number == 0 {
        return 0;
    }
    let Some(ticket) = selection else {
        return 1;
    };
    if place == ticket.token {
        return 0;
    }
    1
}

pub fn waiting_count(selection: Option<Ticket>, slots: &[u64]) -> u64
    ensures { result ≡ length (others selection (occupied 0 slots.now)) }
{
    let mut count: u64 = 0;
    for (place, number) in slots.iter().enumerate() {
        count += slot_share(selection, place as u64, *number);
    }
    count
}
