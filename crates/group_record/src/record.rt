// R96: the parts of a group record. Any value of these types is a legal argument of every call.
use queue_record::Queue;

#[derive(Clone, Copy)]
pub struct Place {
    // 0 in a free place.
    pub id: u64,
    pub live: bool,
    // The blank queue in a free place.
    pub queue: Queue,
}

#[derive(Clone, Copy)]
pub struct Groups {
    pub base: u64,
    // The id that the next opening gives.
    pub next: u64,
    pub sealed: bool,
    pub places: [Place; 16],
}
