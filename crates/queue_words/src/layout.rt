// The places of a queue's words. include/gulberzan.h and specs/Layout.antt say the same; tests/layout holds them together. The words
// are C's, lent as they lie: no type of Rattle can stand for sound ones without a copy, so that they are sound is asked of the callers.
pub const KIND: usize = 0;

pub const DOMAIN: usize = 1;

pub const NEXT: usize = 2;

// The first of 64.
pub const SLOTS: usize = 3;

// Tokens issued.
pub const COUNT: usize = 67;

pub const SELECTED: usize = 68;

pub const TICKET_DOMAIN: usize = 69;

pub const TICKET_TOKEN: usize = 70;

pub const TICKET_ATTEMPT: usize = 71;

pub const FAILED: usize = 72;

pub const ISSUED: usize = 73;

pub const PHASE: usize = 74;

// The first of 16.
pub const BINDINGS: usize = 75;

// Bindings used.
pub const BOUND: usize = 91;

// How many words a queue has.
pub const WORDS: usize = 92;

pub type Words = [u64; WORDS];

// What a call says beside its result: a case, and up to four values; where work is handed out, its ticket and number.
pub type Answer = [u64; 5];

pub const CASE: usize = 0;

pub const VALUE: usize = 1;

pub const WORK_TOKEN: usize = 2;

pub const WORK_ATTEMPT: usize = 3;

// The ticket that a caller names.
pub type TicketWords = [u64; 3];

pub const GIVEN_DOMAIN: usize = 0;

pub const GIVEN_TOKEN: usize = 1;

pub const GIVEN_ATTEMPT: usize = 2;

// An iterator's bindings by value, in their places.
pub type BindingWords = [u64; 16];
