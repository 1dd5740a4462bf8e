// R1 to R10: the parts of a queue record. Any value of these types is a legal argument of every call: a count stands beside its
// slots, and a bound beside its bindings, since a type that ties them would shut out the spoiled record that a call must refuse.
use stage::Phase;

#[derive(Clone, Copy, Debug, PartialEq, Eq)]
pub enum Kind {
    Scope,
    Iterator,
}

#[derive(Clone, Copy, Debug, PartialEq, Eq)]
pub struct Ticket {
    pub domain: u64,
    pub token: u64,
    pub attempt: u64,
}

#[derive(Clone, Copy, Debug, PartialEq, Eq)]
pub struct Queue {
    pub kind: Kind,
    pub domain: u64,
    // The next attempt number.
    pub next: u64,
    // An undo number a token; 0 is an empty slot.
    pub slots: [u64; 64],
    // Tokens issued so far.
    pub count: u64,
    pub selection: Option<Ticket>,
    pub failed: bool,
    pub issued: bool,
    pub phase: Phase,
    // The committed bindings, as given.
    pub bindings: [u64; 16],
    pub bound: u64,
}
