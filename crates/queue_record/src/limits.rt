// R135: how much a queue takes: tokens in all, and an iterator's bindings.
pub const MOST_TOKENS: u64 = 64;

pub const MOST_BINDINGS: u64 = 16;
