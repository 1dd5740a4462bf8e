// A log's text read: the opening, then the rows.
#![tactic(auto)]

mod opening;
mod textread;
mod textrows;

pub use textread::{BadLine, TextRead, read_text};
