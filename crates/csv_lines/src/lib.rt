// R125, R126: decimals, and lines of five of them, on lent bytes.
#![tactic(auto)]

mod line;
mod number;
mod writing;

pub use line::{Line, line_at};
pub use writing::decimal;
