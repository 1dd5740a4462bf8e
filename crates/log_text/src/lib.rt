// A log as text: the opening and the rows are read from it, and the reader's answer is written as two lines.
#![tactic(auto)]

mod answer;
mod figures;
mod filling;
mod report;

pub use answer::respond;
pub use filling::read_full;
