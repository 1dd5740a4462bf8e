// The driver: a log's text on standard input, the reader's answer on standard output.
#![tactic(auto)]

use log_text::{read_full, respond};
use std::io::Write;

// One byte more than a text may have tells a longer one.
fn main(rt: HostRuntime) {
    let mut text = [0u8; 32769];
    let count = read_full(&mut rt.stdin(), &mut text);
    let mut answer = [0u8; 256];
    let length = respond(&text[..count], &mut answer);
    let _ = rt.stdout().write_all(&answer[..length]);
}
