// The driver over many texts in one run, for tests: frames on standard input, an answer for each on standard output.
// A frame is eight digits, the text's length, a line feed, and the text.
#![tactic(auto)]

ghost use Rattle.std.specs.Prelude.{◌≤◌};

use log_text::{read_full, respond};
use std::io::{Read, Write};

// The value of a digit; of any other byte, 0.
fn digit(byte: u8) -> usize
    ensures { result ≤ 9 }
{
    match byte {
        b'0'..=b'9' => (byte - b'0') as usize,
        _ => 0,
    }
}

fn four_digits(a: u8, b: u8, c: u8, d: u8) -> usize
    ensures { result ≤ 9999 }
{
    digit(a) * 1000 + digit(b) * 100 + digit(c) * 10 + digit(d)
}

fn frame_length(head: [u8; 9]) -> usize {
    let high = four_digits(head[0], head[1], head[2], head[3]);
    let low = four_digits(head[4], head[5], head[6], head[7]);
    high * 10000 + low
}

// What a text has beyond the limit's first byte is passed over, byte by byte.
fn skip<R: Read>(input: &mut R, count: usize) {
    for _ in 0..count {
        let mut byte = [0u8; 1];
        if read_full(input, &mut byte) == 0 {
            return;
        }
    }
}

fn answer_text<W: Write>(output: &mut W, text: &[u8]) {
    let mut answer = [0u8; 256];
    let length = respond(text, &mut answer);
    let _ = output.write_all(&answer[..length]);
}

// As many bytes as the space has, or as there are.
fn answer_next<R: Read, W: Write>(input: &mut R, output: &mut W, space: &mut [u8]) {
    let count = read_full(input, space);
    answer_text(output, &space[..count]);
}

fn answer_frame<R: Read, W: Write>(input: &mut R, output: &mut W, length: usize) {
    let mut text = [0u8; 32769];
    if length < 32769 {
        answer_next(input, output, &mut text[..length]);
        return;
    }
    answer_next(input, output, &mut text);
    skip(input, length - 32769);
}

fn main(rt: HostRuntime) {
    let mut input = rt.stdin();
    let mut output = rt.stdout();
    for _ in 0..1000000 {
        let mut head = [0u8; 9];
        if read_full(&mut input, &mut head) < 9 {
            return;
        }
        answer_frame(&mut input, &mut output, frame_length(head));
    }
}
