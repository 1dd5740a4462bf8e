// The script on standard input, line by line: what has come is answered before more is waited for.
ghost use Rattle.std.specs.Prelude.{◌≡◌, ◌≤◌, length, take};

use cleanup_queue::Refusal;
use csv_lines::line_at;
use std::io::Read;

#[derive(Clone, Copy)]
pub struct Call {
    pub number: u64,
    pub a: u64,
    pub b: u64,
    pub c: u64,
    pub d: u64,
}

// The bytes of the chunk that are read and not yet looked at.
#[derive(Clone, Copy)]
pub struct Input {
    pub at: usize,
    pub end: usize,
}

fn refilled<R: Read>(from: &mut R, chunk: &mut [u8; 4096], input: Input) -> Input {
    if input.at < input.end {
        return input;
    }
    // A read that fails counts as the input's end.
    let end = from.read(chunk).unwrap_or(0);
    Input { at: 0, end }
}

// None where the input has ended.
fn next_byte<R: Read>(from: &mut R, chunk: &mut [u8; 4096], input: Input) -> Option<(u8, Input)> {
    let now = refilled(from, chunk, input);
    if now.end <= now.at {
        return None;
    }
    let byte = *chunk.get(now.at)?;
    Some((
        byte,
        Input {
            at: now.at + 1,
            end: now.end,
        },
    ))
}

#[derive(Clone, Copy)]
struct Gathered {
    pub count: usize,
    pub input: Input,
}

// The bytes up to an LF, the input's end, or the end of the space: no good line is as long as that.
fn gather<R: Read>(from: &mut R, chunk: &mut [u8; 4096], input: Input, line: &mut [u8]) -> Gathered
    ensures within { result.count ≤ length line.new }
    ensures prefix_len { result.count ≡ length (take result.count line.new) }
{
    let mut now = input;
    for count in 0..line.len() {
        let Some((byte, after)) = next_byte(from, chunk, now) else {
            return Gathered { count, input: now };
        };
        now = after;
        line[count] = byte;
        if byte == b'\n' {
            return Gathered {
                count: count + 1,
                input: now,
            };
        }
    }
    Gathered {
        count: line.len(),
        input: now,
    }
}

// A call and what is left of the chunk, None where the input has ended, or the refusal of a line that is none.
pub type Step = Result<Option<(Call, Input)>, Refusal>;

pub fn next_line<R: Read>(from: &mut R, chunk: &mut [u8; 4096], input: Input) -> Step {
    let mut line = [0u8; 128];
    let got = gather(from, chunk, input, &mut line);
    if got.count == 0 {
        return Ok(None);
    }
    let (row, _) = line_at(&line[..got.count], 0).ok_or(Refusal::BadText)?;
    Ok(Some((
        Call {
            number: row.kind,
            a: row.token,
            b: row.attempt,
            c: row.outcome,
            d: row.number,
        },
        got.input,
    )))
}
