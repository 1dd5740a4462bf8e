// A script run to its end: each line is obeyed, and answered before the next one is read.
use crate::answers::Said;
use crate::script::Input;
use crate::subjects::Subject;
use crate::{answers, held, out, script, setting, subjects};
use std::io::{Read, Write};

// A proved run has to end, and no script has so many lines.
const LINES: u64 = 1000000000000;

// Answers a line; whether the run goes on to the next one. Nothing is written behind what a line shows.
fn tell<W: Write>(output: &mut W, page: &mut [u8; 4096], said: Said, line: u64, used: u64) -> bool {
    let Some(seven) = answers::columns(said, line, used) else {
        return true;
    };
    let whole = out::numbers(output, page, out::fresh(), &seven);
    let taken = out::end_line(output, page, whole).open;
    taken && !matches!(said, Said::NoCall)
}

pub fn run<R: Read, W: Write>(
    from: &mut R,
    output: &mut W,
    log: &mut [u64; 20500],
    chunk: &mut [u8; 4096],
    page: &mut [u8; 4096],
) {
    let mut h = held::start();
    let mut g = held::first_groups();
    let mut input = Input { at: 0, end: 0 };
    for line in 1..LINES {
        let (call, after) = match script::next_line(from, chunk, input) {
            Ok(Some(next)) => next,
            // An empty script has a bad line 1.
            Ok(None) if 1 < line => return,
            _ => {
                tell(output, page, Said::NoCall, line, h.used);
                return;
            }
        };
        input = after;
        let said = match subjects::subject_of(call.number) {
            Subject::Held => {
                let turned = subjects::on_held(h, call, log);
                h = turned.held;
                turned.said
            }
            Subject::Groups => {
                let grouped = subjects::on_groups(g, call, h);
                g = grouped.groups;
                grouped.said
            }
            Subject::Seen => {
                let turned = subjects::on_seen(h, g, call.a);
                h = turned.held;
                turned.said
            }
            Subject::Shown => subjects::show(output, page, h, g, call.number, log),
            Subject::All => {
                h = held::start();
                g = held::first_groups();
                setting::clear(log)
            }
            Subject::NoCall => Said::NoCall,
        };
        if !tell(output, page, said, line, h.used) {
            return;
        }
    }
}
