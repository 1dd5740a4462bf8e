// R132: the answer as two lines of text, put into a lent buffer.
ghost use Rattle.std.specs.Prelude.{◌≡◌, ◌++◌, ◌+◌, ◌*◌, ◌≤◌, length};
ghost use Rattle.csv_lines.specs.Form.{decimal};
ghost use Rattle.log_text.specs.Report.{pasted, fields, report_text};

use csv_lines::decimal;

#[derive(Clone, Copy)]
pub struct Figures {
    pub result: u64,
    pub rows: u64,
    pub tokens: u64,
    pub waiting: u64,
    pub selected: u64,
    pub issued: u64,
    pub failed: u64,
}

// The place behind is handed back: what comes next goes there.
#[tactic(auto, unfolding(crate::specs::Report::pasted))]
fn put(out: &mut [u8], at: usize, bytes: &[u8]) -> usize
    requires { at + length bytes.now ≤ length out.old }
    ensures value { result ≡ at + length bytes.now }
    ensures out_after { out.new ≡ pasted out.old at bytes.now }
{
    let end = at + bytes.len();
    out[at..end].copy_from_slice(bytes);
    end
}

// No number of the answer stands alone: a comma or the line's end goes with it.
fn put_number(out: &mut [u8], at: usize, n: u64, behind: &[u8]) -> usize
    requires { at + 20 + length behind.now ≤ length out.old }
    ensures value { result ≡ at + length (decimal n ++ behind.now) }
    ensures out_after { out.new ≡ pasted out.old at (decimal n ++ behind.now) }
{
    let mut digits = [0u8; 20];
    let count = decimal(n, &mut digits);
    let end = put(out, at, &digits[..count]);
    put(out, end, behind)
}

// The last value is written apart, since a line's end stands behind it and no comma.
fn put_fields(out: &mut [u8], from: usize, numbers: &[u64]) -> usize
    requires { from + 21 * length numbers.now ≤ length out.old }
    ensures value { result ≡ from + length (fields numbers.now) }
    ensures out_after { out.new ≡ pasted out.old from (fields numbers.now) }
{
    let mut at = from;
    for number in numbers {
        at = put_number(out, at, *number, b",");
    }
    at
}

// 256 bytes hold both lines, whatever the seven numbers are: 51, and at most 148.
pub(crate) fn report(f: Figures, out: &mut [u8]) -> usize
    requires { length out.old ≡ 256 }
    ensures value { result ≡ length (report_text f) }
    ensures out_after { out.new ≡ pasted out.old 0 (report_text f) }
{
    let named = put(
        out,
        0,
        b"result,rows,tokens,waiting,selected,issued,failed\r\n",
    );
    let six = [f.result, f.rows, f.tokens, f.waiting, f.selected, f.issued];
    let last = put_fields(out, named, &six);
    put_number(out, last, f.failed, b"\r\n")
}
