// Lines of decimals on standard output, put together on a page and written when they end or fill it.
use csv_lines::decimal;
use std::io::Write;

#[derive(Clone, Copy)]
pub struct Pen {
    // How much of the page is filled.
    pub at: usize,
    // Whether the output still takes what is written.
    pub open: bool,
}

pub fn fresh() -> Pen {
    Pen { at: 0, open: true }
}

fn put(page: &mut [u8; 4096], pen: Pen, byte: u8) -> Pen {
    let at = pen.at;
    if 4096 <= at {
        return pen;
    }
    page[at] = byte;
    Pen {
        at: at + 1,
        open: pen.open,
    }
}

fn put_all(page: &mut [u8; 4096], pen: Pen, bytes: &[u8]) -> Pen {
    let mut now = pen;
    for byte in bytes {
        now = put(page, now, *byte);
    }
    now
}

// Writes the page; after a write that failed, nothing more.
fn send<W: Write>(output: &mut W, page: &[u8], pen: Pen) -> Pen {
    let at = pen.at;
    if !pen.open {
        return pen;
    }
    if page.len() < at {
        return pen;
    }
    let taken = output.write_all(&page[..at]).is_ok();
    Pen { at: 0, open: taken }
}

fn put_digits(page: &mut [u8; 4096], pen: Pen, n: u64) -> Pen {
    let mut digits = [0u8; 20];
    let count = decimal(n, &mut digits);
    put_all(page, pen, &digits[..count])
}

// A number and the comma behind it; a page with no room for them and a line's end is written first.
pub fn number<W: Write>(output: &mut W, page: &mut [u8; 4096], pen: Pen, n: u64) -> Pen {
    let mut now = pen;
    if 4000 < pen.at {
        now = send(output, page, pen);
    }
    // Most numbers have one digit, which is quick to write.
    if n < 10 {
        now = put(page, now, b'0' + n as u8);
    } else {
        now = put_digits(page, now, n);
    }
    put(page, now, b',')
}

pub fn numbers<W: Write>(output: &mut W, page: &mut [u8; 4096], pen: Pen, values: &[u64]) -> Pen {
    let mut now = pen;
    for value in values {
        now = number(output, page, now, *value);
    }
    now
}

// The line's end takes the place of the last comma.
pub fn end_line<W: Write>(output: &mut W, page: &mut [u8; 4096], pen: Pen) -> Pen {
    let at = pen.at;
    if at == 0 {
        return pen;
    }
    let last = Pen {
        at: at - 1,
        open: pen.open,
    };
    let back = put(page, last, b'\r');
    let ended = put(page, back, b'\n');
    send(output, page, ended)
}
