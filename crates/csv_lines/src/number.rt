// A decimal read from a text: no sign, no space, no leading zero, nothing above a u64.
ghost use Rattle.std.specs.Prelude.{◌≡◌, drop};
ghost use Rattle.csv_lines.specs.Reading.{is_digit, digit_of, more_digits, number_at};

// The value, and the place behind it.
pub type Number = Option<(u64, usize)>;

#[tactic(auto, unfolding(crate::specs::Reading::is_digit))]
fn is_digit(byte: u8) -> bool
    ensures { result ≡ is_digit byte }
{
    b'0' <= byte && byte <= b'9'
}

#[tactic(auto, unfolding(crate::specs::Reading::digit_of))]
fn digit_of(byte: u8) -> u64
    ensures { result ≡ digit_of byte }
{
    byte.saturating_sub(b'0') as u64
}

// The digits behind a first one, as many as there are.
#[tactic(auto, using(crate::proofs::Digits::digits_steps))]
fn more_digits(text: &[u8], from: usize, first: u64) -> Number
    ensures { result ≡ more_digits first from (drop from text.now) }
{
    let mut value = first;
    for at in from..text.len() {
        let byte = text[at];
        if !is_digit(byte) {
            return Some((value, at));
        }
        value = value.checked_mul(10)?.checked_add(digit_of(byte))?;
    }
    Some((value, from.max(text.len())))
}

// The decimal that starts at a place. Behind a leading 0 nothing is taken, so that a longer one is bad at its next byte.
#[tactic(auto, unfolding(crate::specs::Reading::number_at))]
pub(crate) fn number_at(text: &[u8], at: usize) -> Number
    ensures { result ≡ number_at text.now at }
{
    let byte = *text.get(at)?;
    if !is_digit(byte) {
        return None;
    }
    if byte == b'0' {
        return Some((0, at + 1));
    }
    more_digits(text, at + 1, digit_of(byte))
}
