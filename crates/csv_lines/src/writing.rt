// A number put at a buffer's start as its decimal.
ghost use Rattle.std.specs.Prelude.{◌≡◌, ◌≤◌, length, take};
ghost use Rattle.csv_lines.specs.Form.{spelled, decimal};

// As many digits as there are, at most so many; handed back is how many. The last one goes behind those of the rest.
fn spell(n: u64, most: usize, out: &mut [u8]) -> usize
    requires { most ≤ length out.old }
    ensures short { result ≤ most }
    ensures count { result ≡ length (spelled most n) }
    ensures digits { take result out.new ≡ spelled most n }
{
    if most == 0 {
        return 0;
    }
    if n < 10 {
        out[0] = b'0' + n as u8;
        return 1;
    }
    let at = spell(n / 10, most - 1, out);
    out[at] = b'0' + (n % 10) as u8;
    at + 1
}

#[tactic(auto, unfolding(crate::specs::Form::decimal))]
pub fn decimal(n: u64, out: &mut [u8; 20]) -> usize
    ensures short { result ≤ 20 }
    ensures count { result ≡ length (decimal n) }
    ensures digits { take result out.new ≡ decimal n }
{
    spell(n, 20, out)
}
