// The whole answer to a text, as the driver writes it.
ghost use Rattle.std.specs.Prelude.{◌≡◌, ◌≤◌, length, take};
ghost use Rattle.log_text.specs.Answers.{Responds};

use crate::figures::figures_for;
use crate::report::report;

pub fn respond(text: &[u8], out: &mut [u8; 256]) -> usize
    ensures responds { Responds text.now out.old result out.new }
    ensures within { result ≤ length out.new }
    ensures prefix_len { result ≡ length (take result out.new) }
{
    report(figures_for(text), out)
}
