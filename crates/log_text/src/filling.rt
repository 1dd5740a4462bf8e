// A reader's bytes, as many as a lent buffer holds.
ghost use Rattle.std.specs.Prelude.{◌≤◌, length};

use std::io::Read;

// As many bytes as the space has, or as there are; handed back is how many. A read that fails counts as the input's end.
pub fn read_full<R: Read>(input: &mut R, space: &mut [u8]) -> usize
    ensures { result ≤ length space.new }
{
    let mut count = 0;
    // No index is counted: each read says how many bytes came, so there is no range to go over.
    while count < space.len() {
        let got = match input.read(&mut space[count..]) {
            Ok(more) => more,
            Err(_) => 0,
        };
        if got == 0 {
            break;
        }
        count += got;
    }
    count
}
