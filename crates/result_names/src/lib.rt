// The name of each result, for a log file or a message: 24 bytes of ASCII, with 0 behind the name. C asks by the number.
#![tactic(auto)]

ghost use Rattle.std.specs.Prelude.{◌≡◌};
ghost use Rattle.result_names.specs.Names.{result_text, result_length};

// A name always leaves room for a 0, which ends a text of C.
pub type Text = [u8; 24];

// By their numbers: done, then the refusals.
const NAMES: [[u8; 24]; 22] = [
    *b"ok\0\0\0\0\0\0\0\0\0\0\0\0\0\0\0\0\0\0\0\0\0\0",
    *b"broken\0\0\0\0\0\0\0\0\0\0\0\0\0\0\0\0\0\0",
    *b"bad_number\0\0\0\0\0\0\0\0\0\0\0\0\0\0",
    *b"no_slot\0\0\0\0\0\0\0\0\0\0\0\0\0\0\0\0\0",
    *b"not_pending\0\0\0\0\0\0\0\0\0\0\0\0\0",
    *b"no_attempt\0\0\0\0\0\0\0\0\0\0\0\0\0\0",
    *b"not_out\0\0\0\0\0\0\0\0\0\0\0\0\0\0\0\0\0",
    *b"kept_on_done\0\0\0\0\0\0\0\0\0\0\0\0",
    *b"no_retry\0\0\0\0\0\0\0\0\0\0\0\0\0\0\0\0",
    *b"hollow\0\0\0\0\0\0\0\0\0\0\0\0\0\0\0\0\0\0",
    *b"no_group\0\0\0\0\0\0\0\0\0\0\0\0\0\0\0\0",
    *b"groups_full\0\0\0\0\0\0\0\0\0\0\0\0\0",
    *b"sealed\0\0\0\0\0\0\0\0\0\0\0\0\0\0\0\0\0\0",
    *b"not_drained\0\0\0\0\0\0\0\0\0\0\0\0\0",
    *b"too_many_bindings\0\0\0\0\0\0\0",
    *b"bad_outcome\0\0\0\0\0\0\0\0\0\0\0\0\0",
    *b"bad_log\0\0\0\0\0\0\0\0\0\0\0\0\0\0\0\0\0",
    *b"log_full\0\0\0\0\0\0\0\0\0\0\0\0\0\0\0\0",
    *b"bad_text\0\0\0\0\0\0\0\0\0\0\0\0\0\0\0\0",
    *b"no_id\0\0\0\0\0\0\0\0\0\0\0\0\0\0\0\0\0\0\0",
    *b"nothing_kept\0\0\0\0\0\0\0\0\0\0\0\0",
    *b"no_further_attempt\0\0\0\0\0\0",
];

const LENGTHS: [u64; 22] = [
    2, 6, 10, 7, 11, 10, 7, 12, 8, 6, 8, 11, 6, 11, 17, 11, 7, 8, 8, 5, 12, 18,
];

// The name in its places; a number that is no result is unknown.
pub fn text_of(number: u64) -> Text
    ensures { result ≡ result_text number }
{
    if number < 22 {
        return NAMES[number as usize];
    }
    *b"unknown\0\0\0\0\0\0\0\0\0\0\0\0\0\0\0\0\0"
}

// How many bytes the name has.
pub fn length_of(number: u64) -> u64
    ensures { result ≡ result_length number }
{
    if number < 22 {
        return LENGTHS[number as usize];
    }
    7
}
