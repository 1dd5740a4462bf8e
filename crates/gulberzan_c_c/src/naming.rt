// The name of a result, for a log file or a message.
ghost use Rattle.std.specs.Prelude.{◌≡◌};
ghost use Rattle.result_names.specs.Names.{result_text, result_length};

use result_names::Text;

// Every byte of the text is written, 0 behind the name; the answer is the name's length.
#[unsafe(no_mangle)]
pub extern "C" fn gulberzan_result_text(number: u64, text: &mut Text) -> u64
    ensures { (result ≡ result_length number) × (text.new ≡ result_text number) }
{
    gulberzan_c::gulberzan_result_text(number, text)
}
