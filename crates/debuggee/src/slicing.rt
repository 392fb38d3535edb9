//! Which output a word stands for.
ghost use Rattle.std.specs.Prelude.{◌≡◌};
ghost use Rattle.debuggee.specs.Slicing.{output_of_word};

use output_slice::Output;

/// The output that a word stands for. Letter case counts.
pub(crate) fn output_of_word(word: &[u8]) -> Option<Output>
    ensures { result ≡ output_of_word word.now }
{
    if word == b"result".as_slice() {
        Some(Output::Result)
    } else if word == b"gives".as_slice() {
        Some(Output::Gives)
    } else if word == b"takes".as_slice() {
        Some(Output::Takes)
    } else if word == b"makes".as_slice() {
        Some(Output::Makes)
    } else if word == b"way".as_slice() {
        Some(Output::Way)
    } else {
        None
    }
}
