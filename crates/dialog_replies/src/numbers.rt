//! The numbers of a line.
ghost use Rattle.std.specs.Prelude.{◌≡◌};
ghost use Rattle.dialog_replies.specs.Numbers.{number_of, routine_number};

/// The most digits of a number.
const MOST_DIGITS: usize = 9;

/// The number that a word spells: one to nine decimal digits, leading zeros among them.
pub fn number_in(word: &[u8]) -> Option<u32>
    ensures { result ≡ number_of word.now }
{
    if word.is_empty() || word.len() > MOST_DIGITS {
        return None;
    }
    let mut number: u32 = 0;
    for digit in word {
        if !digit.is_ascii_digit() {
            return None;
        }
        number = number * 10 + (*digit - b'0') as u32;
    }
    Some(number)
}

/// The number of a routine, which a word spells after `#`.
pub fn routine_number(word: &[u8]) -> Option<u32>
    ensures { result ≡ routine_number word.now }
{
    match word {
        [b'#', digits @ ..] => number_in(digits),
        _ => None,
    }
}
