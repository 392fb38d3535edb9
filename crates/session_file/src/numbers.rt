//! Numbers of JSON, of which only whole ones from 0 to 2^64 - 1 are wanted.
ghost use Rattle.std.specs.Prelude.{◌<◌, ◌==◌, ◌≡◌, IsTrue, false, length, option_map, slice_index, true};
ghost use Rattle.serde_json.specs.{Find.as_u64, Read.float_of, Read.number_from, Read.number_of};

use fast_float::Numeral;

/// A number that is no whole number from 0 to 2^64 - 1, if there is a float near it.
fn other_number(negative: bool, numeral: &Numeral<'_>) -> Option<Option<u64>>
    ensures { result ≡ option_map as_u64 (float_of negative numeral.now) }
{
    let number = numeral.to_float::<f64>(negative);
    if number.is_finite() { Some(None) } else { None }
}

/// The number of these digits.
fn unsigned_number(numeral: &Numeral<'_>) -> Option<Option<u64>>
    ensures { result ≡ option_map as_u64 (number_from false numeral.now) }
{
    match numeral.to_u64() {
        Some(number) => Some(Some(number)),
        None => other_number(false, numeral),
    }
}

/// The number of these digits after a minus.
fn negative_number(numeral: &Numeral<'_>) -> Option<Option<u64>>
    ensures { result ≡ option_map as_u64 (number_from true numeral.now) }
{
    if let Some(number) = numeral.to_i64(true) {
        if number < 0 {
            return Some(None);
        }
    }
    other_number(true, numeral)
}

/// The whole number from 0 to 2^64 - 1 that the text of a number is, if it is one, or none at all where the number is
/// beyond all floats.
pub fn whole_number(text: &str) -> Option<Option<u64>>
    ensures { result ≡ option_map as_u64 (number_of text.now) }
{
    let bytes = text.as_bytes();
    if has_minus(bytes) {
        negative_number(&Numeral::scan(&bytes[1..]))
    } else {
        unsigned_number(&Numeral::scan(bytes))
    }
}

/// Whether a minus stands first.
fn has_minus(bytes: &[u8]) -> bool
    ensures value { result ≡ (slice_index bytes.now 0 == 45) }
    ensures some { IsTrue result → 0 < length bytes.now }
{
    !bytes.is_empty() && bytes[0] == b'-'
}
