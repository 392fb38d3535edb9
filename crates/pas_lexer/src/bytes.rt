//! The bytes of a source, ISO 7185 clause 6.1.

ghost use Rattle.std.specs.Prelude.{◌&&◌, ◌+◌, ◌<◌, ◌≡◌, ◌≤◌, IfSome, IsTrue, false, length, nat_eq};
ghost use Rattle.pas_lexer.specs.Lexis.{digit, digit_first, letter, letter_first, letter_or_digit, next_is};
ghost use Rattle.pas_lexer.specs.Lexis.{real_follows, scale_first, separator};
ghost use Rattle.pas_lexer.specs.Reading.{closing, run_length, string_end};

/// A tab, a line feed, a form feed, a carriage return or a space.
pub fn is_separator(c: u8) -> bool
    ensures { result ≡ separator c }
{
    matches!(c, b'\t' | b'\n' | 12 | b'\r' | b' ')
}

/// Whether a letter stands first.
pub fn begins_with_letter(bytes: &[u8]) -> bool
    ensures { result ≡ letter_first bytes.now }
{
    match bytes {
        [] => false,
        [c, ..] => c.is_ascii_alphabetic(),
    }
}

/// Whether a digit stands first.
fn begins_with_digit(bytes: &[u8]) -> bool
    ensures { result ≡ digit_first bytes.now }
{
    match bytes {
        [] => false,
        [c, ..] => c.is_ascii_digit(),
    }
}

/// Whether this byte stands first.
pub fn begins_with(bytes: &[u8], byte: u8) -> bool
    ensures next { result ≡ next_is byte bytes.now }
    ensures room { IsTrue result → 0 < length bytes.now }
{
    match bytes {
        [] => false,
        [c, ..] => *c == byte,
    }
}

/// Whether these two bytes, this one and the first of the rest, are the two.
pub fn is_pair(c: u8, rest: &[u8], first: u8, second: u8) -> bool
    ensures pair { result ≡ (nat_eq c first && next_is second rest.now) }
    ensures room { IsTrue result → 0 < length rest.now }
{
    c == first && begins_with(rest, second)
}

/// Whether digits, or a sign and digits, stand first.
fn begins_with_scale(bytes: &[u8]) -> bool
    ensures { result ≡ scale_first bytes.now }
{
    match bytes {
        [] => false,
        [c, rest @ ..] => {
            if *c == b'+' || *c == b'-' {
                return begins_with_digit(rest);
            }
            c.is_ascii_digit()
        }
    }
}

/// Whether digits in front would go on as a real number, clause 6.1.5.
pub fn real_goes_on(bytes: &[u8]) -> bool
    ensures { result ≡ real_follows bytes.now }
{
    match bytes {
        [] => false,
        [c, rest @ ..] => {
            if *c == b'.' {
                return begins_with_digit(rest);
            }
            if *c == b'e' || *c == b'E' {
                return begins_with_scale(rest);
            }
            false
        }
    }
}

/// How many letters and digits stand first.
pub fn identifier_length(bytes: &[u8]) -> usize
    ensures run { result ≡ run_length letter_or_digit bytes.now }
    ensures inside { result ≤ length bytes.now }
{
    for (n, c) in bytes.iter().enumerate() {
        if !c.is_ascii_alphanumeric() {
            return n;
        }
    }
    bytes.len()
}

/// How many digits stand first.
pub fn digits_length(bytes: &[u8]) -> usize
    ensures run { result ≡ run_length digit bytes.now }
    ensures inside { result ≤ length bytes.now }
{
    for (n, c) in bytes.iter().enumerate() {
        if !c.is_ascii_digit() {
            return n;
        }
    }
    bytes.len()
}

/// How far the first closing symbol of a comment goes, clause 6.1.8.
pub fn comment_end(bytes: &[u8]) -> Option<usize>
    ensures closing { result ≡ closing bytes.now }
    ensures inside { IfSome result (λ n. n ≤ length bytes.now) }
{
    let mut at = 0;
    'body: while at < bytes.len() {
        if bytes[at] == b'}' {
            return Some(at + 1);
        }
        if is_pair(bytes[at], &bytes[at + 1..], b'*', b')') {
            return Some(at + 2);
        }
        at += 1;
    }
    None
}

/// How far the last apostrophe goes that can end a string, whose first apostrophe stands in front, clause
/// 6.1.7. No string goes beyond its line.
pub fn last_apostrophe(bytes: &[u8]) -> Option<usize>
    ensures last { result ≡ string_end false bytes.now }
    ensures inside { IfSome result (λ n. (0 < n) × (n ≤ length bytes.now)) }
{
    let mut last = None;
    let mut pending = false;
    'characters: for (n, c) in bytes.iter().enumerate() {
        if *c == b'\'' {
            pending = !pending;
            if pending {
                last = Some(n + 1);
            }
        } else if pending || *c == b'\n' {
            return last;
        }
    }
    last
}
