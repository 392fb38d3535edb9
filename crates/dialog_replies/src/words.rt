//! The words of a line.
ghost use Rattle.std.specs.Prelude.{◌∷◌, ◌≡◌, ◌≤◌, [], IfSome, length, not};
ghost use Rattle.std.specs.Option.{MatchOption};
ghost use Rattle.dialog_replies.specs.Words.{after_blanks, after_word, before_blanks, count_while, is_space_or_tab};
ghost use Rattle.dialog_replies.specs.Words.{solid_end, words};

/// A space or a tab.
fn is_space_or_tab(c: u8) -> bool
    ensures { result ≡ is_space_or_tab c }
{
    c == b' ' || c == b'\t'
}

/// How many blanks stand first.
fn blanks(text: &[u8]) -> usize
    ensures counted { result ≡ count_while is_space_or_tab text.now }
    ensures inside { result ≤ length text.now }
{
    let mut n = 0;
    for c in text {
        if !is_space_or_tab(*c) {
            return n;
        }
        n += 1;
    }
    n
}

/// How many bytes stand first that are no blanks.
fn solid(text: &[u8]) -> usize
    ensures counted { result ≡ count_while (λ c. not (is_space_or_tab c)) text.now }
    ensures inside { result ≤ length text.now }
{
    let mut n = 0;
    for c in text {
        if is_space_or_tab(*c) {
            return n;
        }
        n += 1;
    }
    n
}

/// What follows the blanks that stand first.
pub fn after_blanks(text: &[u8]) -> &[u8]
    ensures { result.now ≡ after_blanks text.now }
{
    &text[blanks(text)..]
}

/// Where the last byte of a text that is no blank ends.
fn solid_end(text: &[u8]) -> usize
    ensures ends { result ≡ solid_end text.now (length text.now) }
    ensures inside { result ≤ length text.now }
{
    let mut end = text.len();
    'blanks: while end > 0 {
        if !is_space_or_tab(text[end - 1]) {
            return end;
        }
        end -= 1;
    }
    end
}

/// A text without the blanks that stand last.
pub fn before_blanks(text: &[u8]) -> &[u8]
    ensures { result.now ≡ before_blanks text.now }
{
    &text[..solid_end(text)]
}

/// The first word of a text, if there is one, and what follows it.
pub fn first_word(text: &[u8]) -> Option<(&[u8], &[u8])>
    ensures first { MatchOption result (words text.now ≡ [])
        (λ parts. words text.now ≡ parts.0.now ∷ words parts.1.now) }
    ensures rest { IfSome result (λ parts. parts.1.now ≡ after_word text.now) }
{
    let from = after_blanks(text);
    let end = solid(from);
    if end == 0 {
        return None;
    }
    Some((&from[..end], &from[end..]))
}
