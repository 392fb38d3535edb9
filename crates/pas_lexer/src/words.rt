//! The word symbols, ISO 7185 clause 6.1.2.

ghost use Rattle.std.specs.Prelude.{◌≡◌};
ghost use Rattle.pas_lexer.specs.{Lexicon.word_text, Lexis.lower_case, Reading.word_among, Reading.word_in};

use crate::kinds::Word;

/// Each word symbol.
const WORDS: [Word; 35] = [
    Word::WAnd,
    Word::WArray,
    Word::WBegin,
    Word::WCase,
    Word::WConst,
    Word::WDiv,
    Word::WDo,
    Word::WDownto,
    Word::WElse,
    Word::WEnd,
    Word::WFile,
    Word::WFor,
    Word::WFunction,
    Word::WGoto,
    Word::WIf,
    Word::WIn,
    Word::WLabel,
    Word::WMod,
    Word::WNil,
    Word::WNot,
    Word::WOf,
    Word::WOr,
    Word::WPacked,
    Word::WProcedure,
    Word::WProgram,
    Word::WRecord,
    Word::WRepeat,
    Word::WSet,
    Word::WThen,
    Word::WTo,
    Word::WType,
    Word::WUntil,
    Word::WVar,
    Word::WWhile,
    Word::WWith,
];

impl Word {
    /// The word symbol in lower case.
    pub fn text(self) -> &'static [u8]
        ensures { result.now ≡ word_text self }
    {
        match self {
            Word::WAnd => b"and",
            Word::WArray => b"array",
            Word::WBegin => b"begin",
            Word::WCase => b"case",
            Word::WConst => b"const",
            Word::WDiv => b"div",
            Word::WDo => b"do",
            Word::WDownto => b"downto",
            Word::WElse => b"else",
            Word::WEnd => b"end",
            Word::WFile => b"file",
            Word::WFor => b"for",
            Word::WFunction => b"function",
            Word::WGoto => b"goto",
            Word::WIf => b"if",
            Word::WIn => b"in",
            Word::WLabel => b"label",
            Word::WMod => b"mod",
            Word::WNil => b"nil",
            Word::WNot => b"not",
            Word::WOf => b"of",
            Word::WOr => b"or",
            Word::WPacked => b"packed",
            Word::WProcedure => b"procedure",
            Word::WProgram => b"program",
            Word::WRecord => b"record",
            Word::WRepeat => b"repeat",
            Word::WSet => b"set",
            Word::WThen => b"then",
            Word::WTo => b"to",
            Word::WType => b"type",
            Word::WUntil => b"until",
            Word::WVar => b"var",
            Word::WWhile => b"while",
            Word::WWith => b"with",
        }
    }
}

/// The first of the words that a text spells. Letter case does not matter.
fn first_spelled(words: &[Word], text: &[u8]) -> Option<Word>
    ensures { result ≡ word_among words.now (lower_case text.now) }
{
    for word in words {
        if text.eq_ignore_ascii_case(word.text()) {
            return Some(*word);
        }
    }
    None
}

/// The word symbol that a text spells. Letter case does not matter.
#[tactic(auto, unfolding(crate::specs::Reading::word_in))]
pub fn word_of(text: &[u8]) -> Option<Word>
    ensures { result ≡ word_in text.now }
{
    first_spelled(&WORDS, text)
}
