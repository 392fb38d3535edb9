//! The terminal symbols of Pascal.

ghost use Rattle.std.specs.Prelude.{◌≡◌, IsTrue};
ghost use Rattle.grammar.specs.Terminals.{is};

/// A terminal symbol of the grammar (ISO 7185 clause 6.1): what is left of a token once its value and its
/// spelling are forgotten. A word symbol is `W` and the word.
#[derive(Clone, Copy, Debug, PartialEq, Eq)]
pub enum Terminal {
    WAnd,
    WArray,
    WBegin,
    WCase,
    WConst,
    WDiv,
    WDo,
    WDownto,
    WElse,
    WEnd,
    WFile,
    WFor,
    WFunction,
    WGoto,
    WIf,
    WIn,
    WLabel,
    WMod,
    WNil,
    WNot,
    WOf,
    WOr,
    WPacked,
    WProcedure,
    WProgram,
    WRecord,
    WRepeat,
    WSet,
    WThen,
    WTo,
    WType,
    WUntil,
    WVar,
    WWhile,
    WWith,
    /// `+`
    Plus,
    /// `-`
    Minus,
    /// `*`
    Star,
    /// `=`
    Equal,
    /// `<`
    Less,
    /// `>`
    Greater,
    /// `[`
    LeftBracket,
    /// `]`
    RightBracket,
    /// `.`
    Dot,
    /// `,`
    Comma,
    /// `:`
    Colon,
    /// `;`
    Semicolon,
    /// `^`
    Caret,
    /// `(`
    LeftParen,
    /// `)`
    RightParen,
    /// `<>`
    NotEqual,
    /// `<=`
    AtMost,
    /// `>=`
    AtLeast,
    /// `:=`
    Becomes,
    /// `..`
    Range,
    /// An identifier.
    Name,
    /// An unsigned integer.
    Number,
    /// A character string.
    Text,
    /// What stands after the last token of a source.
    End,
}

impl Terminal {
    /// Whether this is that terminal.
    pub fn is(self, wanted: Terminal) -> bool
        ensures tests { result ≡ is wanted self }
        ensures equal { IsTrue result → self ≡ wanted }
    {
        self == wanted
    }
}
