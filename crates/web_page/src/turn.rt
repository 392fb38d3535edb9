//! What a turn is given, and how it comes out.

/// A file by its name.
#[derive(Clone, Copy, Debug)]
pub struct NamedFile<'a> {
    /// The name.
    pub name: &'a str,
    /// All its bytes.
    pub bytes: &'a [u8],
}

/// What a turn is given.
#[derive(Clone, Copy, Debug)]
pub struct PageTurn<'a> {
    /// The source.
    pub source: &'a [u8],
    /// The input.
    pub input: &'a [u8],
    /// The digits of the steps that the run may take.
    pub budget: &'a str,
    /// A saved session about this source that is gone on with, if there is one.
    pub session: Option<&'a [u8]>,
    /// Further files, which lines of the console may name. The last of a name counts, and none of them counts where it
    /// has the name of the source, of the input, or of the session that is gone on with.
    pub files: &'a [NamedFile<'a>],
    /// The lines of the console.
    pub console: &'a [u8],
}

/// The session that lines of the console saved.
#[derive(Clone, Copy, Debug)]
pub enum SavedSession {
    /// None was saved.
    Absent,
    /// It is the front of the room for it, of so many bytes.
    Whole(usize),
    /// It is longer than the room for it.
    TooLong,
    /// Memory ran out before it was known.
    Memory,
}

/// How a turn came out.
#[derive(Clone, Copy, Debug)]
pub struct TurnOutcome {
    /// The exit status of the command.
    pub status: u8,
    /// How many bytes the screen got: so many stand at the front of the room for it.
    pub screen: usize,
    /// The session that was saved.
    pub saved: SavedSession,
}
