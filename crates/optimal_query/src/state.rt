//! The state of the search.

/// What the search has come to.
#[derive(Clone, Copy, Debug, PartialEq, Eq)]
pub enum SearchState {
    /// There are suspects, and this one is asked about: its number, how many suspects stand in its
    /// subtree, how many there are in all, and how many the worse answer leaves.
    Ask {
        call: u32,
        weight: u32,
        suspects: u32,
        left: u32,
    },
    /// No suspect and no doubt is left, and this call is accused.
    Found(u32),
    /// No suspect is left but there are doubts, and this call is accused.
    Narrowed(u32),
    /// No suspect and no doubt is left, and no call is accused.
    NothingWrong,
    /// No suspect is left but there are doubts, and no call is accused.
    Unclear,
}
