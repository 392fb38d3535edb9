//! What was found of each address.
ghost use Rattle.effect_log.specs.Paging.{IsPaged};

/// What was found of one address, by the numbers of entries of the log.
#[derive(Clone, Copy)]
pub(crate) struct Cell {
    /// The first that read it before it was changed.
    pub(crate) read: Option<u32>,
    /// The first that asked for it before it was changed.
    pub(crate) answer: Option<u32>,
    /// The last that changed it.
    pub(crate) change: Option<u32>,
}

/// The cell of an address of which nothing was found.
pub(crate) const NOTHING: Cell = Cell {
    read: None,
    answer: None,
    change: None,
};

/// The cells of the addresses below 1,048,576. Nothing was found of those whose page was not made.
#[derive(Drop)]
pub(crate) struct Pages {
    /// Where the cells of each page begin.
    pub(crate) starts: Vec<Option<usize>>,
    /// The cells of the pages, one page after another as they were made.
    pub(crate) cells: Vec<Cell>,
    ghost paged: { IsPaged starts.items cells.items },
}
