//! Why a saved session does not fit a run.

/// Why a saved session does not fit a run: the first thing that differs, or the first entry that names what there is
/// not.
#[derive(Clone, Copy, Debug)]
pub enum Misfit {
    /// The digest of the run's source, and the other one that the session has.
    Source { run: [u8; 32], saved: [u8; 32] },
    /// The digest of the run's input, and the other one that the session has.
    Input { run: [u8; 32], saved: [u8; 32] },
    /// The budget of the run, in steps, and the other one that the session has.
    Budget { run: u32, saved: u32 },
    /// The entry of this number, counted from 1, judges a call that there is not.
    Call { entry: usize, call: u32 },
    /// The entry of this number, counted from 1, trusts a routine that there is not.
    Routine { entry: usize, routine: u32 },
}
