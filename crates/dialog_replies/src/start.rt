//! What a dialog starts with.

use session_file::Session;

/// How a run is named in sessions, and the session that the dialog goes on with.
#[derive(Debug, Drop)]
pub struct Start {
    /// SHA-256 of the source's bytes.
    pub source: [u8; 32],
    /// SHA-256 of the input's bytes.
    pub input: [u8; 32],
    /// The most steps of the run, from 1 to 4,000,000.
    pub budget: u32,
    /// The session that is gone on with; none where the dialog begins anew.
    pub saved: Option<Session>,
}
