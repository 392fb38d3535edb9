//! What comes of cases and rows.

use std::alloc::{AllocError, Global};
use std::fmt::Display;
use std::io::Write;

/// How many cases or rows passed, how many failed, and what is said of them.
#[derive(Drop)]
pub(crate) struct Judged {
    pub(crate) passed: u32,
    pub(crate) failed: u32,
    pub(crate) said: Vec<u8>,
}

impl Judged {
    /// Nothing yet.
    pub(crate) fn new(alloc: Global) -> Judged {
        Judged {
            passed: 0,
            failed: 0,
            said: Vec::new(alloc),
        }
    }

    /// Counts a row, which passed if what is seen is what is wanted. Else both are said in full.
    pub(crate) fn judge(
        &mut self,
        row: &str,
        wanted: &[u8],
        seen: &[u8],
    ) -> Result<(), AllocError> {
        if wanted == seen {
            self.passed = self.passed.saturating_add(1);
            return Ok(());
        }
        self.failed = self.failed.saturating_add(1);
        append_difference(row, wanted, seen, &mut self.said)
    }

    /// Counts the case of this name, which passed if nothing differs, and says so.
    pub(crate) fn judge_case(&mut self, name: &str, differs: &[u8]) -> Result<(), AllocError> {
        let word = if differs.is_empty() {
            self.passed = self.passed.saturating_add(1);
            "ok "
        } else {
            self.failed = self.failed.saturating_add(1);
            "FAILED "
        };
        append_all(
            &[word.as_bytes(), name.as_bytes(), b"\n", differs],
            &mut self.said,
        )
    }

    /// Adds the rows of the list of this name, and says how many of them failed, or passed where none did.
    pub(crate) fn add(&mut self, name: &str, rows: &Judged) -> Result<(), AllocError> {
        self.passed = self.passed.saturating_add(rows.passed);
        self.failed = self.failed.saturating_add(rows.failed);
        let (word, count) = if rows.failed == 0 {
            ("ok ", rows.passed)
        } else {
            ("FAILED ", rows.failed)
        };
        append_all(&[word.as_bytes(), name.as_bytes(), b": "], &mut self.said)?;
        append_shown(&count, &mut self.said)?;
        append_all(&[b" rows\n", &rows.said], &mut self.said)
    }

    /// Says how many passed and failed.
    pub(crate) fn say_counts(&mut self) -> Result<(), AllocError> {
        append_shown(&self.passed, &mut self.said)?;
        append_all(&[b" passed, "], &mut self.said)?;
        append_shown(&self.failed, &mut self.said)?;
        append_all(&[b" failed\n"], &mut self.said)
    }
}

/// Appends these bytes, one after the other.
pub(crate) fn append_all(parts: &[&[u8]], text: &mut Vec<u8>) -> Result<(), AllocError> {
    for part in parts {
        text.extend_from_slice(part)?;
    }
    Ok(())
}

/// Appends what a value reads.
pub(crate) fn append_shown<T: Display>(value: &T, text: &mut Vec<u8>) -> Result<(), AllocError> {
    match write!(text, "{value}") {
        Ok(()) => Ok(()),
        Err(_) => Err(AllocError),
    }
}

/// Appends what is wanted and what is seen in its place, below a line that says where.
pub(crate) fn append_difference(
    place: &str,
    wanted: &[u8],
    seen: &[u8],
    differences: &mut Vec<u8>,
) -> Result<(), AllocError> {
    append_all(&[place.as_bytes(), b"\n  expected:\n", wanted], differences)?;
    append_all(&[b"\n  seen:\n", seen, b"\n"], differences)
}

/// Whether a line is a row: it is not empty, and does not begin with `#`.
pub(crate) fn is_row(line: &str) -> bool {
    !line.is_empty() && !line.starts_with('#')
}
