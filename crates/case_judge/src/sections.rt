//! Files of sections.

use std::alloc::{AllocError, Global};

/// A section: the words of its heading, and the lines below it, without the line feed of the last one. Blank lines at
/// its end are left out.
#[derive(Clone, Copy)]
pub(crate) struct Section<'a> {
    pub(crate) heading: &'a str,
    pub(crate) text: &'a str,
}

/// The sections of a file. A line that begins with `== ` is a heading. What stands above the first one is a note.
pub(crate) fn sections(alloc: Global, text: &str) -> Result<Vec<Section<'_>>, AllocError> {
    let mut sections = Vec::new(alloc);
    let mut parts = text.split("\n== ");
    let _note = parts.next();
    for part in parts {
        let (heading, lines) = part.split_once('\n').unwrap_or((part, ""));
        let text = lines.trim_end_matches('\n');
        sections.push(Section { heading, text })?;
    }
    Ok(sections)
}

/// The lines of a section's text, each with its line feed.
pub(crate) fn lines(alloc: Global, text: &str) -> Result<Vec<u8>, AllocError> {
    let mut lines = text.as_bytes().to_vec(alloc)?;
    if !text.is_empty() {
        lines.push(b'\n')?;
    }
    Ok(lines)
}
