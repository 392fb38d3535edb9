//! Sources with the places where they are refused.

use crate::cases::{Ran, run};
use crate::escapes::{append_unescaped, unescaped};
use crate::files::File;
use crate::rows::{Judged, append_all, append_shown, is_row};
use crate::sections::Section;
use code_checker::{SourceFault, SourceRefusal, check_tokens, declare_source};
use pas_lexer::{MAX_SOURCE_BYTES, Tokens, lex};
use std::alloc::{AllocError, Global};

/// Who says whether a source is taken.
#[derive(Clone, Copy)]
pub(crate) enum Judge {
    /// The command, as far as the grammar.
    Grammar,
    /// The command, with the static rules.
    Rules,
    /// The check of its declarations alone.
    Declarations,
}

/// Tries each row of a file. A row is a line `WHY: SOURCE`, the source with escapes and with `|` at the place where it
/// is refused.
pub(crate) fn try_sources(
    alloc: Global,
    judge: Judge,
    text: &str,
    judged: &mut Judged,
) -> Result<(), AllocError> {
    for line in text.lines() {
        if is_row(line) {
            try_row(alloc, judge, line, judged)?;
        }
    }
    Ok(())
}

/// Tries the row of a line.
fn try_row(alloc: Global, judge: Judge, line: &str, judged: &mut Judged) -> Result<(), AllocError> {
    let (why, marked) = line.split_once(": ").unwrap_or((line, ""));
    let (before, after) = marked.split_once('|').unwrap_or((marked, ""));
    let mut source = unescaped(alloc, before)?;
    let mut wanted = Vec::new(alloc);
    append_wanted(judge, why, &source, &mut wanted)?;
    append_unescaped(after, &mut source)?;
    let mut seen = Vec::new(alloc);
    append_seen(alloc, judge, why == "taken", source, &mut seen)?;
    judged.judge(line, &wanted, &seen)
}

/// The line, counted from 1, that stands after these bytes.
fn line_after(before: &[u8]) -> u64 {
    let mut line: u64 = 1;
    for byte in before {
        if *byte == b'\n' {
            line = line.saturating_add(1);
        }
    }
    line
}

/// Appends what is wanted of a source that is refused right after these bytes for this reason, or taken.
fn append_wanted(
    judge: Judge,
    why: &str,
    before: &[u8],
    wanted: &mut Vec<u8>,
) -> Result<(), AllocError> {
    if why == "taken" {
        return append_all(&[b"taken"], wanted);
    }
    let (start, reason, then, end) = match (judge, why.strip_prefix("Rule ")) {
        (Judge::Declarations, Some(rule)) => ("rule ", rule, " is broken at line ", ""),
        _ => ("refused: ", why, ", line ", "\nstatus 3"),
    };
    append_all(
        &[start.as_bytes(), reason.as_bytes(), then.as_bytes()],
        wanted,
    )?;
    append_shown(&line_after(before), wanted)?;
    append_all(&[b", byte "], wanted)?;
    append_shown(&before.len(), wanted)?;
    append_all(&[end.as_bytes()], wanted)
}

/// Appends what is seen of a source. One that is to be taken is checked and not run, since many run for long.
fn append_seen(
    alloc: Global,
    judge: Judge,
    is_taken: bool,
    source: Vec<u8>,
    seen: &mut Vec<u8>,
) -> Result<(), AllocError> {
    match judge {
        Judge::Declarations => append_declared(alloc, &source, seen),
        _ if is_taken => append_read(alloc, judge, &source, seen),
        _ => append_screen(alloc, source, seen),
    }
}

/// Appends what breaks a rule that can be told from the declarations of a source.
fn append_declared(alloc: Global, source: &[u8], seen: &mut Vec<u8>) -> Result<(), AllocError> {
    if MAX_SOURCE_BYTES < source.len() {
        return append_all(&[b"too long"], seen);
    }
    match declare_source(alloc, source) {
        Ok(scopes) => {
            drop(scopes);
            append_all(&[b"taken"], seen)
        }
        Err(fault) => append_shown(&fault, seen),
    }
}

/// Appends why a source is no program.
fn append_read(
    alloc: Global,
    judge: Judge,
    source: &[u8],
    seen: &mut Vec<u8>,
) -> Result<(), AllocError> {
    if MAX_SOURCE_BYTES < source.len() {
        return append_all(&[b"too long"], seen);
    }
    match lex(alloc, source) {
        Ok(tokens) => append_checked(alloc, judge, &tokens, seen),
        Err(fault) => append_shown(&fault, seen),
    }
}

/// Appends why tokens are no program. Static rules and sizes count only if the judge goes by these.
fn append_checked(
    alloc: Global,
    judge: Judge,
    tokens: &Tokens,
    seen: &mut Vec<u8>,
) -> Result<(), AllocError> {
    match (check_tokens(alloc, tokens).err(), judge) {
        (None, _) => append_all(&[b"taken"], seen),
        (
            Some(
                SourceFault::Refused {
                    why: SourceRefusal::Rule(_) | SourceRefusal::TooBig,
                    ..
                },
            ),
            Judge::Grammar,
        ) => append_all(&[b"taken"], seen),
        (Some(fault), _) => append_shown(&fault, seen),
    }
}

/// Appends the screen and the exit status of the command on a source, on a console without lines.
fn append_screen(alloc: Global, source: Vec<u8>, seen: &mut Vec<u8>) -> Result<(), AllocError> {
    let case = [Section {
        heading: "file F from F",
        text: "",
    }];
    let text = File {
        kind: "",
        path: "F",
        bytes: source,
    };
    append_run(&run(alloc, &case, &[text], usize::MAX)?, seen)
}

/// Appends the screen and the exit status of a run.
fn append_run(ran: &Ran, seen: &mut Vec<u8>) -> Result<(), AllocError> {
    append_all(&[ran.screen.sink().given(), b"status "], seen)?;
    append_shown(&ran.status, seen)
}
