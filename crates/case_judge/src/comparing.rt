//! Comparing what came of a case with what it wants.

use crate::cases::{Ran, bytes_of, rest_of, run, setting_of};
use crate::files::File;
use crate::rows::{append_all, append_difference, append_shown};
use crate::sections::Section;
use edge_ports::{Bytes, FetchFault, Keeper};
use std::alloc::{AllocError, Global};
use std::str;

/// The length of the file that a case cuts.
fn length_of(
    alloc: Global,
    case: &[Section],
    texts: &[File],
    name: &str,
) -> Result<usize, AllocError> {
    for section in case {
        if setting_of(section.heading).strip_prefix("file ") == Some(name) {
            return Ok(bytes_of(alloc, section, texts)?.len());
        }
    }
    Ok(0)
}

/// Appends what differs, in full: nothing where all is as it is wanted. Where the case cuts a file, it is cut at each
/// place in turn, and each run has to give what is wanted.
pub(crate) fn compare(
    alloc: Global,
    case: &[Section],
    texts: &[File],
    differs: &mut Vec<u8>,
) -> Result<(), AllocError> {
    let Some(cut) = rest_of(case, "each prefix of ") else {
        return compare_run(alloc, case, texts, usize::MAX, differs);
    };
    for length in 0..length_of(alloc, case, texts, cut)? {
        let before = differs.len();
        compare_run(alloc, case, texts, length, differs)?;
        if before < differs.len() {
            append_all(&[b"so it is where the file is cut after "], differs)?;
            append_shown(&length, differs)?;
            append_all(&[b" bytes\n"], differs)?;
        }
    }
    Ok(())
}

/// Appends what differs in one run. The file that the case cuts has at most this length.
fn compare_run(
    alloc: Global,
    case: &[Section],
    texts: &[File],
    length: usize,
    differs: &mut Vec<u8>,
) -> Result<(), AllocError> {
    let mut ran = run(alloc, case, texts, length)?;
    compare_status(rest_of(case, "status ").unwrap_or(""), &ran, differs)?;
    for section in case {
        let wanted = bytes_of(alloc, section, texts)?;
        compare_text(alloc, section.heading, &wanted, &mut ran, differs)?;
    }
    Ok(())
}

/// Appends what differs from the status that is wanted, and the screen.
fn compare_status(wanted: &str, ran: &Ran, differs: &mut Vec<u8>) -> Result<(), AllocError> {
    match wanted.parse::<u8>() {
        Ok(status) if status == ran.status => Ok(()),
        _ => {
            append_all(
                &[b"the status is to be ", wanted.as_bytes(), b" and is "],
                differs,
            )?;
            append_shown(&ran.status, differs)?;
            append_all(
                &[b", and the screen is:\n", ran.screen.sink().given()],
                differs,
            )
        }
    }
}

/// Appends what differs from a text that is wanted below this heading.
fn compare_text(
    alloc: Global,
    heading: &str,
    wanted: &[u8],
    ran: &mut Ran,
    differs: &mut Vec<u8>,
) -> Result<(), AllocError> {
    let setting = setting_of(heading);
    match setting.strip_prefix("after ") {
        Some(name) => {
            let held = ran.keeper.fetch(alloc, name, u64::MAX);
            compare_file(heading, wanted, held, differs)
        }
        None => compare_screen(heading, wanted, ran.screen.sink().given(), differs),
    }
}

/// Appends what differs from what a file is to hold.
fn compare_file(
    heading: &str,
    wanted: &[u8],
    held: Result<Bytes, FetchFault>,
    differs: &mut Vec<u8>,
) -> Result<(), AllocError> {
    match held {
        Ok(held) if held.as_slice() == wanted => Ok(()),
        Ok(held) => append_difference(heading, wanted, held.as_slice(), differs),
        Err(fault) => {
            append_difference(heading, wanted, b"", differs)?;
            append_shown(&fault, differs)?;
            append_all(&[b"\n"], differs)
        }
    }
}

/// Appends a text that is not on the screen as its heading wants it, and the screen.
fn compare_screen(
    heading: &str,
    wanted: &[u8],
    screen: &[u8],
    differs: &mut Vec<u8>,
) -> Result<(), AllocError> {
    if stands(setting_of(heading), wanted, screen) {
        return Ok(());
    }
    append_difference(heading, wanted, screen, differs)
}

/// Whether a text stands on the screen as this heading wants it, if it speaks of the screen.
fn stands(setting: &str, wanted: &[u8], screen: &[u8]) -> bool {
    match setting {
        "screen" => wanted == screen,
        "screen begins" => screen.starts_with(wanted),
        "screen ends" => screen.ends_with(wanted),
        "screen has" => stands_in(wanted, screen, false),
        "screen has once" => stands_in(wanted, screen, true),
        _ => true,
    }
}

/// Whether the screen has these lines, in this order, or each of them once. They are looked for in UTF-8 texts alone.
fn stands_in(wanted: &[u8], screen: &[u8], is_once: bool) -> bool {
    match (str::from_utf8(wanted), str::from_utf8(screen)) {
        (Ok(wanted), Ok(screen)) if is_once => has_once(screen, wanted),
        (Ok(wanted), Ok(screen)) => has_in_order(screen, wanted),
        _ => false,
    }
}

/// Whether the screen has these lines, in this order.
fn has_in_order(screen: &str, wanted: &str) -> bool {
    let mut left = wanted.lines();
    let mut next = left.next();
    for shown in screen.lines() {
        if next == Some(shown) {
            next = left.next();
        }
    }
    next.is_none()
}

/// How often the screen has a line.
fn times_of(line: &str, screen: &str) -> u64 {
    let mut times: u64 = 0;
    for shown in screen.lines() {
        if shown == line {
            times = times.saturating_add(1);
        }
    }
    times
}

/// Whether the screen has each of these lines once.
fn has_once(screen: &str, wanted: &str) -> bool {
    for line in wanted.lines() {
        if times_of(line, screen) != 1 {
            return false;
        }
    }
    true
}
