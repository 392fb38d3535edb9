//! Cases of the command: what is given to it, and running it.

use crate::comparing::compare;
use crate::escapes::unescaped;
use crate::files::{File, bytes_at, text_of};
use crate::rows::Judged;
use crate::sections::{Section, lines, sections};
use debug_cli::ask_pascal;
use edge_ports::{Page, Pieces, Shelf, Tape};
use std::alloc::{AllocError, Global};

/// The bytes that a screen has room for where a case does not say it.
const ROOM: usize = 1_048_576;

/// Tries each case of a file. A case is the sections from its name to the next one.
pub(crate) fn try_cases(
    alloc: Global,
    text: &str,
    texts: &[File],
    judged: &mut Judged,
) -> Result<(), AllocError> {
    let sections = sections(alloc, text)?;
    for (place, section) in sections.iter().enumerate() {
        if let Some(name) = section.heading.strip_prefix("case ") {
            let rest = sections.get(place.saturating_add(1)..).unwrap_or_default();
            try_case(alloc, name, up_to_case(rest), texts, judged)?;
        }
    }
    Ok(())
}

/// The sections before the first that begins a case.
fn up_to_case<'s, 'a>(sections: &'s [Section<'a>]) -> &'s [Section<'a>] {
    let mut length: usize = 0;
    for section in sections {
        if section.heading.starts_with("case ") {
            break;
        }
        length = length.saturating_add(1);
    }
    sections.get(..length).unwrap_or_default()
}

/// Tries the case of this name.
fn try_case(
    alloc: Global,
    name: &str,
    case: &[Section],
    texts: &[File],
    judged: &mut Judged,
) -> Result<(), AllocError> {
    let mut differs = Vec::new(alloc);
    compare(alloc, case, texts, &mut differs)?;
    judged.judge_case(name, &differs)
}

/// What stands after these words in the first heading that begins with them.
pub(crate) fn rest_of<'a>(case: &[Section<'a>], words: &str) -> Option<&'a str> {
    for section in case {
        if let Some(rest) = section.heading.strip_prefix(words) {
            return Some(rest);
        }
    }
    None
}

/// A heading without the words that say where the text below it comes from.
pub(crate) fn setting_of(heading: &str) -> &str {
    match heading.strip_suffix(" escaped") {
        Some(setting) => setting,
        None => heading.split_once(" from ").unwrap_or((heading, "")).0,
    }
}

/// The bytes of the text below a heading.
pub(crate) fn bytes_of(
    alloc: Global,
    section: &Section,
    texts: &[File],
) -> Result<Vec<u8>, AllocError> {
    let Section { heading, text } = *section;
    if heading.ends_with(" escaped") {
        return unescaped(alloc, text.replace(alloc, '\n', "")?.as_str());
    }
    match heading.split_once(" from ") {
        Some((_, path)) => Ok(bytes_at(texts, path).to_vec(alloc)?),
        None => lines(alloc, text),
    }
}

/// The word that this one with escapes stands for.
fn word_of(alloc: Global, written: &str) -> Result<String, AllocError> {
    text_of(&unescaped(alloc, written)?).to_string(alloc)
}

/// The words that these with escapes stand for.
pub(crate) fn words_of(alloc: Global, written: &str) -> Result<Vec<String>, AllocError> {
    let mut words = Vec::new(alloc);
    for word in written.split_whitespace() {
        words.push(word_of(alloc, word)?)?;
    }
    Ok(words)
}

/// The numbers of the calls that fail, which stand after these words; none of them where nothing does.
fn fails_of(alloc: Global, case: &[Section], words: &str) -> Result<Vec<u64>, AllocError> {
    let mut calls = Vec::new(alloc);
    for call in rest_of(case, words).unwrap_or("").split_whitespace() {
        calls.push(call.parse().unwrap_or(u64::MAX))?;
    }
    Ok(calls)
}

/// The files of a case. The one that it cuts has at most this length.
fn keeper_of(
    alloc: Global,
    case: &[Section],
    texts: &[File],
    length: usize,
) -> Result<Shelf, AllocError> {
    let mut keeper = Shelf::new(alloc, &fails_of(alloc, case, "keeper fails")?)?;
    let cut = rest_of(case, "each prefix of ").unwrap_or("");
    for section in case {
        if let Some(name) = setting_of(section.heading).strip_prefix("file ") {
            let bytes = bytes_of(alloc, section, texts)?;
            let most = if name == cut { length } else { usize::MAX };
            keeper.put(name, bytes.get(..most).unwrap_or(&bytes))?;
        }
    }
    Ok(keeper)
}

/// The console of a case.
fn console_of(alloc: Global, case: &[Section], texts: &[File]) -> Result<Tape, AllocError> {
    let fails = fails_of(alloc, case, "console fails")?;
    for section in case {
        if setting_of(section.heading) == "console" {
            return Tape::new(alloc, &bytes_of(alloc, section, texts)?, &fails);
        }
    }
    Tape::new(alloc, b"", &fails)
}

/// The screen of a case.
fn screen_of(alloc: Global, case: &[Section]) -> Result<Pieces<Page>, AllocError> {
    let fails = fails_of(alloc, case, "screen fails")?;
    let room = rest_of(case, "screen room ").unwrap_or("");
    let page = Page::new(alloc, room.parse().unwrap_or(ROOM), &fails)?;
    Pieces::new(alloc, page)
}

/// What a run of the command comes to.
#[derive(Drop)]
pub(crate) struct Ran {
    pub(crate) status: u8,
    pub(crate) keeper: Shelf,
    pub(crate) screen: Pieces<Page>,
}

/// Runs a case. The file that it cuts has at most this length.
pub(crate) fn run(
    alloc: Global,
    case: &[Section],
    texts: &[File],
    length: usize,
) -> Result<Ran, AllocError> {
    let words = words_of(alloc, rest_of(case, "words").unwrap_or("pasask F"))?;
    let mut console = console_of(alloc, case, texts)?;
    let mut keeper = keeper_of(alloc, case, texts, length)?;
    let mut screen = screen_of(alloc, case)?;
    let status = ask_pascal(alloc, &words, &mut keeper, &mut console, &mut screen);
    Ok(Ran {
        status,
        keeper,
        screen,
    })
}
