//! The cases of a folder.

use crate::cases::try_cases;
use crate::files::{File, read, read_lists, read_texts, text_of};
use crate::rows::Judged;
use crate::runs::try_runs;
use crate::sources::{Judge, try_sources};
use crate::tables::try_tables;
use std::alloc::{AllocError, Global};
use std::io::{self, Write};
use std::rt::Files;

/// Tries the rows of a list, by the word for its kind.
fn try_rows(alloc: Global, list: &File, rows: &mut Judged) -> Result<(), AllocError> {
    let text = text_of(&list.bytes);
    match list.kind {
        "sources" => try_sources(alloc, Judge::Grammar, text, rows),
        "rules" => try_sources(alloc, Judge::Rules, text, rows),
        "declarations" => try_sources(alloc, Judge::Declarations, text, rows),
        "tables" => try_tables(alloc, text, rows),
        "runs" => try_runs(alloc, text, rows),
        kind => rows.judge(kind, b"a kind of file", b"none"),
    }
}

/// Tries what stands in a list.
fn try_list(
    alloc: Global,
    list: &File,
    texts: &[File],
    judged: &mut Judged,
) -> Result<(), AllocError> {
    if list.kind == "command" {
        return try_cases(alloc, text_of(&list.bytes), texts, judged);
    }
    let mut rows = Judged::new(alloc);
    try_rows(alloc, list, &mut rows)?;
    judged.add(list.path, &rows)
}

/// Prints these bytes, and answers whether it could.
fn print<R: Print>(rt: &R, bytes: &[u8]) -> bool {
    io::writer(rt).write_all(bytes).is_ok()
}

/// Tries the lists, prints what comes of each, and answers whether all is as it is wanted.
fn try_lists<R: AllocGlobal + Print>(
    rt: &R,
    lists: &[File],
    texts: &[File],
) -> Result<bool, AllocError> {
    let mut judged = Judged::new(rt.alloc());
    let mut is_printed = true;
    for list in lists {
        try_list(rt.alloc(), list, texts, &mut judged)?;
        is_printed = print(rt, &judged.said) && is_printed;
        judged.said.clear();
    }
    judged.say_counts()?;
    Ok(print(rt, &judged.said) && is_printed && judged.failed == 0 && judged.passed != 0)
}

/// Tries all cases of a folder, and answers whether there are some and all passed.
pub fn try_folder<R: Files + AllocGlobal + Print>(
    rt: &R,
    folder: &str,
) -> Result<bool, AllocError> {
    let index = read(rt, folder, "index")?;
    let lists = read_lists(rt, folder, text_of(&index))?;
    let texts = read_texts(rt, folder, &lists)?;
    try_lists(rt, &lists, &texts)
}
