//! What the tables of declared programs say.

use crate::answers::{Answer, append_answer};
use crate::escapes::unescaped;
use crate::rows::{Judged, append_all, append_shown, is_row};
use check_steps::Def;
use code_checker::declare_source;
use core_program::rows::{Mode, NameRow, Row, TypeRow};
use decl_checker::{Scopes, find, find_in};
use pas_lexer::MAX_SOURCE_BYTES;
use std::alloc::{AllocError, Global};
use std::fmt::Display;

/// Tries each question of a file. A line `source: SOURCE` has the source of the questions after it, each a line
/// `QUESTION: ANSWER`.
pub(crate) fn try_tables(alloc: Global, text: &str, judged: &mut Judged) -> Result<(), AllocError> {
    let mut parts = text.split("\nsource: ");
    let _note = parts.next();
    for part in parts {
        let (written, questions) = part.split_once('\n').unwrap_or((part, ""));
        try_source(alloc, written, questions, judged)?;
    }
    Ok(())
}

/// Tries the questions about a source with escapes.
fn try_source(
    alloc: Global,
    written: &str,
    questions: &str,
    judged: &mut Judged,
) -> Result<(), AllocError> {
    let source = unescaped(alloc, written)?;
    if MAX_SOURCE_BYTES < source.len() {
        return judged.judge(written, b"its tables", b"too long");
    }
    match declare_source(alloc, &source) {
        Ok(scopes) => ask(alloc, &scopes, questions, judged),
        Err(fault) => refuse(alloc, written, &fault, judged),
    }
}

/// Counts the source as a row that failed, since it is refused.
fn refuse<T: Display>(
    alloc: Global,
    written: &str,
    fault: &T,
    judged: &mut Judged,
) -> Result<(), AllocError> {
    let mut seen = Vec::new(alloc);
    append_shown(fault, &mut seen)?;
    judged.judge(written, b"its tables", &seen)
}

/// Tries questions about tables.
fn ask(
    alloc: Global,
    scopes: &Scopes,
    questions: &str,
    judged: &mut Judged,
) -> Result<(), AllocError> {
    for line in questions.lines() {
        if is_row(line) {
            let (question, wanted) = line.split_once(": ").unwrap_or((line, ""));
            let mut seen = Vec::new(alloc);
            append_seen(scopes, question, &mut seen)?;
            judged.judge(question, wanted.as_bytes(), &seen)?;
        }
    }
    Ok(())
}

/// Appends the answer to a question: a word, and a number after all but `routines`, with a name or a field after it
/// where there are two things to ask about.
fn append_seen(scopes: &Scopes, question: &str, seen: &mut Vec<u8>) -> Result<(), AllocError> {
    let (word, rest) = question.split_once(' ').unwrap_or((question, ""));
    let (number, last) = rest.split_once(' ').unwrap_or((rest, ""));
    let number: u32 = number.parse().unwrap_or(u32::MAX);
    match word {
        "routine" => append_all(&[scopes.name(number)], seen),
        _ => append_answer(answer(scopes, word, number, last), seen),
    }
}

/// The answer to a question about a number, and a name or a field after it.
fn answer(scopes: &Scopes, word: &str, number: u32, last: &str) -> Answer {
    match word {
        "find" => def_answer(find(scopes, number, last.as_bytes())),
        "find_in" => def_answer(find_in(scopes, number, last.as_bytes())),
        "type" => type_answer(scopes.program().type_row(number)),
        "name" => name_answer(scopes.program().row(number)),
        _ => number_answer(number_of(scopes, word, number, last)),
    }
}

/// The number that answers a question.
fn number_of(scopes: &Scopes, word: &str, number: u32, last: &str) -> Option<u32> {
    match word {
        "routines" => Some(scopes.routines()),
        "region" => scopes.region(number),
        "size_of" => Some(scopes.size_of(number)),
        "frame" => Some(scopes.frame(number)),
        "result" => scopes.program().routine(number)?.result,
        "offset_of" => Some(scopes.offset_of(number, last.parse().unwrap_or(u32::MAX))),
        _ => None,
    }
}

fn number_answer(number: Option<u32>) -> Answer {
    match number {
        Some(number) => ("#", [number.into(), 0, 0]),
        None => ("none", [0; 3]),
    }
}

/// What a name stands for, in the words of `Def`.
fn def_answer(def: Option<Def>) -> Answer {
    let (words, number) = match def {
        Some(Def::Constant(number)) => ("Constant #", number),
        Some(Def::TypeName(number)) => ("TypeName #", number),
        Some(Def::Variable(number)) => ("Variable #", number),
        Some(Def::Field(number)) => ("Field #", number),
        Some(Def::Routine(number)) => ("Routine #", number),
        Some(Def::Formal(number)) => ("Formal #", number),
        Some(Def::Required(number)) => ("Required #", number),
        Some(Def::TextFile(number)) => ("TextFile #", number),
        None => ("none", 0),
    };
    (words, [number.into(), 0, 0])
}

/// What a type is called, with its numbers left open.
fn type_words(row: TypeRow) -> &'static str {
    match row {
        TypeRow::Ordinal { .. } => "an ordinal type from # to #",
        TypeRow::Subrange { .. } => "a subrange of type # from # to #",
        TypeRow::Set { packed: true, .. } => "a packed set of type #",
        TypeRow::Set { .. } => "a set of type #",
        TypeRow::Pointer { .. } => "a pointer to type #",
        TypeRow::Array { packed: true, .. } => "a packed array, index #, component #, cells #",
        TypeRow::Array { .. } => "an array, index #, component #, cells #",
        TypeRow::Conformant { packed: true, .. } => {
            "a packed conformant array, index #, component #, place #"
        }
        TypeRow::Conformant { .. } => "a conformant array, index #, component #, place #",
        TypeRow::Record { packed: true, .. } => "a packed record, region #, cells #",
        TypeRow::Record { .. } => "a record, region #, cells #",
    }
}

/// The numbers of a type.
fn type_numbers(row: TypeRow) -> [i64; 3] {
    match row {
        TypeRow::Ordinal { least, greatest } => [least.into(), greatest.into(), 0],
        TypeRow::Subrange {
            host,
            least,
            greatest,
        } => [host.into(), least.into(), greatest.into()],
        TypeRow::Set { base, .. } => [base.into(), 0, 0],
        TypeRow::Pointer { domain } => [domain.into(), 0, 0],
        TypeRow::Array {
            index,
            component,
            cells,
            ..
        } => [index.into(), component.into(), cells.into()],
        TypeRow::Conformant {
            index,
            component,
            place,
            ..
        } => [index.into(), component.into(), place.into()],
        TypeRow::Record { region, cells, .. } => [region.into(), cells.into(), 0],
    }
}

/// What stands at a type's number.
fn type_answer(row: Option<TypeRow>) -> Answer {
    match row {
        Some(row) => (type_words(row), type_numbers(row)),
        None => ("none", [0; 3]),
    }
}

/// What a variable of a mode is called.
fn variable_words(mode: Mode) -> &'static str {
    match mode {
        Mode::Own => "a variable of type #, place #, level #",
        Mode::Value => "a value parameter of type #, place #, level #",
        Mode::Place => "a variable parameter of type #, place #, level #",
        Mode::Copy => "a conformant value parameter of type #, place #, level #",
    }
}

/// What stands at a name's number.
fn name_answer(row: Row) -> Answer {
    let Row::Name(row) = row else {
        return ("no name", [0; 3]);
    };
    match row {
        NameRow::Constant { of, value } => (
            "a constant of type #, value #",
            [of.into(), value.into(), 0],
        ),
        NameRow::TypeName { of } => ("type #", [of.into(), 0, 0]),
        NameRow::Variable {
            mode,
            of,
            place,
            level,
        } => {
            (
                variable_words(mode),
                [of.into(), place.into(), level.into()],
            )
        }
        NameRow::Bound { of, place, level } => (
            "a bound of type #, place #, level #",
            [of.into(), place.into(), level.into()],
        ),
        NameRow::RoutineFormal { place, level, .. } => {
            (
                "a routine parameter, place #, level #",
                [place.into(), level.into(), 0],
            )
        }
        NameRow::Routine { number, .. } => ("routine #", [number.into(), 0, 0]),
        NameRow::Label { value, level, .. } => (
            "label #, level #",
            [value.into(), level.into(), 0],
        ),
        _ => ("another name", [0; 3]),
    }
}
