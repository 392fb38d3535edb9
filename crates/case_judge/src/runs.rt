//! Runs of programs: the calls of a run, its output and what it wrote.

use crate::answers::{Answer, append_answer};
use crate::escapes::unescaped;
use crate::rows::{Judged, append_all, append_shown};
use crate::sections::{Section, lines, sections};
use call_tree::Calls;
use cell_value::{Kind, Touch, Value, WayOut, Which};
use code_checker::check_tokens;
use core_program::Program;
use debug_cli::{BUDGET, INPUT_BYTES, MOST_STEPS};
use effect_log::Log;
use pas_lexer::{MAX_SOURCE_BYTES, Tokens, lex};
use program_run::{History, run};
use std::alloc::{AllocError, Global};

/// A source, its input, and the budget of its next run.
#[derive(Clone, Copy)]
struct Subject<'a> {
    name: &'a str,
    source: &'a str,
    input: &'a str,
    budget: u32,
}

/// Tries each run of a file.
///
/// A case begins with `case NAME`. `source` has its source; `input` its input, which is empty where none stands; and
/// `budget N` the steps that its runs may take. Below `run` stands what has to come of a run: a line `output "TEXT"`,
/// the text with escapes; a line `calls N`; a line `NUMBER ROUTINE: WAY, N steps, N touches` for some calls, with the
/// steps and the entries of the log that the call and those below it made; and a line `written ADDRESS = VALUE` for
/// some addresses, with what was last written there, `?` for the undefined value and `none` for nothing. A `note` is
/// not read.
pub(crate) fn try_runs(alloc: Global, text: &str, judged: &mut Judged) -> Result<(), AllocError> {
    let mut subject = Subject {
        name: "",
        source: "",
        input: "",
        budget: BUDGET,
    };
    for section in &sections(alloc, text)? {
        take_section(alloc, section, &mut subject, judged)?;
    }
    Ok(())
}

/// Begins a case, or takes a section of the last one.
fn take_section<'a>(
    alloc: Global,
    section: &Section<'a>,
    subject: &mut Subject<'a>,
    judged: &mut Judged,
) -> Result<(), AllocError> {
    match section.heading {
        "source" => subject.source = section.text,
        "input" => subject.input = section.text,
        "run" => return judge_run(alloc, subject, section.text, judged),
        heading => set(heading, subject),
    }
    Ok(())
}

/// Begins the case of a heading, or takes its budget.
fn set<'a>(heading: &'a str, subject: &mut Subject<'a>) {
    if let Some(name) = heading.strip_prefix("case ") {
        *subject = Subject {
            name,
            source: "",
            input: "",
            budget: BUDGET,
        };
    }
    if let Some(steps) = heading.strip_prefix("budget ") {
        subject.budget = steps.parse().unwrap_or(0);
    }
}

/// Tries a run.
fn judge_run(
    alloc: Global,
    subject: &Subject,
    wanted: &str,
    judged: &mut Judged,
) -> Result<(), AllocError> {
    let mut seen = Vec::new(alloc);
    append_run(alloc, subject, wanted, &mut seen)?;
    let seen = seen.strip_suffix(b"\n").unwrap_or(&seen);
    judged.judge(subject.name, wanted.as_bytes(), seen)
}

/// Appends the lines that the run has in place of those that are wanted, or why there is no run.
fn append_run(
    alloc: Global,
    subject: &Subject,
    wanted: &str,
    seen: &mut Vec<u8>,
) -> Result<(), AllocError> {
    let source = subject.source.as_bytes();
    if MAX_SOURCE_BYTES < source.len() {
        return append_all(&[b"the source is too long"], seen);
    }
    match lex(alloc, source) {
        Ok(tokens) => append_run_of_tokens(alloc, subject, &tokens, wanted, seen),
        Err(fault) => append_shown(&fault, seen),
    }
}

/// The same of tokens.
fn append_run_of_tokens(
    alloc: Global,
    subject: &Subject,
    tokens: &Tokens,
    wanted: &str,
    seen: &mut Vec<u8>,
) -> Result<(), AllocError> {
    match check_tokens(alloc, tokens) {
        Ok(program) => append_run_of_program(alloc, subject, &program, wanted, seen),
        Err(fault) => append_shown(&fault, seen),
    }
}

/// The same of a program.
fn append_run_of_program(
    alloc: Global,
    subject: &Subject,
    program: &Program,
    wanted: &str,
    seen: &mut Vec<u8>,
) -> Result<(), AllocError> {
    let budget = subject.budget;
    let input = lines(alloc, subject.input)?;
    if INPUT_BYTES < input.len() as u64 || budget == 0 || MOST_STEPS < budget {
        return append_all(&[b"no such input or budget"], seen);
    }
    let history = run(alloc, program, &input, budget)?;
    append_lines(alloc, program, &history, wanted, seen)
}

/// Appends the lines that a run has in place of those that are wanted.
fn append_lines(
    alloc: Global,
    program: &Program,
    history: &History,
    wanted: &str,
    seen: &mut Vec<u8>,
) -> Result<(), AllocError> {
    for line in wanted.lines() {
        append_line(alloc, program, history, line, seen)?;
        seen.push(b'\n')?;
    }
    Ok(())
}

/// Appends the line that a run has in place of one that is wanted.
fn append_line(
    alloc: Global,
    program: &Program,
    history: &History,
    wanted: &str,
    seen: &mut Vec<u8>,
) -> Result<(), AllocError> {
    let (word, rest) = wanted.split_once(' ').unwrap_or((wanted, ""));
    match word {
        "output" => append_output(alloc, rest, history.output.as_slice(), seen),
        "calls" => append_answer(("calls #", [history.calls.len().into(), 0, 0]), seen),
        "written" => append_answer(written(&history.log, rest), seen),
        number => append_call(
            program,
            &history.calls,
            number.parse().unwrap_or(u32::MAX),
            seen,
        ),
    }
}

/// Appends the line on the output: the wanted one where that has the same text, and else one that begins otherwise.
fn append_output(
    alloc: Global,
    wanted: &str,
    output: &[u8],
    seen: &mut Vec<u8>,
) -> Result<(), AllocError> {
    let text = wanted.strip_prefix('"').unwrap_or("").strip_suffix('"');
    if unescaped(alloc, text.unwrap_or(""))?.as_slice() == output {
        return append_all(&[b"output ", wanted.as_bytes()], seen);
    }
    append_all(&[b"another output: ", output], seen)
}

/// Appends the line on the call of a number.
fn append_call(
    program: &Program,
    calls: &Calls,
    number: u32,
    seen: &mut Vec<u8>,
) -> Result<(), AllocError> {
    if number >= calls.len() {
        return append_answer(("# is no call", [number.into(), 0, 0]), seen);
    }
    let call = calls.call(number);
    let steps = call.entry.steps.saturating_sub(call.exit.steps);
    let touches = call.exit.mark.saturating_sub(call.entry.mark);
    append_answer(("# ", [number.into(), 0, 0]), seen)?;
    append_all(&[program.name(call.routine), b": "], seen)?;
    append_answer(way_answer(call.way), seen)?;
    append_answer(
        (", # steps, # touches", [steps.into(), touches.into(), 0]),
        seen,
    )
}

/// How a call ended.
fn way_answer(way: WayOut) -> Answer {
    match way {
        WayOut::Returned => ("returned", [0; 3]),
        WayOut::Jumped(label, _) => ("jumped to #", [label.into(), 0, 0]),
        WayOut::Faulted(kind, line) => (fault_words(kind), [line.into(), 0, 0]),
        WayOut::OutOfSteps => ("out of steps", [0; 3]),
        WayOut::Limited(which) => (limit_words(which), [0; 3]),
    }
}

fn fault_words(kind: Kind) -> &'static str {
    match kind {
        Kind::Overflow => "faulted Overflow line #",
        Kind::ZeroDivisor => "faulted ZeroDivisor line #",
        Kind::BadModulus => "faulted BadModulus line #",
        Kind::OutOfRange => "faulted OutOfRange line #",
        Kind::Undefined => "faulted Undefined line #",
        Kind::NilPointer => "faulted NilPointer line #",
        Kind::Disposed => "faulted Disposed line #",
        Kind::InactiveVariant => "faulted InactiveVariant line #",
        Kind::NoCase => "faulted NoCase line #",
        Kind::PastEnd => "faulted PastEnd line #",
        Kind::BadNumber => "faulted BadNumber line #",
        Kind::BadWidth => "faulted BadWidth line #",
        Kind::UndefinedResult => "faulted UndefinedResult line #",
    }
}

fn limit_words(which: Which) -> &'static str {
    match which {
        Which::Calls => "limited calls",
        Which::Depth => "limited depth",
        Which::Stack => "limited stack",
        Which::Heap => "limited heap",
    }
}

/// What was last written at an address, if anything was.
fn last_written(log: &Log, address: u32) -> Option<Value> {
    let mut written = None;
    for place in 0..log.len() {
        match log.at(place) {
            Touch::Write(at, value) if at == address => written = Some(value),
            _ => {}
        }
    }
    written
}

/// What was last written at an address, in place of a line that is wanted.
fn written(log: &Log, wanted: &str) -> Answer {
    let (address, _) = wanted.split_once(" = ").unwrap_or((wanted, ""));
    let address: u32 = address.parse().unwrap_or(u32::MAX);
    let (words, number) = match last_written(log, address) {
        None => ("written # = none", 0),
        Some(Value::Undefined) => ("written # = ?", 0),
        Some(Value::Number(number)) => ("written # = #", number.into()),
        Some(_) => ("written # = another value", 0),
    };
    (words, [address.into(), number, 0])
}
