//! What a line of the console asks for.
ghost use Rattle.std.specs.Prelude.{◌∷◌, ◌≡◌, [], ℕ, IsTrue, List, Some};
ghost use Rattle.session_file.specs.Notes.{is_note};
ghost use Rattle.dialog_replies.specs.{Numbers.number_of, Words.after_word, Words.words};
ghost use Rattle.dialog_replies.specs.Instructions.{carry_in, file_named, instruction_by, instruction_of, note_by};
ghost use Rattle.dialog_replies.specs.Instructions.{rest_in, shared_in, shared_on, trust_in, with_file, with_number};
ghost use Rattle.dialog_replies.specs.declared.instructions.DialogCommand.TheVariants as commands;
ghost use Rattle.dialog_replies.specs.declared.instructions.Instruction.TheVariants as ask;
ghost use Rattle.dialog_replies.specs.declared.keywords.Keyword.TheVariants as key;

use crate::keywords::{Keyword, keyword_in};
use crate::numbers::{number_in, routine_number};
use crate::words::{after_blanks, before_blanks, first_word};
use answer_book::Judgement;
use session_file::note_in;
use std::marker::Model;

/// The name of a routine, of cells or of an output, as it was typed. Clauses see its bytes.
#[derive(Drop)]
pub struct Name<'a> {
    bytes: &'a [u8],
}

impl<'a> Model for Name<'a> {
    ghost use Rattle.std.specs.Prelude.{ℕ, List};

    ghost Value = { List ℕ };

    ghost view = { λ name. name.bytes.now };
}

impl<'a> Name<'a> {
    /// Its bytes.
    pub fn bytes(&self) -> &[u8]
        ensures { result.now ≡ self.now }
    {
        self.bytes
    }
}

/// The name of a file, as it was typed: UTF-8. Clauses see its bytes.
#[derive(Drop)]
pub struct FileName<'a> {
    name: &'a str,
}

impl<'a> Model for FileName<'a> {
    ghost use Rattle.std.specs.Prelude.{ℕ, List};

    ghost Value = { List ℕ };

    ghost view = { λ file. file.name.now };
}

impl<'a> FileName<'a> {
    /// The name as a text.
    pub fn as_str(&self) -> &str
        ensures { result.now ≡ self.now }
    {
        self.name
    }
}

/// A note, as it was typed. Clauses see its bytes.
#[derive(Drop)]
pub struct NoteText<'a> {
    text: &'a str,
}

impl<'a> Model for NoteText<'a> {
    ghost use Rattle.std.specs.Prelude.{ℕ, IsTrue, List};
    ghost use Rattle.session_file.specs.Notes.{is_note};

    ghost Value = { List ℕ };

    ghost view = { λ note. note.text.now };

    ghost invariant = { λ note. IsTrue (is_note note.text.now) };
}

impl<'a> NoteText<'a> {
    /// The note as a text.
    pub fn as_str(&self) -> &str
        ensures text { result.now ≡ self.now }
        ensures note { IsTrue (is_note self.now) }
    {
        self.text
    }
}

/// What a line of the console asks for.
#[derive(Drop)]
pub enum Instruction<'a> {
    /// `quit`: the end of the session.
    Quit,
    /// `save F`: the session goes into the file of this name.
    Save(FileName<'a>),
    /// `reference F`: the file of this name is a right program, which answers from now on.
    Reference(FileName<'a>),
    /// `refer`: that program judges the call of this number, or the one that is asked about.
    Refer(Option<u32>),
    /// What the run and the entries alone can answer.
    Command(DialogCommand<'a>),
}

/// What a line of the console asks of the run and of the entries.
#[derive(Drop)]
pub enum DialogCommand<'a> {
    /// A line without words: nothing.
    Nothing,
    /// `right`, `wrong` and `unknown`: a judgement on the call of this number, or on the one that is
    /// asked about.
    Judge(Judgement, Option<u32>),
    /// `same`: the judgement that was kept of the question, on the call that is asked about.
    Same,
    /// `trust NAME`: trust in the routine of this name.
    TrustNamed(Name<'a>),
    /// `trust #R`: trust in the routine of this number.
    Trust(u32),
    /// `back`: to take back the entry of this number, or the last one that stands.
    TakeBack(Option<u32>),
    /// `note E TEXT`: a note on the entry of this number.
    Note(u32, NoteText<'a>),
    /// `show K`: the card of the call of this number.
    Show(u32),
    /// `state K NAME`: what the cells of this name held before and after the call of this number.
    State(u32, Name<'a>),
    /// `trace K`: the trace of the call of this number.
    Trace(u32),
    /// `slice K NAME`: the call of this number went wrong by the output of this name, and each call below it that had
    /// no part in that is left out of the search.
    Slice(u32, Name<'a>),
    /// `alike K`: which calls are alike to the call of this number.
    Alike(u32),
    /// `shared right`, `shared wrong` and `shared unknown`: a judgement on the call of this number, or on the one that
    /// is asked about, and on all calls that are alike to it.
    JudgeAlike(Judgement, Option<u32>),
    /// `shared back K`: to take back each judgement that stands on a call alike to the call of this number.
    TakeBackAlike(u32),
    /// `carry K J`: whether the record of the call of the first number may be put in place of its run where the call of
    /// the second number was entered.
    Carry(u32, u32),
    /// `tree`: the marks of all calls.
    Tree,
    /// Any other line, which is not understood.
    Other,
}

/// What a keyword alone asks for.
fn alone<'a>(keyword: Keyword) -> Instruction<'a>
    ensures { (rest : List ℕ) → result ≡ instruction_by keyword [] rest }
{
    match keyword {
        Keyword::Judge(judgement) => Instruction::Command(DialogCommand::Judge(judgement, None)),
        Keyword::Back => Instruction::Command(DialogCommand::TakeBack(None)),
        Keyword::Same => Instruction::Command(DialogCommand::Same),
        Keyword::Tree => Instruction::Command(DialogCommand::Tree),
        Keyword::Refer => Instruction::Refer(None),
        Keyword::Quit => Instruction::Quit,
        Keyword::Trust
        | Keyword::Show
        | Keyword::State
        | Keyword::Trace
        | Keyword::Slice
        | Keyword::Alike
        | Keyword::Shared
        | Keyword::Carry
        | Keyword::Reference
        | Keyword::Save
        | Keyword::Note
        | Keyword::Other => Instruction::Command(DialogCommand::Other),
    }
}

/// What `trust` asks for with this word after it.
fn trust<'a>(routine: &'a [u8]) -> Instruction<'a>
    ensures { result ≡ trust_in routine.now }
{
    match routine_number(routine) {
        Some(number) => Instruction::Command(DialogCommand::Trust(number)),
        None => Instruction::Command(DialogCommand::TrustNamed(Name { bytes: routine })),
    }
}

/// The file that a word names.
fn file_in<'a>(word: &'a [u8]) -> Option<FileName<'a>>
    ensures { result ≡ file_named word.now }
{
    match str::from_utf8(word) {
        Ok(name) => Some(FileName { name }),
        Err(_) => None,
    }
}

/// What `save` asks for with this word after it.
fn save<'a>(file: &'a [u8]) -> Instruction<'a>
    ensures { result ≡ with_file (file_named file.now) ask.Save }
{
    match file_in(file) {
        Some(file) => Instruction::Save(file),
        None => Instruction::Command(DialogCommand::Other),
    }
}

/// What `reference` asks for with this word after it.
fn reference<'a>(file: &'a [u8]) -> Instruction<'a>
    ensures { result ≡ with_file (file_named file.now) ask.Reference }
{
    match file_in(file) {
        Some(file) => Instruction::Reference(file),
        None => Instruction::Command(DialogCommand::Other),
    }
}

/// What `refer` asks for with this word after it.
fn refer<'a>(call: &[u8]) -> Instruction<'a>
    ensures { result ≡ with_number (number_of call.now) (λ number. ask.Refer (Some number)) }
{
    match number_in(call) {
        Some(call) => Instruction::Refer(Some(call)),
        None => Instruction::Command(DialogCommand::Other),
    }
}

/// What `shared` asks for with this keyword after it.
fn shared<'a>(keyword: Keyword) -> Instruction<'a>
    ensures { result ≡ shared_in keyword }
{
    match keyword {
        Keyword::Judge(judgement) => Instruction::Command(DialogCommand::JudgeAlike(
            judgement, None,
        )),
        _ => Instruction::Command(DialogCommand::Other),
    }
}

/// What `shared` asks for with this keyword after it and then the number of a call.
fn shared_on<'a>(keyword: Keyword, call: u32) -> Instruction<'a>
    ensures { result ≡ shared_on keyword call }
{
    match keyword {
        Keyword::Judge(judgement) => {
            Instruction::Command(DialogCommand::JudgeAlike(judgement, Some(call)))
        }
        Keyword::Back => Instruction::Command(DialogCommand::TakeBackAlike(call)),
        _ => Instruction::Command(DialogCommand::Other),
    }
}

/// What a keyword asks for with this word after it.
fn with_operand<'a>(keyword: Keyword, operand: &'a [u8]) -> Instruction<'a>
    ensures { (rest : List ℕ) → result ≡ instruction_by keyword (operand.now ∷ []) rest }
{
    match keyword {
        Keyword::Trust => trust(operand),
        Keyword::Judge(judgement) => match number_in(operand) {
            Some(call) => Instruction::Command(DialogCommand::Judge(judgement, Some(call))),
            None => Instruction::Command(DialogCommand::Other),
        },
        Keyword::Back => match number_in(operand) {
            Some(entry) => Instruction::Command(DialogCommand::TakeBack(Some(entry))),
            None => Instruction::Command(DialogCommand::Other),
        },
        Keyword::Show => match number_in(operand) {
            Some(call) => Instruction::Command(DialogCommand::Show(call)),
            None => Instruction::Command(DialogCommand::Other),
        },
        Keyword::Trace => match number_in(operand) {
            Some(call) => Instruction::Command(DialogCommand::Trace(call)),
            None => Instruction::Command(DialogCommand::Other),
        },
        Keyword::Alike => match number_in(operand) {
            Some(call) => Instruction::Command(DialogCommand::Alike(call)),
            None => Instruction::Command(DialogCommand::Other),
        },
        Keyword::Shared => shared(keyword_in(operand)),
        Keyword::Save => save(operand),
        Keyword::Reference => reference(operand),
        Keyword::Refer => refer(operand),
        Keyword::State
        | Keyword::Slice
        | Keyword::Carry
        | Keyword::Tree
        | Keyword::Same
        | Keyword::Note
        | Keyword::Quit
        | Keyword::Other => Instruction::Command(DialogCommand::Other),
    }
}

/// What `state` asks for with this word after it, and this after the word.
fn state<'a>(call: &'a [u8], rest: &'a [u8]) -> Instruction<'a>
    ensures { result ≡ with_number (number_of call.now)
        (λ number. ask.Command (commands.State number (rest_in rest.now))) }
{
    match number_in(call) {
        Some(number) => Instruction::Command(DialogCommand::State(
            number,
            Name {
                bytes: before_blanks(after_blanks(rest)),
            },
        )),
        None => Instruction::Command(DialogCommand::Other),
    }
}

/// What `slice` asks for with this word after it, and this after the word.
fn slice<'a>(call: &'a [u8], rest: &'a [u8]) -> Instruction<'a>
    ensures { result ≡ with_number (number_of call.now)
        (λ number. ask.Command (commands.Slice number (rest_in rest.now))) }
{
    match number_in(call) {
        Some(number) => Instruction::Command(DialogCommand::Slice(
            number,
            Name {
                bytes: before_blanks(after_blanks(rest)),
            },
        )),
        None => Instruction::Command(DialogCommand::Other),
    }
}

/// What `note` asks for with this number after it, and this text.
fn note_on<'a>(entry: u32, text: &'a [u8]) -> Instruction<'a>
    ensures { result ≡ note_by entry text.now }
{
    match note_in(text) {
        Some(note) => Instruction::Command(DialogCommand::Note(entry, NoteText { text: note })),
        None => Instruction::Command(DialogCommand::Other),
    }
}

/// What `note` asks for with this word after it, and this after the word.
fn note<'a>(entry: &'a [u8], rest: &'a [u8]) -> Instruction<'a>
    ensures { result ≡ with_number (number_of entry.now) (λ number. note_by number (rest_in rest.now)) }
{
    match number_in(entry) {
        Some(number) => note_on(number, before_blanks(after_blanks(rest))),
        None => Instruction::Command(DialogCommand::Other),
    }
}

/// What `carry` asks for with these two words after it.
fn carry<'a>(call: &[u8], onto: &[u8]) -> Instruction<'a>
    ensures { result ≡ carry_in call.now onto.now }
{
    match (number_in(call), number_in(onto)) {
        (Some(call), Some(onto)) => Instruction::Command(DialogCommand::Carry(call, onto)),
        _ => Instruction::Command(DialogCommand::Other),
    }
}

/// What `carry` asks for with two words or more after it: the first two, and what follows them.
fn carry_alone<'a>(call: &[u8], onto: &[u8], after: &[u8]) -> Instruction<'a>
    ensures { (rest : List ℕ) → result ≡ instruction_by key.Carry (call.now ∷ onto.now ∷ words after.now) rest }
{
    match first_word(after) {
        None => carry(call, onto),
        Some(_) => Instruction::Command(DialogCommand::Other),
    }
}

/// What `shared` asks for with two words or more after it: the first two, and what follows them.
fn shared_alone<'a>(word: &[u8], call: &[u8], after: &[u8]) -> Instruction<'a>
    ensures { (rest : List ℕ) → result ≡ instruction_by key.Shared (word.now ∷ call.now ∷ words after.now) rest }
{
    match (number_in(call), first_word(after)) {
        (Some(call), None) => shared_on(keyword_in(word), call),
        _ => Instruction::Command(DialogCommand::Other),
    }
}

/// What a keyword asks for with more than one word after it: the first, and what follows it; the second, and what
/// follows that.
fn with_more<'a>(
    keyword: Keyword,
    operand: &'a [u8],
    rest: &'a [u8],
    second: &'a [u8],
    after: &'a [u8],
) -> Instruction<'a>
    ensures { result ≡ instruction_by keyword (operand.now ∷ second.now ∷ words after.now) rest.now }
{
    match keyword {
        Keyword::State => state(operand, rest),
        Keyword::Slice => slice(operand, rest),
        Keyword::Note => note(operand, rest),
        Keyword::Carry => carry_alone(operand, second, after),
        Keyword::Shared => shared_alone(operand, second, after),
        Keyword::Judge(_)
        | Keyword::Alike
        | Keyword::Trust
        | Keyword::Back
        | Keyword::Show
        | Keyword::Trace
        | Keyword::Reference
        | Keyword::Refer
        | Keyword::Tree
        | Keyword::Save
        | Keyword::Same
        | Keyword::Quit
        | Keyword::Other => Instruction::Command(DialogCommand::Other),
    }
}

/// What a keyword asks for, by what follows it in the line.
fn with_rest<'a>(keyword: Keyword, rest: &'a [u8]) -> Instruction<'a>
    ensures { result ≡ instruction_by keyword (words rest.now) (after_word rest.now) }
{
    match first_word(rest) {
        None => alone(keyword),
        Some((operand, more)) => match first_word(more) {
            None => with_operand(keyword, operand),
            Some((second, after)) => with_more(keyword, operand, more, second, after),
        },
    }
}

/// What a line of the console asks for.
pub fn instruction_in<'a>(line: &'a [u8]) -> Instruction<'a>
    ensures { result ≡ instruction_of line.now }
{
    match first_word(line) {
        None => Instruction::Command(DialogCommand::Nothing),
        Some((word, rest)) => with_rest(keyword_in(word), rest),
    }
}
