//! What the tokens of a source spell.

ghost use Rattle.std.specs.Prelude.{◌<◌, ◌^◌, ◌≡◌, IfOk, OnOk, fold};
ghost use Rattle.indexmap.specs.IndexSet.{index_set_len};
ghost use Rattle.check_steps.specs.Words.{kept_text, name_number, names_of, required_constants, required_files};
ghost use Rattle.check_steps.specs.Words.{required_functions, required_names, required_procedures, required_types};
ghost use Rattle.check_steps.specs.Words.{spelled_by, texts_in, texts_of, with_name, with_name_of, words_of};

use crate::keyed::Keyed;
use indexmap::IndexSet;
use pas_lexer::{TokenKind, Tokens};
use std::alloc::{AllocError, Global};

/// How many names are required.
pub const REQUIRED_NAMES: u32 = 26;

/// What a token spells.
#[derive(Clone, Copy, PartialEq, Eq)]
pub enum Spelled {
    /// A name, by the number of its spelling: equal spellings have one number.
    Name(u32),
    /// An unsigned integer.
    Number(u32),
    /// A string.
    Text,
    Other,
}

/// A token as the check sees it.
#[derive(Clone, Copy)]
pub struct SpelledToken {
    pub spelled: Spelled,
    /// The line on which it stands.
    pub line: u32,
}

/// Adds a name, if it is new.
fn add_name(
    alloc: Global,
    names: &mut IndexSet<Vec<u8>, Keyed>,
    name: &[u8],
) -> Result<(), AllocError>
    ensures { OnOk result (texts_in names.new.keys ≡ with_name (texts_in names.old.keys) name.now) }
{
    if !names.contains(name) {
        let name = name.to_vec(alloc)?;
        names.insert(name)?;
    }
    Ok(())
}

fn add_types(alloc: Global, names: &mut IndexSet<Vec<u8>, Keyed>) -> Result<(), AllocError>
    ensures { OnOk result (texts_in names.new.keys ≡ fold with_name (texts_in names.old.keys) required_types) }
{
    add_name(alloc, names, b"integer")?;
    add_name(alloc, names, b"boolean")?;
    add_name(alloc, names, b"char")?;
    Ok(())
}

fn add_constants(alloc: Global, names: &mut IndexSet<Vec<u8>, Keyed>) -> Result<(), AllocError>
    ensures { OnOk result (texts_in names.new.keys ≡ fold with_name (texts_in names.old.keys) required_constants) }
{
    add_name(alloc, names, b"false")?;
    add_name(alloc, names, b"true")?;
    add_name(alloc, names, b"maxint")?;
    Ok(())
}

fn add_functions(alloc: Global, names: &mut IndexSet<Vec<u8>, Keyed>) -> Result<(), AllocError>
    ensures { OnOk result (texts_in names.new.keys ≡ fold with_name (texts_in names.old.keys) required_functions) }
{
    add_name(alloc, names, b"abs")?;
    add_name(alloc, names, b"sqr")?;
    add_name(alloc, names, b"odd")?;
    add_name(alloc, names, b"ord")?;
    add_name(alloc, names, b"chr")?;
    add_name(alloc, names, b"succ")?;
    add_name(alloc, names, b"pred")?;
    add_name(alloc, names, b"eof")?;
    add_name(alloc, names, b"eoln")?;
    Ok(())
}

fn add_procedures(alloc: Global, names: &mut IndexSet<Vec<u8>, Keyed>) -> Result<(), AllocError>
    ensures { OnOk result (texts_in names.new.keys ≡ fold with_name (texts_in names.old.keys) required_procedures) }
{
    add_name(alloc, names, b"read")?;
    add_name(alloc, names, b"readln")?;
    add_name(alloc, names, b"write")?;
    add_name(alloc, names, b"writeln")?;
    add_name(alloc, names, b"page")?;
    add_name(alloc, names, b"new")?;
    add_name(alloc, names, b"dispose")?;
    add_name(alloc, names, b"pack")?;
    add_name(alloc, names, b"unpack")?;
    Ok(())
}

fn add_files(alloc: Global, names: &mut IndexSet<Vec<u8>, Keyed>) -> Result<(), AllocError>
    ensures { OnOk result (texts_in names.new.keys ≡ fold with_name (texts_in names.old.keys) required_files) }
{
    add_name(alloc, names, b"input")?;
    add_name(alloc, names, b"output")?;
    Ok(())
}

/// The required names.
fn start_names(alloc: Global, keyed: Keyed) -> Result<IndexSet<Vec<u8>, Keyed>, AllocError>
    ensures { IfOk result (λ names. texts_in names.keys ≡ required_names) }
{
    let mut names = IndexSet::with_hasher(alloc, keyed);
    add_types(alloc, &mut names)?;
    add_constants(alloc, &mut names)?;
    add_functions(alloc, &mut names)?;
    add_procedures(alloc, &mut names)?;
    add_files(alloc, &mut names)?;
    Ok(names)
}

/// Adds the name that a token of this kind and spelling spells, if it spells one.
fn add_spelling(
    alloc: Global,
    names: &mut IndexSet<Vec<u8>, Keyed>,
    kind: TokenKind,
    spelling: &[u8],
) -> Result<(), AllocError>
    ensures { OnOk result (texts_in names.new.keys ≡ with_name_of kind (texts_in names.old.keys) spelling.now) }
{
    match kind {
        TokenKind::Name => add_name(alloc, names, spelling),
        _ => Ok(()),
    }
}

/// The spellings of names, each once: the required ones, and the others in the order in which they come.
pub fn names(
    alloc: Global,
    keyed: Keyed,
    tokens: &Tokens,
) -> Result<IndexSet<Vec<u8>, Keyed>, AllocError>
    ensures { IfOk result (λ names. texts_in names.keys ≡ names_of tokens.now) }
{
    let mut names = start_names(alloc, keyed)?;
    'tokens: for i in 0..tokens.len() {
        let token = tokens.at(i);
        add_spelling(alloc, &mut names, token.kind, tokens.spelling(i))?;
    }
    Ok(names)
}

/// The number of a name: its place among the names, and 0 where it is not among them.
fn number(names: &IndexSet<Vec<u8>, Keyed>, name: &[u8]) -> u32
    requires { index_set_len names.now < 2 ^ 32 }
    ensures { result ≡ name_number (texts_in names.now.keys) name.now }
{
    match names.get_index_of(name) {
        Some(number) => number as u32,
        None => 0,
    }
}

/// What a token of this kind and spelling spells.
fn spelling_of(names: &IndexSet<Vec<u8>, Keyed>, kind: TokenKind, spelling: &[u8]) -> Spelled
    requires { index_set_len names.now < 2 ^ 32 }
    ensures { result ≡ spelled_by (texts_in names.now.keys) kind spelling.now }
{
    match kind {
        TokenKind::Name => Spelled::Name(number(names, spelling)),
        TokenKind::Number(value) => Spelled::Number(value),
        TokenKind::Text => Spelled::Text,
        _ => Spelled::Other,
    }
}

/// What the tokens are.
pub fn words(
    alloc: Global,
    names: &IndexSet<Vec<u8>, Keyed>,
    tokens: &Tokens,
) -> Result<Vec<SpelledToken>, AllocError>
    requires { index_set_len names.now < 2 ^ 32 }
    ensures { IfOk result (λ words.
        words.items ≡ words_of (texts_in names.now.keys) tokens.now.source tokens.now.tokens) }
{
    let mut words = Vec::new(alloc);
    'tokens: for i in 0..tokens.len() {
        let token = tokens.at(i);
        words.push(SpelledToken {
            spelled: spelling_of(names, token.kind, tokens.spelling(i)),
            line: token.line,
        })?;
    }
    Ok(words)
}

/// Of a name its text, of a string its characters, and nothing of another token.
fn kept(alloc: Global, kind: TokenKind, text: &[u8], spelling: &[u8]) -> Result<Vec<u8>, AllocError>
    ensures { IfOk result (λ v. v.items ≡ kept_text kind text.now spelling.now) }
{
    match kind {
        TokenKind::Name => text.to_vec(alloc),
        TokenKind::Text => spelling.to_vec(alloc),
        _ => Ok(Vec::new(alloc)),
    }
}

/// The texts of names and strings.
pub fn texts(alloc: Global, tokens: &Tokens) -> Result<Vec<Vec<u8>>, AllocError>
    ensures { IfOk result (λ texts. texts_in texts.items ≡ texts_of tokens.now.source tokens.now.tokens) }
{
    let mut texts = Vec::new(alloc);
    'tokens: for i in 0..tokens.len() {
        let token = tokens.at(i);
        let text = kept(alloc, token.kind, tokens.text(i), tokens.spelling(i))?;
        texts.push(text)?;
    }
    Ok(texts)
}
