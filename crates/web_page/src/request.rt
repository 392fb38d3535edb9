//! What a turn asks of the command: its words, and the files that they name.
ghost use Rattle.std.specs.Prelude.{◌++◌, ◌∷◌, ◌≡◌, [], IfOk, OnOk, codes, map};
ghost use Rattle.std.specs.{Option.option_map, String.string_bytes};
ghost use Rattle.web_page.specs.{Outside.files_at_start, Turns.file_given, Turns.given_by};
ghost use Rattle.web_page.specs.Given.{turn_words, with_files, with_session};

use crate::outside::TurnFiles;
use crate::turn::{NamedFile, PageTurn};
use edge_ports::{Memory, Shelf};
use std::alloc::Global;
use std::string::String;

/// The name of the source's file.
const SOURCE: &str = "program.pas";

/// The name of the input's file.
const INPUT: &str = "program.input";

/// The name of the file of the session that is gone on with.
const LOADED: &str = "loaded.session";

/// Appends a word.
fn push_word(alloc: Global, words: &mut Vec<String>, word: &str) -> Result<(), Memory>
    ensures { OnOk result (map string_bytes words.new.items ≡ map string_bytes words.old.items ++ (word.now ∷ [])) }
{
    words.push(String::from_str(alloc, word)?)?;
    Ok(())
}

/// Appends the word that gives the budget.
fn push_budget(alloc: Global, words: &mut Vec<String>, digits: &str) -> Result<(), Memory>
    ensures { OnOk result (map string_bytes words.new.items
        ≡ map string_bytes words.old.items ++ ((codes "--budget=" ++ digits.now) ∷ [])) }
{
    let mut word = String::from_str(alloc, "--budget=")?;
    word.push_str(digits)?;
    words.push(word)?;
    Ok(())
}

/// The words of the command. The budget is one word with its option, so that no text can be read as an option.
pub(crate) fn words(alloc: Global, turn: &PageTurn) -> Result<Vec<String>, Memory>
    ensures { IfOk result (λ words. map string_bytes words.items ≡ turn_words (given_by turn.now)) }
{
    let mut words = Vec::new(alloc);
    push_word(alloc, &mut words, "pasask")?;
    push_word(alloc, &mut words, SOURCE)?;
    push_word(alloc, &mut words, "--input")?;
    push_word(alloc, &mut words, INPUT)?;
    push_budget(alloc, &mut words, turn.budget)?;
    if turn.session.is_none() {
        return Ok(words);
    }
    push_word(alloc, &mut words, "--load")?;
    push_word(alloc, &mut words, LOADED)?;
    Ok(words)
}

/// Puts further files onto the shelf.
fn put_files(shelf: &mut Shelf, files: &[NamedFile]) -> Result<(), Memory>
    ensures { OnOk result (shelf.new
        ≡ record shelf.old { files = with_files shelf.old.files (map file_given files.now) }) }
{
    for file in files {
        shelf.put(file.name, file.bytes)?;
    }
    Ok(())
}

/// Puts the session onto the shelf, if there is one.
fn put_session(shelf: &mut Shelf, session: Option<&[u8]>) -> Result<(), Memory>
    ensures { OnOk result (shelf.new ≡ record shelf.old {
      files = with_session shelf.old.files (option_map (λ it. it.now) session.entry);
    }) }
{
    match session {
        None => Ok(()),
        Some(session) => shelf.put(LOADED, session),
    }
}

/// The files of a turn, before the command begins.
pub(crate) fn files(alloc: Global, turn: &PageTurn) -> Result<TurnFiles, Memory>
    ensures { IfOk result (λ files. files ≡ files_at_start (given_by turn.now)) }
{
    let mut shelf = Shelf::new(alloc, &[])?;
    put_files(&mut shelf, turn.files)?;
    put_session(&mut shelf, turn.session)?;
    shelf.put(INPUT, turn.input)?;
    shelf.put(SOURCE, turn.source)?;
    Ok(TurnFiles::new(shelf))
}
