//! What the words of the command ask for.
ghost use Rattle.std.specs.Prelude.{◌≡◌, ◌≢◌, Err, IfOk, IfSome, None, Some, codes, map};
ghost use Rattle.std.specs.{Option.option_map, String.string_bytes};
ghost use Rattle.clap.specs.Words.{found_of, kind_of, rows_of};
ghost use Rattle.clap.specs.declared.error.kind.ErrorKind.TheVariants as kind;
ghost use Rattle.debug_cli.specs.Meaning.{IsWithinLimits, made_meant, meant, meant_by, source_meant, value_among};
ghost use Rattle.debug_cli.specs.Reading.{meant_of};
ghost use Rattle.debug_cli.specs.declared.request.WordFault.TheVariants as fault;

use crate::budget::steps_asked;
use crate::command::command_line;
use crate::made_words::{after_make, number_in};
use clap::error::ErrorKind;
use clap::{ArgMatches, Error};
use std::alloc::{AllocError, Global};

/// A source that the words ask about.
#[derive(Clone, Copy, Debug)]
pub struct Request<'a> {
    /// The name of the source's file.
    pub source: &'a str,
    /// The name of the input's file. Where there is none the input is empty.
    pub input: Option<&'a str>,
    /// The name of the file of a session about this source, which is to go on.
    pub load: Option<&'a str>,
    /// The steps that the run may take, from 1 to `MOST_STEPS`.
    pub budget: u32,
}

/// What the words ask for.
#[derive(Clone, Copy, Debug)]
pub enum Asked<'a> {
    /// A source that a file holds.
    Source(Request<'a>),
    /// The made source of this number, from 1 to `MOST_MADE`.
    Made(u32),
}

/// Why words ask for nothing.
#[derive(Clone, Copy, Debug, PartialEq, Eq, Drop, thiserror::Error)]
pub enum WordFault {
    /// They are no words of the command, or the budget or the number of a made source is not spelled as it should be.
    #[error("the words are refused")]
    Refused,
    /// Memory ran out.
    #[error("out of memory")]
    Memory,
}

impl From<AllocError> for WordFault {
    ghost use Rattle.debug_cli.specs.declared.request.WordFault.TheVariants.{Memory};

    ghost from_gives = { λ _ e. e ≡ Memory };

    fn from(_e: AllocError) -> WordFault {
        WordFault::Memory
    }
}

/// The value of an argument, where it has one.
fn value_of<'a>(matches: &ArgMatches<'a>, name: &str) -> Option<&'a str>
    ensures { option_map (λ t. t.now) result ≡ value_among (rows_of (found_of matches.now)) name.now }
{
    matches.get_str(name)
}

/// The source that the values of the options ask about.
fn source_in<'a>(matches: &ArgMatches<'a>, source: &'a str) -> Option<Asked<'a>>
    ensures meant { option_map meant_of result ≡ source_meant source.entry.now
        (value_among (rows_of (found_of matches.now)) (codes "input"))
        (value_among (rows_of (found_of matches.now)) (codes "budget"))
        (value_among (rows_of (found_of matches.now)) (codes "load")) }
    ensures range { IfSome result (λ a. IsWithinLimits (meant_of a)) }
{
    let budget = steps_asked(value_of(matches, "budget"))?;
    Some(Asked::Source(Request {
        source,
        input: value_of(matches, "input"),
        load: value_of(matches, "load"),
        budget,
    }))
}

/// The made source of the number that this text spells, where there is no option.
fn made_in<'a>(matches: &ArgMatches<'a>, text: &str) -> Option<Asked<'a>>
    ensures meant { option_map meant_of result ≡ made_meant text.now
        (value_among (rows_of (found_of matches.now)) (codes "input"))
        (value_among (rows_of (found_of matches.now)) (codes "budget"))
        (value_among (rows_of (found_of matches.now)) (codes "load")) }
    ensures range { IfSome result (λ a. IsWithinLimits (meant_of a)) }
{
    if value_of(matches, "input").is_some()
        || value_of(matches, "budget").is_some()
        || value_of(matches, "load").is_some()
    {
        return None;
    }
    match number_in(text) {
        Some(number) => Some(Asked::Made(number)),
        None => None,
    }
}

/// What the values of the arguments ask for.
fn asked_in<'a>(matches: &ArgMatches<'a>) -> Option<Asked<'a>>
    ensures meant { option_map meant_of result ≡ meant_by (value_among (rows_of (found_of matches.now))) }
    ensures range { IfSome result (λ a. IsWithinLimits (meant_of a)) }
{
    let source = value_of(matches, "source")?;
    match after_make(source) {
        None => source_in(matches, source),
        Some(text) => made_in(matches, text),
    }
}

/// What an error of the parser comes to. Its text is not printed.
fn fault_of(error: &Error) -> WordFault
    ensures memory { kind_of error.now ≡ kind.OutOfMemory → result ≡ fault.Memory }
    ensures refused { kind_of error.now ≢ kind.OutOfMemory → result ≡ fault.Refused }
{
    match error.kind() {
        ErrorKind::OutOfMemory => WordFault::Memory,
        _ => WordFault::Refused,
    }
}

/// What the words of the command ask for; the first word is the program's name. Words are refused that the command line
/// does not have, by `clap`'s definition; that spell a budget otherwise than in one to seven decimal digits, or outside
/// of 1 to `MOST_STEPS`; whose source begins with `make:` and does not go on with a decimal number from 1 to
/// `MOST_MADE` without leading zero; and that give such a source an option.
pub fn read_words<'a>(alloc: Global, words: &'a [String]) -> Result<Asked<'a>, WordFault>
    ensures meant { IfOk result (λ a. meant (map string_bytes words.entry.now) ≡ Some (meant_of a)) }
    ensures refused { result ≡ Err fault.Refused → meant (map string_bytes words.entry.now) ≡ None }
    ensures range { IfOk result (λ a. IsWithinLimits (meant_of a)) }
{
    let command = command_line(alloc)?;
    match command.try_get_matches_from(words) {
        Ok(matches) => asked_in(&matches).ok_or(WordFault::Refused),
        Err(error) => Err(fault_of(&error)),
    }
}
