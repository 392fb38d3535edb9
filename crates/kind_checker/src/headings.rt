//! Headings and their sections, by what a check knows (6.6.3.6).

ghost use Rattle.std.specs.Prelude.{◌≡◌};
ghost use Rattle.kind_checker.specs.Headings.{section_at, signature_at};

use check_steps::headings::{FormalSection, Signature};
use check_steps::{Tables, headings};

/// The parameters and the result of a heading, by its number; where none stands, those of a procedure without
/// parameters.
pub fn signature_at(tables: &Tables, heading: u32) -> Signature
    ensures { result ≡ signature_at tables.now heading }
{
    headings::signature_at(tables.program(), heading)
}

/// The section at a number and the number of the next one, and None where the list ends.
pub fn section_at(tables: &Tables, at: u32) -> Option<(FormalSection, u32)>
    ensures { result ≡ section_at tables.now at }
{
    headings::section_at(tables.program(), at)
}
