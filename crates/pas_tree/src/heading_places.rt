//! The tokens of headings.

ghost use Rattle.std.specs.Prelude.{◌≡◌};
ghost use Rattle.pas_tree.specs.{HeadingPlaces.heading_name, HeadingPlaces.heading_word, HeadingTrees.heading_tree};

use crate::headings::Heading;

/// The word `procedure` or `function`, with which a heading begins.
#[tactic(auto, using(crate::proofs::HeadingViews::heading_views))]
pub fn heading_word(heading: &Heading) -> u32
    ensures { result ≡ heading_word (heading_tree heading.now) }
{
    match heading {
        Heading::Procedure(procedure) => procedure.word,
        Heading::Function(function) => function.word,
    }
}

/// The name in a heading.
#[tactic(auto, using(crate::proofs::HeadingViews::heading_views))]
pub fn heading_name(heading: &Heading) -> u32
    ensures { result ≡ heading_name (heading_tree heading.now) }
{
    match heading {
        Heading::Procedure(procedure) => procedure.name,
        Heading::Function(function) => function.name,
    }
}
