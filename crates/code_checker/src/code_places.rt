//! Where blocks begin (6.2.1).

ghost use Rattle.std.specs.Prelude.{◌≡◌, option_map};
ghost use Rattle.pas_tree.specs.BlockTrees.{block_tree, constant_part_tree, label_part_tree, type_part_tree};
ghost use Rattle.code_checker.specs.CodePlaces.{first_of_block, first_of_parts, span_of};

use check_steps::Span;
use decl_checker::blocks::after_types;
use pas_tree::blocks::{Block, ConstantPart, LabelPart, TypePart};

fn first_of_parts(
    labels: &Option<LabelPart>,
    constants: &Option<ConstantPart>,
    types: &Option<TypePart>,
    after: u32,
) -> u32
    ensures { result ≡ first_of_parts (option_map label_part_tree labels.now)
        (option_map constant_part_tree constants.now)
        (option_map type_part_tree types.now) after }
{
    match (labels, constants, types) {
        (Some(part), _, _) => part.word,
        (None, Some(part), _) => part.word,
        (None, None, Some(part)) => part.word,
        (None, None, None) => after,
    }
}

/// The first token of a block: that of the first of its parts.
#[tactic(auto, using(pas_tree::proofs::BlockViews::block_view))]
pub fn first_of_block(b: &Block) -> u32
    ensures { result ≡ first_of_block (block_tree b.now) }
{
    first_of_parts(&b.labels, &b.constants, &b.types, after_types(b))
}

/// A block by its first token and the first token of its statement part.
#[tactic(auto, using(pas_tree::proofs::BlockViews::block_view, pas_tree::proofs::StatementViews::compound_view))]
pub fn span_of(b: &Block) -> Span
    ensures { result ≡ span_of (block_tree b.now) }
{
    Span {
        first: first_of_block(b),
        statements: b.body.begin,
    }
}
