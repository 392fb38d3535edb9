//! Parsing a whole program.

ghost use Rattle.std.specs.Prelude.{◌≡◌, IfOk};
ghost use Rattle.grammar.specs.Nodes.{Node, spell};
ghost use Rattle.pas_tree.specs.Blocks.{tree_node};
ghost use Rattle.pas_parser.specs.{Exact.IsExact, Formed.IsFormed, Formed.IsRefusal, Formed.IsTheTree, Formed.items_of};

use crate::blocks::read_tree;
use crate::kinds::terminals;
use pas_lexer::Tokens;
use pas_phrases::ParseFault;
use pas_tree::blocks::Tree;
use std::alloc::Global;

/// How deep blocks, headings, statements, types, variant parts and factors may be nested.
pub const MAX_NESTING: u32 = 200;

/// The one formed tree that spells the tokens.
pub fn parse(alloc: Global, tokens: &Tokens) -> Result<Tree, ParseFault>
    // The tree is formed and spells the tokens.
    ensures found { IfOk result (λ t. IsFormed (tree_node t) × (spell (tree_node t) ≡ items_of tokens.now.tokens)) }

    // Where a formed tree spells them, it is the answer, unless memory runs out.
    ensures only { (x : Node) → IsFormed x → spell x ≡ items_of tokens.now.tokens → IsTheTree x result }

    // A refusal names a token such that no formed tree's spelling begins with the tokens up to it.
    ensures refused { IsRefusal tokens.now.tokens result }

    // And it is the first token that is too deep, or else the first with which no shaped tree goes on.
    ensures exact { IsExact tokens.now.tokens result }
{
    let terminals = terminals(alloc, tokens)?;
    let (tree, after) = read_tree(alloc, &terminals, 0, MAX_NESTING)?;
    if after < terminals.len() {
        return Err(ParseFault::NotProgram(after));
    }
    Ok(tree)
}
