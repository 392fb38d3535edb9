//! Laws of the grammar and its trees, each the contract of a call that does nothing.

ghost use Rattle.std.specs.Prelude.{◌≡◌, true};
ghost use Rattle.grammar.specs.{Deciding.IsDecided, Loose.IsGrammatical};
ghost use Rattle.pas_tree.specs.{Blocks.tree_node, FirstFollow.pascal, OneTree.NodesTellTrees, OneTree.TextTellsTree};
ghost use Rattle.pas_tree.specs.{Rules.program_rule, Rules.rule, declared.blocks.Tree.Tree};
ghost use Rattle.pas_tree.specs.FirstRefused.{IsExactWhereFirst, IsExactWhereRead};

/// In the grammar of Pascal the next token decides each choice, and the tables of what begins and
/// follows each construct are right.
pub fn one_token_decides()
    ensures { IsDecided pascal program_rule ≡ true }
{}

/// Each tree's node is a tree of the grammar at some nesting, whichever `if` its `else` parts belong to.
pub fn trees_fit_the_grammar()
    ensures { (t : Tree) → IsGrammatical rule program_rule (tree_node t) }
{}

/// Programs with equal nodes have equal trees without memory: a node keeps all that a tree says.
/// So a text has at most one formed tree.
pub fn nodes_tell_trees()
    ensures nodes { NodesTellTrees }
    ensures text { TextTellsTree }
{}

/// What a reader's answer says of a program: which token is the first that is too deep, or else the first
/// with which no tree goes on, or that there is neither.
pub fn refusals_are_exact()
    ensures { IsExactWhereRead }
{}

/// And back: such a token is the one that the reader refuses, for that reason.
pub fn first_refusals()
    ensures { IsExactWhereFirst }
{}
