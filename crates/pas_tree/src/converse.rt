//! The laws of this crate, each the contract of a call that does nothing.

ghost use Rattle.pas_tree.specs.TypedTrees.{GrammaticalHaveTrees, HopelessForTrees, ShapedHaveTrees, TooDeepForTrees};
ghost use Rattle.pas_tree.specs.TypedTrees.{TreesGoOn};

/// Each node of the grammar whose lists fit vectors is the node of a typed tree, at whatever nesting. By
/// `trees_fit_the_grammar` of `pas_tree` no other node is.
pub fn shaped_nodes_have_trees()
    ensures grammatical { GrammaticalHaveTrees }
    ensures shaped { ShapedHaveTrees }
{}

/// What refusals say of shaped nodes of any length holds of typed trees as well, for fewer than 2 ^ 32 tokens, as
/// many as a text has: where a shaped node goes on from them, a typed tree does. So a token is hopeless exactly if
/// no typed tree goes on with it, and too deep exactly if it is so in a typed tree.
pub fn typed_trees_go_on()
    ensures goes { TreesGoOn }
    ensures hopeless { HopelessForTrees }
    ensures deep { TooDeepForTrees }
{}
