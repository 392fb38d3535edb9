//! A law of formed trees, the contract of a call that does nothing.

ghost use Rattle.std.specs.Prelude.{◌≡◌};
ghost use Rattle.grammar.specs.Nodes.{Node, spell};
ghost use Rattle.pas_parser.specs.Formed.{IsFormed};

/// Two formed trees of one spelling are equal.
pub fn one_formed_tree()
    ensures { (x y : Node) → IsFormed x → IsFormed y → spell x ≡ spell y → x ≡ y }
{}
