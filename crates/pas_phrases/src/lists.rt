//! Reading a list: one part after the other.

ghost use Rattle.std.specs.Prelude.{◌<◌, ◌≡◌, ◌≤◌, IfOk, IsTrue, List, length, map};
ghost use Rattle.grammar.proofs.Lists.{Repeats};
ghost use Rattle.grammar.specs.{Grammars.Grammar, Grammars.many, Nodes.Node, Nodes.next, Nodes.row, Reading.read};
ghost use Rattle.grammar.specs.{Terminals.passes, declared.terminals.Terminal.Terminal};
ghost use Rattle.pas_tree.specs.FirstFollow.{pascal};
ghost use Rattle.pas_phrases.specs.Items.{ReadsAs, items_from};

use crate::fault::ParseFault;
use crate::looking::TerminalList;
use std::alloc::Global;

/// What a list repeats: how a part is read, and where another one comes. A type that implements it names a list,
/// and has no values.
pub trait ListPart {
    /// A part that was read.
    type Tree: Drop;

    ghost node: { Self.Tree → Node };

    ghost rule: { Grammar };

    ghost starts: { List Terminal };

    /// Whether another part comes.
    fn is_next(tokens: &TerminalList, at: u32) -> bool
        ensures tests { result ≡ passes starts (next (items_from tokens.now at)) }
        ensures inside { IsTrue result → at < length tokens.now };

    /// Reads a part, in which `depth` more levels may be nested.
    fn read(
        alloc: Global,
        tokens: &TerminalList,
        at: u32,
        depth: u32,
    ) -> Result<(Self::Tree, u32), ParseFault>
        ensures gives { ReadsAs tokens.now node result (read pascal depth rule (items_from tokens.now at)) }
        ensures forward { IfOk result (λ x. at < x.1) };

    ghost repeats: { Repeats rule };
}

/// Reads parts as long as another one comes, in which `depth` more levels may be nested: the parts in their order,
/// and the place after the last one. The first part that can't be read is the failure of the whole.
#[tactic(auto, using(crate::proofs::ReadLists::list_reading))]
pub fn read_list<P: ListPart>(
    alloc: Global,
    tokens: &TerminalList,
    at: u32,
    depth: u32,
) -> Result<(Vec<P::Tree>, u32), ParseFault>
    ensures gives { ReadsAs tokens.now (λ v. row (map P.node v.items)) result
        (read pascal depth (many P.starts P.rule) (items_from tokens.now at)) }
    ensures forward { IfOk result (λ x. at ≤ x.1) }
{
    let mut parts = Vec::new(alloc);
    let mut next = at;
    'parts: while P::is_next(tokens, next) {
        let (part, after) = P::read(alloc, tokens, next, depth)?;
        parts.push(part)?;
        next = after;
    }
    Ok((parts, next))
}
