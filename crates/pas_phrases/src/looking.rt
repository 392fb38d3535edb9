//! Looking at the next token.

ghost use Rattle.std.specs.Prelude.{◌<◌, ◌^◌, ◌∷◌, ◌≡◌, [], IfOk, IsTrue, length};
ghost use Rattle.grammar.specs.{Nodes.leaf, Nodes.next, Reading.token_at, Terminals.one_of, Terminals.passes};
ghost use Rattle.pas_phrases.specs.Items.{IsInside, ReadsAs, goes_further, items_from};

use crate::fault::ParseFault;
use grammar::Terminal;
use std::marker::Model;

/// The terminals of a source's tokens, fewer than 2^32.
#[derive(Drop)]
pub struct TerminalList {
    items: Vec<Terminal>,
}

impl Model for TerminalList {
    ghost use Rattle.std.specs.Prelude.{◌<◌, ◌^◌, List, length};
    ghost use Rattle.grammar.specs.declared.terminals.Terminal.{Terminal};

    ghost Value = { List Terminal };

    ghost view = { λ t. t.items.items };

    ghost invariant = { λ t. length t.items.items < 2 ^ 32 };
}

impl TerminalList {
    /// Keeps these terminals.
    pub fn new(items: Vec<Terminal>) -> Self
        requires { length items.items < 2 ^ 32 }
        ensures { result ≡ items.items }
    {
        TerminalList { items }
    }

    /// How many there are.
    pub fn len(&self) -> u32
        ensures { result ≡ length self.now }
    {
        self.items.len() as u32
    }

    /// The terminal at a place, if there is one.
    pub fn get(&self, at: u32) -> Option<Terminal>
        ensures next { result ≡ next (items_from self.now at) }
        ensures inside { IsInside self.now at result }
    {
        match self.items.get(at as usize) {
            Some(found) => Some(*found),
            None => None,
        }
    }

    /// Whether the next token is of that terminal.
    pub fn is_next(&self, at: u32, wanted: Terminal) -> bool
        ensures tests { result ≡ passes (wanted ∷ []) (next (items_from self.now at)) }
        ensures inside { IsTrue result → at < length self.now }
    {
        match self.get(at) {
            Some(found) => found.is(wanted),
            None => false,
        }
    }

    /// Whether the next token is of one of these terminals.
    pub fn is_next_of(&self, at: u32, wanted: &[Terminal]) -> bool
        ensures tests { result ≡ passes wanted.now (next (items_from self.now at)) }
        ensures inside { IsTrue result → at < length self.now }
    {
        match self.get(at) {
            Some(found) => is_one_of(found, wanted),
            None => false,
        }
    }

    /// Whether the next token is a separator and the one after it one of these terminals.
    #[tactic(auto, using(crate::proofs::NextToken::second_there))]
    pub fn is_next_pair(&self, at: u32, separator: Terminal, wanted: &[Terminal]) -> bool
        ensures tests { result ≡ goes_further separator wanted.now (items_from self.now at) }
        ensures inside { IsTrue result → at < length self.now }
    {
        match self.get(at) {
            Some(found) => {
                if found.is(separator) {
                    self.is_next_of(at + 1, wanted)
                } else {
                    false
                }
            }
            None => false,
        }
    }

    /// Takes a token of that terminal: its number, and the place after it.
    pub fn expect(&self, at: u32, wanted: Terminal) -> Result<(u32, u32), ParseFault>
        ensures gives { ReadsAs self.now (leaf wanted) result (token_at (wanted ∷ []) (items_from self.now at)) }
        ensures forward { IfOk result (λ x. at < x.1) }
    {
        match self.get(at) {
            Some(found) => {
                if found.is(wanted) {
                    Ok((at, at + 1))
                } else {
                    Err(ParseFault::NotProgram(at))
                }
            }
            None => Err(ParseFault::NotProgram(at)),
        }
    }
}

/// Whether a terminal is one of these.
pub fn is_one_of(found: Terminal, wanted: &[Terminal]) -> bool
    ensures { result ≡ one_of wanted.now found }
{
    'search: for terminal in wanted {
        if found.is(*terminal) {
            return true;
        }
    }
    false
}
