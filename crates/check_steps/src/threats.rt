//! Where routines threaten variables of the blocks around them (6.8.3.9).

ghost use Rattle.std.specs.Prelude.{◌-◌, ◌<◌, ◌≡◌, ◌≤◌, ℕ, IfOk, None, Some, false, replicate, slice_get, slice_set};
ghost use Rattle.std.specs.Prelude.{unwrap_or};
ghost use Rattle.check_steps.specs.Threats.{first_threat, is_threat, is_variable_of, lowered};

use std::alloc::{AllocError, Global};
use std::marker::Model;

/// By token, the variable that a routine threatens there, if it does threaten one. Clauses see this alone. Beside it
/// stands by variable where it is known that no routine threatens it: from one token on and before another. A search
/// passes over these tokens.
#[derive(Drop)]
pub(crate) struct Threats {
    variables: Vec<Option<u32>>,
    none_from: Vec<u32>,
    none_before: Vec<u32>,
}

impl Model for Threats {
    ghost use Rattle.std.specs.Prelude.{ℕ, List, Option};
    ghost use Rattle.check_steps.specs.Threats.{AreUnthreatened};

    ghost Value = { List (Option ℕ) };

    ghost view = { λ t. t.variables.items };

    ghost invariant = { λ t. AreUnthreatened t.variables.items t.none_from.items t.none_before.items };
}

fn is_variable_of(threatened: Option<u32>, variable: u32) -> bool
    ensures { result ≡ is_variable_of threatened variable }
{
    match threatened {
        Some(threatened) => threatened == variable,
        None => false,
    }
}

fn is_threat(threats: &[Option<u32>], variable: u32, token: u32) -> bool
    ensures { result ≡ is_threat threats.now variable token }
{
    match threats.get(token as usize) {
        Some(threatened) => is_variable_of(*threatened, variable),
        None => false,
    }
}

/// The first token from one on and before another at which a variable is threatened.
#[tactic(auto, using(crate::proofs::FirstThreat::search_on))]
fn first_from(threats: &[Option<u32>], variable: u32, from: u32, to: u32) -> Option<u32>
    ensures { result ≡ first_threat (to - from) threats.now variable from }
{
    'tokens: for token in from..to {
        if is_threat(threats, variable, token) {
            return Some(token);
        }
    }
    None
}

fn set(threats: &mut Vec<Option<u32>>, token: u32, variable: u32)
    ensures { threats.new.items ≡ slice_set threats.old.items token (Some variable) }
{
    let token = token as usize;
    if token < threats.len() {
        threats[token] = Some(variable);
    }
}

fn bound(bounds: &[u32], variable: u32) -> u32
    ensures { result ≡ unwrap_or (slice_get bounds.now variable) 0 }
{
    match bounds.get(variable as usize) {
        Some(token) => *token,
        None => 0,
    }
}

fn put_bound(bounds: &mut Vec<u32>, variable: u32, token: u32)
    ensures { bounds.new.items ≡ slice_set bounds.old.items variable token }
{
    let variable = variable as usize;
    if variable < bounds.len() {
        bounds[variable] = token;
    }
}

fn lower(bounds: &mut Vec<u32>, variable: u32, token: u32)
    ensures { bounds.new.items ≡ lowered bounds.old.items variable token }
{
    let variable = variable as usize;
    if variable < bounds.len() && token < bounds[variable] {
        bounds[variable] = token;
    }
}

impl Threats {
    /// This many tokens, at none of which a routine threatens a variable.
    pub fn new(alloc: Global, tokens: u32) -> Result<Self, AllocError>
        ensures { IfOk result (λ t. t ≡ replicate tokens None) }
    {
        let variables = vec![in alloc; None; tokens as usize]?;
        let none_from = vec![in alloc; 0; tokens as usize]?;
        let none_before = vec![in alloc; tokens; tokens as usize]?;
        Ok(Threats {
            variables,
            none_from,
            none_before,
        })
    }

    /// A routine threatens a variable at a token.
    pub fn put(&mut self, variable: u32, token: u32)
        ensures { self.new ≡ slice_set self.old token (Some variable) }
    {
        lower(&mut self.none_before, variable, token);
        set(&mut self.variables, token, variable);
    }

    /// Where a search from a token on may begin: no threat is passed over.
    fn begin(&self, variable: u32, from: u32) -> u32
        ensures order { from ≤ result }
        ensures none { (token : ℕ) → from ≤ token → token < result → is_threat self.now variable token ≡ false }
    {
        let (known, before) = (
            bound(&self.none_from, variable),
            bound(&self.none_before, variable),
        );
        if known <= from && from < before {
            before
        } else {
            from
        }
    }

    /// The first token from one on and before another at which a routine threatens a variable.
    fn search(&self, variable: u32, from: u32, to: u32) -> Option<u32>
        ensures { result ≡ first_threat (to - from) self.now variable from }
    {
        let begin = self.begin(variable, from);
        first_from(&self.variables, variable, begin, to)
    }

    /// The same. That there is none before it is kept for the next search.
    pub fn first(&mut self, variable: u32, from: u32, to: u32) -> Option<u32>
        ensures first { result ≡ first_threat (to - from) self.old variable from }
        ensures same { self.new ≡ self.old }
    {
        let first = self.search(variable, from, to);
        put_bound(&mut self.none_from, variable, from);
        put_bound(&mut self.none_before, variable, first.unwrap_or(to));
        first
    }
}
