//! Broken rules and their order.

ghost use Rattle.std.specs.Prelude.{◌≡◌};
ghost use Rattle.check_steps.specs.Breaks.{fault_of, group, is_before, number};

use std::alloc::AllocError;
use thiserror::Error;

/// What is broken at a token.
#[derive(Clone, Copy, PartialEq, Eq)]
pub enum Broken {
    /// A rule that can be told from the declarations and the names alone.
    Early(u32),
    /// Another rule.
    Late(u32),
    /// No rule, but a variable of more cells than there may be is asked for.
    TooBig,
}

/// A broken rule, and the token where.
#[derive(Clone, Copy, PartialEq, Eq)]
pub struct Break {
    pub broken: Broken,
    pub token: u32,
}

impl Break {
    fn group(&self) -> u32
        ensures { result ≡ group self.now.broken }
    {
        match self.broken {
            Broken::Early(_) => 0,
            Broken::Late(_) => 1,
            Broken::TooBig => 2,
        }
    }

    fn number(&self) -> u32
        ensures { result ≡ number self.now.broken }
    {
        match self.broken {
            Broken::Early(rule) => rule,
            Broken::Late(rule) => rule,
            Broken::TooBig => 0,
        }
    }

    /// Whether it is told rather than the other: the early rules come first and too many cells last; then the order is
    /// that of the tokens, and at one token that of the rules' numbers.
    pub fn is_before(&self, other: &Break) -> bool
        ensures { result ≡ is_before self.now other.now }
    {
        let (mine, others) = (self.group(), other.group());
        mine < others
            || (mine == others
                && (self.token < other.token
                    || (self.token == other.token && self.number() < other.number())))
    }

    /// What a check answers of it.
    pub fn fault(&self) -> CheckFault
        ensures { result ≡ fault_of self.now }
    {
        match self.broken {
            Broken::Early(rule) => CheckFault::Rule(rule, self.token),
            Broken::Late(rule) => CheckFault::Rule(rule, self.token),
            Broken::TooBig => CheckFault::TooBig(self.token),
        }
    }
}

/// Why a program is refused.
#[derive(Clone, Copy, PartialEq, Eq, Debug, Error)]
pub enum CheckFault {
    /// The static rule of this number is broken at this token.
    #[error("rule {0} is broken at token {1}")]
    Rule(u32, u32),
    /// A variable of the type at this token would have more than 65,536 cells.
    #[error("too many cells at token {0}")]
    TooBig(u32),
    /// There was not enough memory.
    #[error("out of memory")]
    Memory,
}

impl From<AllocError> for CheckFault {
    ghost use Rattle.check_steps.specs.declared.breaks.CheckFault.TheVariants.{Memory};

    ghost from_gives = { λ _ e. e ≡ Memory };

    fn from(_: AllocError) -> Self {
        CheckFault::Memory
    }
}
