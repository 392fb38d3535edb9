//! Laws of the check, each the contract of a call that does nothing.

ghost use Rattle.code_checker.specs.{Laws.TooBigComesLast, OneProgram.RefusedOnce};
ghost use Rattle.code_checker.specs.Laws.{DeclarationsAreExact, DeclarationsCount, RulesAreTold, TokensStand};
ghost use Rattle.code_checker.specs.OneProgram.{AtMostOneProgram, DeclaredOnce, NeverBoth, OneTextOneProgram};

/// Where `check` answers that something is too big, no rule is broken, and it is the first that is too big.
pub fn too_big_comes_last()
    ensures { TooBigComesLast }
{}

/// What the check of the declarations alone finds broken is broken. So what `check` takes `declare` takes.
pub fn declarations_count()
    ensures { DeclarationsCount }
{}

/// What a text breaks it breaks at one of its own tokens. A rule is told before the others exactly if it is one of
/// declarations and names, and these are exactly the ones that `declare` finds.
pub fn broken_rules_stand()
    ensures tokens { TokensStand }
    ensures told { RulesAreTold }
    ensures exact { DeclarationsAreExact }
{}

/// A text has one tree without memory, so whichever formed tree it is read in, that breaks the same rules and denotes
/// the same program, and so do its declarations alone. Unless memory runs out, no text is both a program and refused,
/// and none is refused for two reasons or at two places. A source has at most one set of tables.
pub fn one_text_one_program()
    ensures text { OneTextOneProgram }
    ensures program { AtMostOneProgram }
    ensures refusal { NeverBoth }
    ensures reason { RefusedOnce }
    ensures tables { DeclaredOnce }
{}
