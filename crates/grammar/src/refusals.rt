//! Laws of refusals, each the contract of a call that does nothing.

ghost use Rattle.grammar.specs.RefusalLaws.{DeepIsBegun, DeepIsFirst, DeepIsShaped, FirstIsDeep, FirstIsStop};
ghost use Rattle.grammar.specs.RefusalLaws.{FormedIsNotDeep, FormedOrDeep, ReadHasNeither, RefusedIsBegun, StopIsFirst};
ghost use Rattle.grammar.specs.RefusalLaws.{SurplusIsHopeless, UnfitIsHopeless};

/// A tree in which at most n levels are nested is one in which no node of nesting n + 1 begins.
pub fn nesting_is_depth()
    ensures formed { FormedIsNotDeep }
    ensures deep { FormedOrDeep }
    ensures shaped { DeepIsShaped }
{}

/// No token is refused too early: with an unfit one no tree goes on, however deep the tree is nested.
pub fn refused_is_hopeless()
    ensures unfit { UnfitIsHopeless }
    ensures surplus { SurplusIsHopeless }
{}

/// No token is refused too late: what stands before it begins the spelling of a tree, and with one that is
/// refused as too deep a tree goes on, in which a node begins there that is nested too deep.
pub fn refused_is_begun()
    ensures any { RefusedIsBegun }
    ensures deep { DeepIsBegun }
{}

/// The token that is refused as too deep is the first that is too deep.
pub fn deep_is_first()
    ensures refused { DeepIsFirst }
    ensures only { FirstIsDeep }
{}

/// Where no token is too deep, the token at which reading stops is the first hopeless one.
pub fn stop_is_first()
    ensures stops { StopIsFirst }
    ensures only { FirstIsStop }
    ensures read { ReadHasNeither }
{}
