//! Laws of grammars and their readers, each the contract of a call that does nothing.

ghost use Rattle.grammar.specs.Ending.{RefusedIsInside};
ghost use Rattle.grammar.specs.Laws.{FormedIsFound, FoundIsFormed, OneTree, RefusedIsWrong, SurplusIsWrong};

/// The reader of a grammar in which one token decides each choice gives exactly the formed trees.
pub fn reading_is_exact()
    ensures found { FoundIsFormed }
    ensures formed { FormedIsFound }
    ensures one_tree { OneTree }
{}

/// A token that is refused is not refused too early: no formed tree goes on with it.
pub fn refusals_are_right()
    ensures refused { RefusedIsWrong }
    ensures surplus { SurplusIsWrong }
{}

/// Where a terminal stands at the end of a text alone, what has it is refused at a token of its own.
pub fn refusals_are_inside()
    ensures { RefusedIsInside }
{}
