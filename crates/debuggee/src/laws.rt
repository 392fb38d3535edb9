//! Laws of what is told of calls, the contracts of calls that do nothing.

ghost use Rattle.debuggee.specs.LeftOut.{CardsLeaveOutLinks, CellsAreNamed, TracesLeaveOutNothing};
ghost use Rattle.debuggee.specs.Slicing.{SlicesAreTold};

/// Cards and traces leave nothing out in silence. A card has a line for each cell that the call read or changed, but
/// for links between frames; for each cell of a parameter, and for the result. A trace has a line for each event. Where
/// the tables of the program are laid out, a line tells a cell by its address only where it is the last one that a call
/// asks for in a run that makes no variable of the heap, and the call ends with the fault `Disposed`.
pub fn only_links_are_left_out()
    ensures cards { CardsLeaveOutLinks }
    ensures traces { TracesLeaveOutNothing }
    ensures names { CellsAreNamed }
{}

/// Where a name at a call of a run is told a slice, it names an output of that call; and a call is told exactly if one
/// of its outputs is in the slice of that one.
pub fn slices_tell_their_calls()
    ensures { SlicesAreTold }
{}
