//! Laws of the definitions, each the contract of a call that does nothing.

ghost use Rattle.run_laws.specs.{JumpLaws.JumpsLeadOutward, PointerLaws.RunsKeepPointers};
ghost use Rattle.run_laws.specs.HeapLaws.{FirstVariableBeginsHeap, HeapIsMadeFirst, MissesEndCalls};
ghost use Rattle.run_laws.specs.ParameterLaws.{ActualsFillParameters, CopiesHaveParameters};

/// Where a cell is not there that a call asks for, the call touches nothing after that, and it ends with the fault
/// `Disposed`. So it is in each run, whatever the tables of its program.
pub fn misses_end_calls()
    ensures { MissesEndCalls }
{}

/// No cell of the heap is read, found or written, and no block is dropped, before the run made a variable there; and
/// the first variable begins where the heap begins. So it is in each run, whatever the tables of its program.
pub fn heap_is_made_first()
    ensures made { HeapIsMadeFirst }
    ensures first { FirstVariableBeginsHeap }
{}

/// Each pointer that a cell holds before or after a call, that the call takes or that it gives, leads to the part of
/// the heap in which the run has made variables so far. So it is in each run, whatever the tables of its program.
pub fn pointers_lead_to_what_was_made()
    ensures { RunsKeepPointers }
{}

/// A jump out of a call leads into the frame of the call that made it, or it ends that one, too. So the calls that it
/// ends are those from it outward to the one that has the frame, or all of them. So it is in each run, whatever the
/// tables of its program.
pub fn jumps_lead_outward()
    ensures { JumpsLeadOutward }
{}

/// Where the tables of a program are laid out, what a call begins with fills the parameters of its routine, in order,
/// and the copies of arrays that are passed by value stand behind all other cells of its frame, each where its
/// parameter has the address. Where there are copies, a parameter by copy has the address of the first. So it is in
/// each run of such tables.
pub fn actuals_fill_parameters()
    ensures filled { ActualsFillParameters }
    ensures copies { CopiesHaveParameters }
{}
