//! Laws of the own work of calls and of their records, each the contract of a call that does nothing.

ghost use Rattle.body_replay.specs.Laws.{AgreementIsTested, BodiesGiveTheirExits, CallsCarryToThemselves};

use core_program::bodies_repeat;

/// The body of each call of a run, run from its recorded entry with the recorded effects of the calls that it makes,
/// gives exactly the call's recorded way out, result and exit.
pub fn bodies_give_their_exits()
    ensures { BodiesGiveTheirExits }
{
    // At each depth that is enough it does.
    bodies_repeat();
}

/// Each call of a run that ended by itself, by a jump or by a fault agrees with its own recorded entry, and its
/// recorded effect makes its recorded exit of that entry.
pub fn calls_carry_to_themselves()
    ensures { CallsCarryToThemselves }
{}

/// The test of agreement, by which a dialog says whether a record carries, says what agreement is.
pub fn agreement_is_tested()
    ensures { AgreementIsTested }
{}
