//! Laws of calls that are alike, each the contract of a call that does nothing.
ghost use Rattle.answer_reuse.specs.Laws.{AlikeAreAsLarge, AlikeDidTheSame, AlikeShareClasses, AlikeTouchedTheSame};
ghost use Rattle.answer_reuse.specs.Laws.{LikenessIsTested, MarksAreShared};

use body_replay::calls_carry_to_themselves;
use core_program::{records_stand, states_are_sound};

/// Two calls of a run that are alike ended the same way, with the same result, and had the same effect: so one answer
/// serves both.
pub fn alike_calls_did_the_same()
    ensures same { AlikeDidTheSame }
    // They made as many calls, those below them counted; so no call is alike to one below it.
    ensures large { AlikeAreAsLarge }
{
    // The entry of either, with ample steps and no calls before, is sound, and both records stand there.
    states_are_sound();
    calls_carry_to_themselves();
    records_stand();
}

/// And all that they did is the same, entry by entry, but for where in the input they began.
pub fn alike_calls_touched_the_same()
    ensures { AlikeTouchedTheSame }
{
    calls_carry_to_themselves();
}

/// The test of likeness, by which a dialog tells classes, says what likeness is, and the key tells it too.
pub fn likeness_is_tested()
    ensures { LikenessIsTested }
{}

/// Two calls of a run are of one class exactly where they are alike, so that the class of a call has it and all that
/// are alike to it.
pub fn alike_calls_share_classes()
    ensures { AlikeShareClasses }
{
    alike_calls_did_the_same();
}

/// After whatever judgements on all calls alike to one, taking these back, trust, and taking trust back, the mark of
/// each call is the one that the last of them on a call alike to it left, and the state of the search is that of these
/// marks. The calls alike to one are those of its class.
pub fn marks_are_shared()
    ensures { MarksAreShared }
{}
