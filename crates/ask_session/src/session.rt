//! A session on the console: what it opens with, and the dialog.
ghost use Rattle.std.specs.Prelude.{◌≡◌, ◌⊎◌, ℕ, IsSome, IsTrue, List, None, Some};
ghost use Rattle.edge_ports.specs.{Counts.Counted, Lines.lines_of};
ghost use Rattle.dialog_replies.specs.{Fit.misfit, Start.IsWholeStart};
ghost use Rattle.ask_session.specs.{Dialog.Granted, Dialog.transcript, Heard.is_console, Heard.is_screen};
ghost use Rattle.ask_session.specs.{LineActs.EntriesFollowLines, Reached.Reached, Reached.telling, Went.Went};
ghost use Rattle.ask_session.specs.Console.{EndsInTime, FirstAnswered, GaveOf, GoesOn, NotRisen};
ghost use Rattle.ask_session.specs.Laws.{AsksTheBest, FindsTheFault, NamesTheAccused, NarrowsTheFault};
ghost use Rattle.ask_session.specs.Wishes.{AreReadIn, CountsAfter, FilesAfter, wishes_in};

use crate::desk::Desk;
use crate::dialog::{Ending, answer_lines, give_reply};
use crate::laws::{entries_follow_lines, search_is_sound};
use dialog_replies::{Debugged, Start, open, refusal, resume};
use edge_ports::{Keeper, Lines, Printer, Source, print_all};
use std::alloc::Global;

/// Gives the opening, and then answers the console.
fn hold_session<D: Debugged, K: Keeper, I: Source, O: Printer>(
    alloc: Global,
    run: &D,
    start: &Start,
    keeper: &mut K,
    console: &mut I,
    screen: &mut O,
) -> Ending
    requires whole { IsWholeStart start.now }
    requires fits { misfit (D.subject run.now) start.now ≡ None }
    ensures goes { Went (D.reads run.now) (D.subject run.now) start.now
        (record {
          files = K.files keeper.old;
          counts = K.counts keeper.old;
          streams = record { left = I.left console.old; given = O.given screen.old };
        })
        result
        (record {
          files = K.files keeper.new;
          counts = K.counts keeper.new;
          streams = record { left = I.left console.new; given = O.given screen.new };
        }) }
    ensures console_faults { Counted (is_console result)
        (I.faults console.old) (I.faults console.new) }
    ensures screen_faults { Counted (is_screen result) (O.faults screen.old) (O.faults screen.new) }
    ensures last { IsTrue (is_screen result) → IsTrue (O.last_failed screen.new) }
    ensures loan { O.loan screen.new ≡ O.loan screen.old }
{
    let Ok(mut lines) = Lines::new(alloc) else {
        return Ending::Memory;
    };
    let Ok(dialog) = resume(alloc, run, start) else {
        return Ending::Memory;
    };
    let mut desk = Desk {
        dialog,
        reference: None,
    };
    let Ok(opening) = open(alloc, run, start, &mut desk.dialog) else {
        return Ending::Memory;
    };
    match give_reply(screen, run, &desk.dialog, &opening) {
        Ok(()) => answer_lines(
            alloc, run, start, keeper, &mut desk, &mut lines, console, screen,
        ),
        Err(_) => Ending::Screen,
    }
}

/// Holds the session, or refuses a saved session that does not fit.
fn hold_if_fit<D: Debugged, K: Keeper, I: Source, O: Printer>(
    alloc: Global,
    run: &D,
    start: &Start,
    keeper: &mut K,
    console: &mut I,
    screen: &mut O,
) -> Ending
    requires whole { IsWholeStart start.now }
    ensures goes { Went (D.reads run.now) (D.subject run.now) start.now
        (record {
          files = K.files keeper.old;
          counts = K.counts keeper.old;
          streams = record { left = I.left console.old; given = O.given screen.old };
        })
        result
        (record {
          files = K.files keeper.new;
          counts = K.counts keeper.new;
          streams = record { left = I.left console.new; given = O.given screen.new };
        }) }
    ensures console_faults { Counted (is_console result)
        (I.faults console.old) (I.faults console.new) }
    ensures screen_faults { Counted (is_screen result) (O.faults screen.old) (O.faults screen.new) }
    ensures last { IsTrue (is_screen result) → IsTrue (O.last_failed screen.new) }
    ensures loan { O.loan screen.new ≡ O.loan screen.old }
{
    match refusal(alloc, run, start) {
        Ok(None) => hold_session(alloc, run, start, keeper, console, screen),
        Ok(Some(line)) => match print_all(screen, line.as_slice()) {
            Ok(()) => Ending::Refused,
            Err(_) => Ending::Screen,
        },
        Err(_) => Ending::Memory,
    }
}

/// A session about a run. It gives the card of call 0 and a report to the screen, as the saved session's entries
/// stand, and then the reply to each line of the console, up to `quit` or the console's end. A line that asks for it
/// stores the session of that moment; another fetches a right program, which then answers for the user. Where the
/// saved session is of another run, the replies alone that it keeps are gone on with, and a line before the card says
/// so. What the session gives is a function of the run's columns, names and texts, of the start, of the console's
/// bytes, of whether each file was stored, and of what was fetched. A saved session that does not fit the run is
/// refused by one line.
///
/// A store or a fetch that runs out of memory ends the session with `Memory`.
pub fn converse<D: Debugged, K: Keeper, I: Source, O: Printer>(
    alloc: Global,
    run: &D,
    start: &Start,
    keeper: &mut K,
    console: &mut I,
    screen: &mut O,
) -> Ending
    requires whole { IsWholeStart start.now }
    // Where the console tells its bytes: what the keeper gave to each line that asks it to store or to fetch a file,
    // and that what was fetched was read as what it is; what the screen got, and of how many lines, each of whose
    // wishes was answered; what became of the files and of the keeper's counts; and how the session ends if neither
    // the console nor the screen failed, whatever the keeper did.
    ensures transcript { (bytes : List ℕ) → I.left console.old ≡ Some bytes → (granted : List Granted)
        × AreReadIn (D.reads run.now) granted
        × FirstAnswered result granted (wishes_in (D.subject run.now) start.now granted (lines_of bytes))
        × GaveOf result (O.given screen.old) (O.given screen.new)
        (transcript (D.subject run.now) start.now granted bytes)
        × FilesAfter granted (wishes_in (D.subject run.now) start.now granted (lines_of bytes)) (K.files keeper.old)
        (K.files keeper.new)
        × Reached (telling (D.subject run.now) start.now) (lines_of bytes) granted (O.given screen.old)
        (O.given screen.new)
        × CountsAfter result granted (K.counts keeper.old) (K.counts keeper.new) }
    ensures complete { (bytes : List ℕ) → I.left console.old ≡ Some bytes → EndsInTime bytes
        → misfit (D.subject run.now) start.now ≡ None
        → NotRisen (I.faults console.old) (I.faults console.new) → NotRisen (O.faults screen.old) (O.faults screen.new)
        → (result ≡ Ending.Done) ⊎ (result ≡ Ending.Memory) }
    ensures limit { (bytes : List ℕ) → I.left console.old ≡ Some bytes → GoesOn bytes
        → misfit (D.subject run.now) start.now ≡ None
        → NotRisen (I.faults console.old) (I.faults console.new) → NotRisen (O.faults screen.old) (O.faults screen.new)
        → (result ≡ Ending.Spent) ⊎ (result ≡ Ending.Memory) }
    // A saved session that does not fit is refused, and no other.
    ensures unfit { IsSome (misfit (D.subject run.now) start.now)
        → NotRisen (O.faults screen.old) (O.faults screen.new)
        → (result ≡ Ending.Refused) ⊎ (result ≡ Ending.Memory) }
    ensures refused { result ≡ Ending.Refused → IsSome (misfit (D.subject run.now) start.now) }
    // What the questions and the verdicts among the reports say.
    ensures asks { AsksTheBest (D.subject run.now) }
    ensures narrows { NarrowsTheFault (D.subject run.now) }
    ensures names { NamesTheAccused (D.subject run.now) }
    ensures finds { FindsTheFault (D.subject run.now) }
    // Which entries stand after lines, whatever entries the session began with.
    ensures stands { EntriesFollowLines (D.subject run.now) }
    // Whether or not the objects tell their bytes: what was heard of the console and why the session ended, what the
    // screen got, and what became of the files and of the keeper's counts.
    ensures goes { Went (D.reads run.now) (D.subject run.now) start.now
        (record {
          files = K.files keeper.old;
          counts = K.counts keeper.old;
          streams = record { left = I.left console.old; given = O.given screen.old };
        }) result
        (record {
          files = K.files keeper.new;
          counts = K.counts keeper.new;
          streams = record { left = I.left console.new; given = O.given screen.new };
        }) }
    // A count rises where its object failed, and there alone.
    ensures console_faults { Counted (is_console result)
        (I.faults console.old) (I.faults console.new) }
    ensures screen_faults { Counted (is_screen result) (O.faults screen.old) (O.faults screen.new) }
    // No call of the screen comes after one that failed.
    ensures last { IsTrue (is_screen result) → IsTrue (O.last_failed screen.new) }
    ensures loan { O.loan screen.new ≡ O.loan screen.old }
{
    search_is_sound(run);
    entries_follow_lines();
    hold_if_fit(alloc, run, start, keeper, console, screen)
}
