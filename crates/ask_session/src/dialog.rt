//! The dialog on the console.
ghost use Rattle.std.specs.Prelude.{◌++◌, ◌<◌, ◌∷◌, ◌≡◌, ◌≤◌, [], Err, IfErr, IfOk, IsTrue, OnErr, OnOk, codes, false};
ghost use Rattle.std.specs.{Prelude.length, Prelude.option_map, Io.KnownBytes.IsAtEnd};
ghost use Rattle.edge_ports.specs.{Limits.line_bytes, Lines.Moves, Told.GaveAll, Told.GavePrefix, Turns.IsConsistent};
ghost use Rattle.edge_ports.specs.Counts.{Counted, counts_stored};
ghost use Rattle.edge_ports.specs.declared.ports.StoreFault.TheVariants as store;
ghost use Rattle.dialog_replies.specs.{Kept.IsDialogOf, Kept.said_in_dialog, Prepared.IsReply, Prepared.text_of_reply};
ghost use Rattle.dialog_replies.specs.{References.reading_by, Start.saved_text, Subject.calls_recorded};
ghost use Rattle.dialog_replies.specs.declared.start.Start.{Start as StartValue};
ghost use Rattle.ask_session.specs.{Desks.held_on, Heard.is_console, Heard.is_screen};
ghost use Rattle.ask_session.specs.Dialog.{Stored, ToFetch, ToStore, held_at_start, save_reply};
ghost use Rattle.ask_session.specs.Turned.{AnswersLine, ErrandGoes, LineAt, NextReply, ReplyGiven, Talked};
ghost use Rattle.ask_session.specs.Turned.{console_failed, reply_of_text, screen_failed, with_text};
ghost use Rattle.ask_session.specs.Wishes.{FetchFile, FileAfter, IsReadFrom, StoreFile, counts_granted};

use crate::desk::Desk;
use dialog_replies::{
    Debugged, Dialog, FileName, Instruction, REFERENCE_BYTES, Reading, Reply, Start, answer,
    instruction_in, print_reply, refer, session_text_of,
};
use edge_ports::{Bytes, FetchFault, Keeper, LineFault, Lines, Printer, Source, StoreFault, Turn};
use std::alloc::{AllocError, AllocFailed, Global};

/// How a dialog ended.
#[derive(Clone, Copy, Drop)]
pub enum Ending {
    /// `quit` or the console's end was read.
    Done,
    /// The console failed.
    Console,
    /// The screen failed.
    Screen,
    /// The most bytes that are taken of a console were taken, and no end was seen.
    Spent,
    /// Memory ran out.
    Memory,
    /// The saved session does not fit the run.
    Refused,
}

impl From<AllocError> for Ending {
    ghost use Rattle.std.specs.Prelude.{◌≡◌};
    ghost use Rattle.ask_session.specs.declared.dialog.Ending.TheVariants.{Memory};

    ghost from_gives = { λ _ e. e ≡ Memory };

    fn from(_e: AllocError) -> Ending {
        Ending::Memory
    }
}

impl<T: Drop> From<AllocFailed<T>> for Ending {
    ghost use Rattle.std.specs.Prelude.{◌≡◌};
    ghost use Rattle.ask_session.specs.declared.dialog.Ending.TheVariants.{Memory};

    ghost from_gives = { λ _ e. e ≡ Memory };

    fn from(_e: AllocFailed<T>) -> Ending {
        Ending::Memory
    }
}

/// Stores a text under this name. It answers whether it was stored.
fn store_text<K: Keeper>(
    alloc: Global,
    keeper: &mut K,
    name: &str,
    text: &[u8],
) -> Result<bool, Ending>
    ensures file { IfOk result (λ stored. FileAfter stored (record { file = name.now; text = text.now })
        (K.files keeper.old) (K.files keeper.new)) }
    ensures counts { IfOk result (λ stored. K.counts keeper.new
        ≡ counts_granted (Stored stored ∷ []) (K.counts keeper.old)) }
    ensures memory { IfErr result (λ e. e ≡ Ending.Memory) }
    ensures same_files { OnErr result (K.files keeper.new ≡ K.files keeper.old) }
    ensures one_store { OnErr result (K.counts keeper.new ≡ counts_stored (Err store.Memory) (K.counts keeper.old)) }
{
    match keeper.store(alloc, name, text) {
        Ok(()) => Ok(true),
        Err(StoreFault::Failed) => Ok(false),
        Err(StoreFault::Memory) => Err(Ending::Memory),
    }
}

/// Begin, the name of a file, and the end of the line.
fn file_line(alloc: Global, begin: &[u8], file: &FileName<'_>) -> Result<Bytes, Ending>
    ensures text { IfOk result (λ bytes. bytes ≡ begin.now ++ file.now ++ codes "\n") }
    ensures memory { IfErr result (λ e. e ≡ Ending.Memory) }
{
    let mut bytes = Bytes::new(alloc);
    bytes.append(begin)?;
    bytes.append(file.as_str().as_bytes())?;
    bytes.append(b"\n")?;
    Ok(bytes)
}

/// The reply to a line that asks to save, by whether its file was stored.
fn save_reply(alloc: Global, stored: bool, file: &FileName<'_>) -> Result<Bytes, Ending>
    ensures text { IfOk result (λ bytes. bytes ≡ save_reply stored file.now) }
    ensures memory { IfErr result (λ e. e ≡ Ending.Memory) }
{
    if stored {
        file_line(alloc, b"saved ", file)
    } else {
        file_line(alloc, b"not saved ", file)
    }
}

/// Saves the session of the moment in this file, and answers the reply.
fn save<D: Debugged, K: Keeper>(
    alloc: Global,
    run: &D,
    start: &Start,
    keeper: &mut K,
    desk: &mut Desk<'_, D::Reference>,
    file: &FileName<'_>,
) -> Result<Bytes, Ending>
    requires dialog { IsDialogOf (D.subject run.now) desk.old.dialog }
    ensures goes { ErrandGoes (D.reads run.now) (ToStore file.now)
        (StoreFile (record {
          file = file.now;
          text = saved_text (D.subject run.now) start.now (said_in_dialog desk.old.dialog);
        }))
        (record {
          held = held_on (D.tables run.now) desk.old;
          files = K.files keeper.old;
          counts = K.counts keeper.old;
        })
        result
        (record {
          held = held_on (D.tables run.now) desk.new;
          files = K.files keeper.new;
          counts = K.counts keeper.new;
        }) }
    ensures dialog { IsDialogOf (D.subject run.now) desk.new.dialog }
{
    let Ok(text) = session_text_of(alloc, run, start, &mut desk.dialog) else {
        return Err(Ending::Memory);
    };
    match store_text(alloc, keeper, file.as_str(), text.as_slice()) {
        Ok(stored) => save_reply(alloc, stored, file),
        Err(ending) => Err(ending),
    }
}

/// Fetches the file of this name, and answers what its bytes are read as; none where no file was fetched.
fn fetch_reading<D: Debugged, K: Keeper>(
    alloc: Global,
    run: &D,
    keeper: &mut K,
    name: &str,
) -> Result<Option<Reading<D::Reference>>, Ending>
    ensures read { IfOk result (λ reading. IsReadFrom (D.reads run.now) name.now
        (record { files = K.files keeper.old; counts = K.counts keeper.old })
        (option_map (reading_by (D.tables run.now)) reading)
        (record { files = K.files keeper.new; counts = K.counts keeper.new })) }
    ensures memory { IfErr result (λ e. e ≡ Ending.Memory) }
    ensures same_files { OnErr result (K.files keeper.new ≡ K.files keeper.old) }
    ensures same_counts { OnErr result (K.counts keeper.new ≡ K.counts keeper.old) }
{
    match keeper.fetch(alloc, name, REFERENCE_BYTES) {
        Ok(bytes) => match run.read_reference(alloc, bytes.as_slice()) {
            Ok(reading) => Ok(Some(reading)),
            Err(_) => Err(Ending::Memory),
        },
        Err(FetchFault::Absent) => Ok(None),
        Err(FetchFault::TooLong(_)) => Ok(None),
        Err(FetchFault::Failed) => Ok(None),
        Err(FetchFault::Memory) => Err(Ending::Memory),
    }
}

/// The line on a file that is no right program.
fn refused_line(alloc: Global, why: &[u8]) -> Result<Bytes, Ending>
    ensures text { IfOk result (λ bytes. bytes ≡ codes "reference refused: " ++ why.now ++ codes "\n") }
    ensures memory { IfErr result (λ e. e ≡ Ending.Memory) }
{
    let mut bytes = Bytes::new(alloc);
    bytes.append(b"reference refused: ")?;
    bytes.append(why)?;
    bytes.append(b"\n")?;
    Ok(bytes)
}

/// Reads a right program from this file, and answers the reply. Where it is one, it answers from now on.
fn read_reference<D: Debugged, K: Keeper>(
    alloc: Global,
    run: &D,
    keeper: &mut K,
    desk: &mut Desk<'_, D::Reference>,
    file: &FileName<'_>,
) -> Result<Bytes, Ending>
    requires dialog { IsDialogOf (D.subject run.now) desk.old.dialog }
    ensures goes { ErrandGoes (D.reads run.now) (ToFetch file.now) (FetchFile file.now)
        (record {
          held = held_on (D.tables run.now) desk.old;
          files = K.files keeper.old;
          counts = K.counts keeper.old;
        })
        result
        (record {
          held = held_on (D.tables run.now) desk.new;
          files = K.files keeper.new;
          counts = K.counts keeper.new;
        }) }
    ensures dialog { IsDialogOf (D.subject run.now) desk.new.dialog }
{
    match fetch_reading(alloc, run, keeper, file.as_str())? {
        None => file_line(alloc, b"not fetched ", file),
        Some(Reading::Refused(why)) => refused_line(alloc, why.as_slice()),
        Some(Reading::Program(reference)) => {
            desk.reference = Some(reference);
            file_line(alloc, b"reference ", file)
        }
    }
}

/// A text as a reply.
fn as_reply<C, O, T>(text: Result<Bytes, Ending>) -> Result<Reply<C, O, T>, Ending>
    ensures { result ≡ reply_of_text text }
{
    match text {
        Ok(text) => Ok(Reply::Text(text)),
        Err(ending) => Err(ending),
    }
}

/// The reply to a line of the console. `Done` says that it ends the session.
fn answer_line<D: Debugged, K: Keeper>(
    alloc: Global,
    run: &D,
    start: &Start,
    keeper: &mut K,
    desk: &mut Desk<'_, D::Reference>,
    line: &[u8],
) -> Result<Reply<D::Card, D::Opened, D::Trace>, Ending>
    requires dialog { IsDialogOf (D.subject run.now) desk.old.dialog }
    requires short { length line.now ≤ line_bytes }
    ensures answers { AnswersLine (D.reads run.now) (D.subject run.now) start.now
        (record {
          line = line.now;
          moment = record {
            held = held_on (D.tables run.now) desk.old;
            files = K.files keeper.old;
            counts = K.counts keeper.old;
          };
        })
        (with_text (D.subject run.now) (said_in_dialog desk.new.dialog) result)
        (record {
          held = held_on (D.tables run.now) desk.new;
          files = K.files keeper.new;
          counts = K.counts keeper.new;
        }) }
    ensures prepared { IfOk result (IsReply (D.prepared run.now) (calls_recorded (D.subject run.now))) }
    ensures dialog { IsDialogOf (D.subject run.now) desk.new.dialog }
{
    match instruction_in(line) {
        Instruction::Quit => Err(Ending::Done),
        Instruction::Save(file) => as_reply(save(alloc, run, start, keeper, desk, &file)),
        Instruction::Reference(file) => as_reply(read_reference(alloc, run, keeper, desk, &file)),
        Instruction::Refer(call) => {
            match refer(alloc, run, &mut desk.dialog, &desk.reference, call) {
                Ok(reply) => Ok(reply),
                Err(_) => Err(Ending::Memory),
            }
        }
        Instruction::Command(command) => match answer(alloc, run, &mut desk.dialog, command) {
            Ok(reply) => Ok(reply),
            Err(_) => Err(Ending::Memory),
        },
    }
}

/// The reply to a line that is too long.
fn too_long<D: Debugged>(alloc: Global, run: &D) -> Result<Bytes, Ending>
    ensures text { IfOk result (λ bytes. bytes ≡ codes "line too long\n") }
    ensures memory { IfErr result (λ e. e ≡ Ending.Memory) }
    ensures answers { (start : StartValue) (asked : LineAt) → line_bytes < length asked.line
        → AnswersLine (D.reads run.now) (D.subject run.now) start asked result asked.moment }
{
    let mut bytes = Bytes::new(alloc);
    match bytes.append(b"line too long\n") {
        Ok(()) => Ok(bytes),
        Err(_) => Err(Ending::Memory),
    }
}

/// The reply to the next line of the console.
fn next_reply<D: Debugged, K: Keeper, I: Source>(
    alloc: Global,
    run: &D,
    start: &Start,
    keeper: &mut K,
    desk: &mut Desk<'_, D::Reference>,
    lines: &mut Lines,
    console: &mut I,
) -> Result<Reply<D::Card, D::Opened, D::Trace>, Ending>
    requires dialog { IsDialogOf (D.subject run.now) desk.old.dialog }
    ensures reply { NextReply (D.reads run.now) (D.subject run.now) start.now
        (record {
          moment = record {
            held = held_on (D.tables run.now) desk.old;
            files = K.files keeper.old;
            counts = K.counts keeper.old;
          };
          lines = lines.old;
        })
        (with_text (D.subject run.now) (said_in_dialog desk.new.dialog) result)
        (record {
          moment = record {
            held = held_on (D.tables run.now) desk.new;
            files = K.files keeper.new;
            counts = K.counts keeper.new;
          };
          lines = lines.new;
        }) }
    ensures moved { Moves lines.old.taken lines.new.taken (I.left console.old) (I.left console.new) }
    ensures at_end { (IsTrue lines.old.ended → IsAtEnd (I.left console.old))
        → IsTrue lines.new.ended → IsAtEnd (I.left console.new) }
    ensures faults { Counted (console_failed result) (I.faults console.old) (I.faults console.new) }
    ensures not_screen { screen_failed result ≡ false }
    ensures consistent { IsConsistent lines.new }
    ensures prepared { IfOk result (IsReply (D.prepared run.now) (calls_recorded (D.subject run.now))) }
    ensures dialog { IsDialogOf (D.subject run.now) desk.new.dialog }
    ensures handed { OnOk result (lines.old.handed < lines.new.handed) }
{
    match lines.next(console) {
        Ok(Turn::Line) => answer_line(alloc, run, start, keeper, desk, lines.line()),
        Ok(Turn::TooLong) => as_reply(too_long(alloc, run)),
        Ok(Turn::End) => Err(Ending::Done),
        Err(LineFault::Failed) => Err(Ending::Console),
        Err(LineFault::Spent) => Err(Ending::Spent),
    }
}

/// Gives a reply whole, in pieces.
pub(crate) fn give_reply<D: Debugged, O: Printer>(
    screen: &mut O,
    run: &D,
    dialog: &Dialog,
    reply: &Reply<D::Card, D::Opened, D::Trace>,
) -> Result<(), Ending>
    requires dialog { IsDialogOf (D.subject run.now) dialog.now }
    requires prepared { IsReply (D.prepared run.now) (calls_recorded (D.subject run.now)) reply.now }
    ensures ok { OnOk result (GaveAll (O.given screen.old) (O.given screen.new)
        (text_of_reply (D.subject run.now) (said_in_dialog dialog.now) reply.now)) }
    ensures failed { OnErr result (GavePrefix (O.given screen.old) (O.given screen.new)
        (text_of_reply (D.subject run.now) (said_in_dialog dialog.now) reply.now)) }
    ensures ending { IfErr result (λ e. e ≡ Ending.Screen) }
    ensures faults { Counted (screen_failed result) (O.faults screen.old) (O.faults screen.new) }
    ensures last { IsTrue (screen_failed result) → IsTrue (O.last_failed screen.new) }
    ensures loan { O.loan screen.new ≡ O.loan screen.old }
{
    screen.begin();
    print_reply(screen, run, dialog, reply);
    match screen.finish() {
        Ok(()) => Ok(()),
        Err(_) => Err(Ending::Screen),
    }
}

/// Answers one line of the console.
fn turn<D: Debugged, K: Keeper, I: Source, O: Printer>(
    alloc: Global,
    run: &D,
    start: &Start,
    keeper: &mut K,
    desk: &mut Desk<'_, D::Reference>,
    lines: &mut Lines,
    console: &mut I,
    screen: &mut O,
) -> Result<(), Ending>
    requires dialog { IsDialogOf (D.subject run.now) desk.old.dialog }
    ensures turned { ReplyGiven (D.reads run.now) (D.subject run.now) start.now
        (record {
          progress = record {
            moment = record {
              held = held_on (D.tables run.now) desk.old;
              files = K.files keeper.old;
              counts = K.counts keeper.old;
            };
            lines = lines.old;
          };
          given = O.given screen.old;
        })
        result
        (record {
          progress = record {
            moment = record {
              held = held_on (D.tables run.now) desk.new;
              files = K.files keeper.new;
              counts = K.counts keeper.new;
            };
            lines = lines.new;
          };
          given = O.given screen.new;
        }) }
    ensures moved { Moves lines.old.taken lines.new.taken (I.left console.old) (I.left console.new) }
    ensures at_end { (IsTrue lines.old.ended → IsAtEnd (I.left console.old))
        → IsTrue lines.new.ended → IsAtEnd (I.left console.new) }
    ensures console_faults { Counted (console_failed result) (I.faults console.old) (I.faults console.new) }
    ensures screen_faults { Counted (screen_failed result) (O.faults screen.old) (O.faults screen.new) }
    ensures last { IsTrue (screen_failed result) → IsTrue (O.last_failed screen.new) }
    ensures loan { O.loan screen.new ≡ O.loan screen.old }
    ensures consistent { IsConsistent lines.new }
    ensures dialog { IsDialogOf (D.subject run.now) desk.new.dialog }
    ensures handed { OnOk result (lines.old.handed < lines.new.handed) }
{
    match next_reply(alloc, run, start, keeper, desk, lines, console) {
        Ok(reply) => give_reply(screen, run, &desk.dialog, &reply),
        Err(ending) => Err(ending),
    }
}

/// Answers the lines of the console, up to `quit` or its end. It takes memory for notes, for the digests of questions,
/// for what each reply is printed from, for each file that is stored and for each right program that is read and asked;
/// none for the text of a reply.
pub fn answer_lines<D: Debugged, K: Keeper, I: Source, O: Printer>(
    alloc: Global,
    run: &D,
    start: &Start,
    keeper: &mut K,
    desk: &mut Desk<'_, D::Reference>,
    lines: &mut Lines,
    console: &mut I,
    screen: &mut O,
) -> Ending
    requires dialog { IsDialogOf (D.subject run.now) desk.old.dialog }
    requires first { held_on (D.tables run.now) desk.old ≡ held_at_start start.now }
    requires fresh { lines.old ≡ record { taken = []; handed = 0; ended = false; line = [] } }
    // What was heard of the console, what the screen got by how the dialog ended, and why it ended; and what became of
    // the keeper.
    ensures goes { Talked (D.reads run.now) (D.subject run.now) start.now
        (record {
          files = K.files keeper.old;
          counts = K.counts keeper.old;
          streams = record { left = I.left console.old; given = O.given screen.old };
        })
        result
        (record {
          files = K.files keeper.new;
          counts = K.counts keeper.new;
          streams = record { left = I.left console.new; given = O.given screen.new };
        }) }
    // A count rises where its object failed, and there alone.
    ensures console_faults { Counted (is_console result)
        (I.faults console.old) (I.faults console.new) }
    ensures screen_faults { Counted (is_screen result) (O.faults screen.old) (O.faults screen.new) }
    // No call of the screen comes after one that failed.
    ensures last { IsTrue (is_screen result) → IsTrue (O.last_failed screen.new) }
    ensures loan { O.loan screen.new ≡ O.loan screen.old }
{
    'lines: loop {
        match turn(alloc, run, start, keeper, desk, lines, console, screen) {
            Ok(()) => {}
            Err(ending) => return ending,
        }
    }
}
