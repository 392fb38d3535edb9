//! The command: from its words to its exit status.
ghost use Rattle.std.specs.Prelude.{◌==◌, ◌≡◌, ◌≤◌, ◌⊎◌, IsSome, IsTrue, List, None, Some, length};
ghost use Rattle.edge_ports.specs.{Counts.Counted, Told.GaveAll, Told.GavePrefix};
ghost use Rattle.body_replay.specs.Laws.{BodiesGiveTheirExits};
ghost use Rattle.ask_session.specs.{Console.NotRisen, Dialog.Granted, LineActs.EntriesFollowLines, Reached.Reached};
ghost use Rattle.ask_session.specs.Laws.{AsksTheBest, FindsTheFault, NamesTheAccused, NarrowsTheFault};
ghost use Rattle.ask_session.specs.Wishes.{AreReadIn, FilesAfter, counts_granted};
ghost use Rattle.debuggee.specs.References.{IsReading};
ghost use Rattle.debug_cli.specs.{Goes.Goes, Goes.HasGone, Headline.Headline, Laws.InEachRun, Laws.OneReading};
ghost use Rattle.debug_cli.specs.{Laws.OneRun, Laws.OneTranscript, Meaning.Requested, Named.meaning, Setting.wishes_of};
ghost use Rattle.debug_cli.specs.{Status.code_of, Status.is_console, Status.is_screen, declared.status.Status.Status};
ghost use Rattle.debug_cli.specs.Meaning as meant;
ghost use Rattle.debug_cli.specs.Outside.{NoFetchFailed, NoneRisen, WentOn, outside};
ghost use Rattle.debug_cli.specs.Setting.{AllFetched, ComesTo, MeansNoProgram, MeansNoSession, NamesNoFile};
ghost use Rattle.debug_cli.specs.Setting.{NothingFailed, Setting, Told, lines_of_console, telling_of, transcript_of};

use crate::files::{ask_about, supply};
use crate::laws;
use crate::made_text::made_text;
use crate::refusals::refuse;
use crate::request::{Asked, WordFault, read_words};
use crate::status::{Status, give_text};
use edge_ports::{Keeper, Printer, Source};
use std::alloc::Global;

/// The line on words that are refused.
const USAGE: &[u8] = b"usage: pasask SOURCE [--input F] [--budget N] [--load F]\n";

/// Does what the words mean.
fn ask<K: Keeper, I: Source, O: Printer>(
    alloc: Global,
    words: &[String],
    keeper: &mut K,
    console: &mut I,
    screen: &mut O,
) -> Status
    ensures gone { HasGone (meaning words.now)
        (outside (K.files keeper.old) (K.counts keeper.old) (I.left console.old) (O.given screen.old))
        (outside (K.files keeper.new) (K.counts keeper.new) (I.left console.new) (O.given screen.new)) result }
    ensures console_faults { Counted (is_console result) (I.faults console.old) (I.faults console.new) }
    ensures screen_faults { Counted (is_screen result) (O.faults screen.old) (O.faults screen.new) }
    ensures last { IsTrue (is_screen result) → IsTrue (O.last_failed screen.new) }
    ensures loan { O.loan screen.new ≡ O.loan screen.old }
    ensures untouched { NamesNoFile (meaning words.now) → (keeper.new ≡ keeper.old) × (console.new ≡ console.old) }
{
    match read_words(alloc, words) {
        Ok(Asked::Source(request)) => match supply(alloc, &request, keeper) {
            Ok(supplied) => ask_about(alloc, &request, supplied, keeper, console, screen),
            Err(refusal) => refuse(alloc, &refusal, screen),
        },
        Ok(Asked::Made(number)) => match made_text(alloc, number) {
            Ok(text) => give_text(screen, text.as_slice(), Status::Done),
            Err(refusal) => refuse(alloc, &refusal, screen),
        },
        Err(WordFault::Refused) => give_text(screen, USAGE, Status::Words),
        Err(WordFault::Memory) => Status::Memory,
    }
}

/// The command `pasask SOURCE [--input F] [--budget N] [--load F]`: `words` are the program's name and these. It
/// fetches the source from the keeper, the input if there is one, and a saved session if there is one; runs the program
/// within the budget, gives the card of call 0 and a report to the screen, and answers the console's lines up to `quit`
/// or its end. A report asks about a call, or names the call at fault, as the answers stand. A line may ask for the
/// session to be saved, which the keeper stores; or for a right program, which the keeper fetches, and which judges
/// calls where lines ask it to. `make:N` as SOURCE means a made program, which is asked about with no one asked: its
/// lines are all that is given. Then `transcript`, `prefix` and `complete` have the premise that the made source is a
/// program; and there is a third line, with the call at fault, where its run has fewer than 100,000 calls. No clause
/// says that either is so.
///
/// It answers the exit status: 0 after `quit` or the console's end, or the lines of a made program; 2 where the words
/// mean nothing; 3 where the source is refused; 4 where a file that they name could not be fetched; 5 and 6 where the
/// console and the screen failed; 7 where memory ran out; 8 where the saved session is refused: it is none, or does not
/// fit the run; 9 where 16,777,216 bytes were taken of the console and no end was seen. For 2, 3, 4 and 8 one line says
/// so. A source is refused that is no program of the language, or that breaks a static rule; its input is not fetched
/// then.
pub fn ask_pascal<K: Keeper, I: Source, O: Printer>(
    alloc: Global,
    words: &[String],
    keeper: &mut K,
    console: &mut I,
    screen: &mut O,
) -> u8
    // The theorem: where files and console tell their bytes, and the session came to its end.
    ensures headline { (r : Requested) (t : Told r (K.files keeper.old) (I.left console.old))
        → meaning words.now ≡ Some (meant.Source r) → result ≡ 0
        → Headline t (O.given screen.old) (O.given screen.new) }
    // Where the keeper tells the named files, the source is a program and the console tells its bytes, or the words
    // mean a made source that is a program: what the screen got and what became of the files, by what the keeper gave
    // to lines that ask it to store or to fetch a file, at status 0, and at every status unless the fetch of a file
    // that the words name failed, and then of how many lines each wish was answered; and the status, 0 or 9, if nothing
    // failed but such stores and fetches.
    ensures transcript { (s : Setting words.now (K.files keeper.old) (I.left console.old)) → result ≡ 0
        → (granted : List Granted) × AreReadIn IsReading granted × (length granted ≡ length (wishes_of s granted))
        × GaveAll (O.given screen.old) (O.given screen.new) (transcript_of s granted)
        × FilesAfter granted (wishes_of s granted) (K.files keeper.old) (K.files keeper.new)
        × (K.counts keeper.new ≡ counts_granted granted (K.counts keeper.old)) }
    ensures prefix { (s : Setting words.now (K.files keeper.old) (I.left console.old))
        → AllFetched s (K.counts keeper.old) (K.counts keeper.new) (I.left console.new)
        → (granted : List Granted) × AreReadIn IsReading granted × (length granted ≤ length (wishes_of s granted))
        × GavePrefix (O.given screen.old) (O.given screen.new) (transcript_of s granted)
        × FilesAfter granted (wishes_of s granted) (K.files keeper.old) (K.files keeper.new)
        × Reached (telling_of s) (lines_of_console s) granted (O.given screen.old) (O.given screen.new) }
    ensures complete { (s : Setting words.now (K.files keeper.old) (I.left console.old)) → (wanted : Status)
        → ComesTo s wanted → NothingFailed s
        (record { keeper = K.counts keeper.old; console = I.faults console.old; screen = O.faults screen.old })
        (record { keeper = K.counts keeper.new; console = I.faults console.new; screen = O.faults screen.new })
        (I.left console.new)
        → (result ≡ code_of wanted) ⊎ (result ≡ 7) }
    // What the questions and the verdicts in that transcript say, and what the bodies of calls give. A source is one
    // program at most, and has one run with each input and budget; what is fetched is read as one thing; and the
    // transcript follows from whether each file was stored, and from what was fetched.
    ensures asks { InEachRun AsksTheBest }
    ensures narrows { InEachRun NarrowsTheFault }
    ensures names { InEachRun NamesTheAccused }
    ensures finds { InEachRun FindsTheFault }
    ensures stands { InEachRun EntriesFollowLines }
    ensures exits { BodiesGiveTheirExits }
    ensures one_run { OneRun }
    ensures one_reading { OneReading }
    ensures one_transcript { OneTranscript }
    // Words that mean nothing; a source that is no program; a session that is refused; words where nothing failed but
    // stores and fetches that lines ask for.
    ensures usage { meaning words.now ≡ None → (result ≡ 2) ⊎ (result ≡ 6) ⊎ (result ≡ 7) }
    ensures no_program { MeansNoProgram (meaning words.now) (K.files keeper.old) → IsSome (K.files keeper.old)
        → NoFetchFailed (K.counts keeper.old) (K.counts keeper.new) (I.left console.old) (I.left console.new)
        → NotRisen (O.faults screen.old) (O.faults screen.new) → (result ≡ 3) ⊎ (result ≡ 7) }
    ensures no_session { MeansNoSession (meaning words.now) (K.files keeper.old) → IsSome (K.files keeper.old)
        → NoFetchFailed (K.counts keeper.old) (K.counts keeper.new) (I.left console.old) (I.left console.new)
        → NotRisen (O.faults screen.old) (O.faults screen.new) → (result ≡ 8) ⊎ (result ≡ 7) }
    ensures without_faults { IsSome (meaning words.now)
        → NoneRisen (K.counts keeper.old) (K.counts keeper.new)
        ⊎ WentOn (K.counts keeper.old) (K.counts keeper.new) (I.left console.old) (I.left console.new)
        → NotRisen (I.faults console.old) (I.faults console.new) → NotRisen (O.faults screen.old) (O.faults screen.new)
        → (result ≡ 0) ⊎ (result ≡ 3) ⊎ (result ≡ 7) ⊎ (result ≡ 8) ⊎ (result ≡ 9) }
    // By the status, whether or not the objects tell their bytes: why, what the screen got, what became of the files.
    ensures goes { (status : Status) × (result ≡ code_of status) × Goes (meaning words.now)
        (record {
          files = K.files keeper.old;
          counts = K.counts keeper.old;
          streams = record { left = I.left console.old; given = O.given screen.old };
        })
        (record {
          files = K.files keeper.new;
          counts = K.counts keeper.new;
          streams = record { left = I.left console.new; given = O.given screen.new };
        }) status }
    // What stays: a count rises where the status says so, and there alone; a screen that failed is not called again;
    // for words that name no file neither the keeper nor the console is called.
    ensures console_faults { Counted (result == 5) (I.faults console.old) (I.faults console.new) }
    ensures screen_faults { Counted (result == 6) (O.faults screen.old) (O.faults screen.new) }
    ensures last { result ≡ 6 → IsTrue (O.last_failed screen.new) }
    ensures loan { O.loan screen.new ≡ O.loan screen.old }
    ensures untouched { NamesNoFile (meaning words.now) → (keeper.new ≡ keeper.old) × (console.new ≡ console.old) }
{
    // What the clauses `asks`, `narrows`, `names`, `finds`, `stands`, `exits`, `one_run`, `one_reading` and
    // `one_transcript` say is a law each.
    laws::search_is_sound();
    laws::entries_stand();
    laws::exits_are_given();
    laws::verdicts_are_found();
    laws::one_run();
    laws::one_reading();
    laws::one_transcript();
    ask(alloc, words, keeper, console, screen).code()
}
