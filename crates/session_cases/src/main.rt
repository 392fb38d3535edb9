//! Loads texts and prints what came of each: the text that is saved of the session, or why it is none. Each line of the
//! input is a text. Then it prints the text of a session of its own, and saves and loads as many entries as a session
//! may have, each with a note and beside as many replies, and one entry more.
#![tactic(auto)]

use answer_book::{Entry, Judgement, What};
use anyhow::Result;
use session_file::{Notes, Replies, SavedEntries, Session, digest_of, load, save};
use std::alloc::Global;
use std::io::{self, Read, Write};

/// Prints the text that is saved of a session.
fn print_saved<R: AllocGlobal + Print>(rt: &R, session: &Session) -> Result<()> {
    io::writer(rt).write_all(save(rt.alloc(), session)?.as_slice())?;
    println!(rt; "")?;
    Ok(())
}

/// Prints what came of a text.
fn report<R: AllocGlobal + Print>(rt: &R, text: &[u8]) -> Result<()> {
    match load(rt.alloc(), text) {
        Ok(session) => print_saved(rt, &session)?,
        Err(fault) => println!(rt; "{fault:?}")?,
    }
    Ok(())
}

/// An entry of each kind in turn. The first says that call 0 is wrong.
fn entry(number: u32) -> Entry {
    let what = match number % 4 {
        0 => What::Judged(number, Judgement::Wrong),
        1 => What::Judged(number, Judgement::Right),
        2 => What::Trusted(number),
        _ => What::Judged(number, Judgement::Unknown),
    };
    Entry {
        what,
        standing: number % 3 == 0,
    }
}

/// This many entries.
fn entries(alloc: Global, count: u32) -> Result<SavedEntries> {
    let mut entries = SavedEntries::new(alloc);
    for number in 0..count {
        entries.push(entry(number))?;
    }
    Ok(entries)
}

/// A note on each of this many entries, up to the last that may have one.
fn notes(alloc: Global, count: u32) -> Result<Notes> {
    let mut notes = Notes::new(alloc);
    for number in 0..count.min(100_000) {
        notes.set(number as usize + 1, "seen")?;
    }
    Ok(notes)
}

/// This many replies to different questions; of more than 100,000 the last ones are left out.
fn replies(alloc: Global, count: u32) -> Result<Replies> {
    let mut replies = Replies::new(alloc);
    for number in 0..count {
        replies.set(digest_of(&number.to_le_bytes()), Judgement::Right)?;
    }
    Ok(replies)
}

/// A session with this many entries.
fn session(alloc: Global, count: u32) -> Result<Session> {
    let entries = entries(alloc, count)?;
    let notes = notes(alloc, count)?;
    let replies = replies(alloc, count)?;
    Ok(Session {
        version: 2,
        source: digest_of(b""),
        input: digest_of(b"abc"),
        budget: 4_000_000,
        entries,
        notes,
        replies,
    })
}

/// Prints what comes of saving and loading this many entries.
fn report_many<R: AllocGlobal + Print>(rt: &R, count: u32) -> Result<()> {
    let alloc = rt.alloc();
    let text = save(alloc, &session(alloc, count)?)?;
    match load(alloc, text.as_slice()) {
        Ok(loaded) => {
            if save(alloc, &loaded)?.as_slice() == text.as_slice() {
                println!(rt; "{count} entries: saved, loaded and saved again")?;
            } else {
                println!(rt; "{count} entries: another session came back")?;
            }
        }
        Err(fault) => println!(rt; "{count} entries: {fault:?}")?,
    }
    Ok(())
}

fn main(rt: HostRuntime) -> Result<()> {
    let mut input = Vec::new(rt.alloc());
    rt.reader().read_to_end(&mut input)?;
    for text in input.split(|byte| *byte == b'\n') {
        report(&rt, text)?;
    }
    print_saved(&rt, &session(rt.alloc(), 4)?)?;
    report_many(&rt, 100_000)?;
    report_many(&rt, 100_001)
}
