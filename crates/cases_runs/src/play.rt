//! What each line of the script does.

use crate::cuts::show_cuts;
use crate::doors::show_doors;
use crate::stage::Stage;
use crate::status::whole_text;
use crate::tears::show_tears;
use crate::word::{Word, byte};
use cf_run_status::Status;
use std::rt::Files;
use std::sync::Wait;
use std::thread::Threads;
use std::{fs, io};

/// Keeps the stream that a run of `ship` wrote, and says how long it is.
fn show_shipped(
    rt: &impl Print,
    stage: &mut Stage,
    stream: &[u8],
    status: Status,
) -> io::Result<()> {
    stage.shipped = Vec::from_slice(stage.alloc, stream)?;
    let ended = whole_text(stage.alloc, status)?;
    println!(rt; "= {ended}; {} bytes shipped", stream.len())
}

/// A run of these words: what was said at its doors, what it said, how it ended and how long the
/// journal is. Of a stream only its length is said.
fn show_run<R: Print + Threads + Wait + Sync>(
    rt: &R,
    stage: &mut Stage,
    words: &str,
) -> io::Result<()> {
    let (status, out, doors) = stage.run_words(rt, words)?;
    show_doors(rt, doors.as_slice())?;
    if words.starts_with("ship ") {
        return show_shipped(rt, stage, out.bytes(), status);
    }
    let said = str::from_utf8(out.bytes()).unwrap_or("no text");
    let ended = whole_text(stage.alloc, status)?;
    println!(rt; "{said}= {ended}; {} bytes", stage.bytes.len())
}

/// How many calls the last run made of its disk.
fn show_calls(rt: &impl Print, stage: &Stage) -> io::Result<()> {
    let calls = stage.last.as_ref().map_or(0, |disk| disk.calls().len());
    println!(rt; "= {calls} calls")
}

/// Whether the disk holds what was kept.
fn show_same(rt: &impl Print, stage: &Stage) -> io::Result<()> {
    if stage.bytes.as_slice() == stage.kept.as_slice() {
        println!(rt; "= the journal is the same")
    } else {
        println!(rt; "= the journal is another")
    }
}

/// Adds bytes behind what the disk holds.
fn add_bytes(stage: &mut Stage, words: &str) -> io::Result<()> {
    for word in words.split_whitespace() {
        stage.bytes.push(byte(word))?;
    }
    Ok(())
}

/// Plays a word that prints something, or reads a file.
fn play_shown<R: Files + Print + AllocGlobal + Threads + Wait + Sync>(
    rt: &R,
    stage: &mut Stage,
    word: &Word<'_>,
) -> io::Result<()> {
    match *word {
        Word::Lines(file) => {
            stage.lines = fs::read_to_string(rt, file)?;
            Ok(())
        }
        Word::Chart(file) => {
            stage.chart = fs::read_to_string(rt, file)?;
            Ok(())
        }
        Word::Run(words) => show_run(rt, stage, words),
        Word::Calls => show_calls(rt, stage),
        Word::Same => show_same(rt, stage),
        Word::Cuts => show_cuts(rt, stage),
        Word::Tears => show_tears(rt, stage),
        _ => Ok(()),
    }
}

/// Plays a word. One that says nothing of the next run or the disk goes on to those that print.
pub fn play<R: Files + Print + AllocGlobal + Threads + Wait + Sync>(
    rt: &R,
    stage: &mut Stage,
    word: &Word<'_>,
) -> io::Result<()> {
    match *word {
        Word::Line(line) => stage.add_line(line)?,
        Word::Swap { old, new } => stage.change_chart(old, new)?,
        Word::Fail(call) => stage.fails.push(call)?,
        Word::Stop(call) => stage.stop = call,
        Word::Limit(limit) => stage.limit = limit,
        Word::Feed(count) => stage.feed(count)?,
        Word::Alter { at, byte } => stage.alter(at, byte),
        Word::Lose(read) => stage.lose = read,
        Word::Empty => stage.bytes.clear(),
        Word::Cut(len) => stage.bytes.truncate(len),
        Word::Set { at, byte } => stage.set_byte(at, byte),
        Word::Add(words) => add_bytes(stage, words)?,
        Word::Keep => stage.keep()?,
        Word::Back => stage.put_back()?,
        Word::Door(fail_at) => stage.doors.add_door(fail_at)?,
        Word::Link(limit) => stage.doors.add_link(limit)?,
        Word::Get(target) => stage.doors.add_get(target)?,
        Word::Post(call) => stage.doors.add_post(call)?,
        _ => play_shown(rt, stage, word)?,
    }
    Ok(())
}
