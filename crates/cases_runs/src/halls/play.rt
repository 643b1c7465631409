//! What each line of the script does.

use crate::halls::hall::Played;
use crate::halls::stage::Stage;
use crate::halls::summary::summary;
use crate::halls::word::Word;
use std::alloc::AllocError;
use std::rt::Files;
use std::sync::Wait;
use std::thread::Threads;
use std::time::Clock;
use std::{fs, io};

/// How many calls of all callers were accepted.
fn accepted(played: &Played) -> u64 {
    let mut total = 0u64;
    for receipts in &played.receipts {
        total = total.saturating_add(receipts.accepted());
    }
    total
}

/// Prints what a caller was answered.
fn show_replies(rt: &impl Print, number: u64, replies: &str) -> io::Result<()> {
    for reply in replies.lines() {
        println!(rt; "{number}: {reply}")?;
    }
    Ok(())
}

/// Prints what each caller was answered.
fn show_callers(rt: &impl Print, stage: &mut Stage) -> io::Result<()> {
    let mut number = 0u64;
    for caller in stage.table.callers.iter_mut() {
        number = number.saturating_add(1);
        show_replies(rt, number, caller.get_mut().replies())?;
    }
    Ok(())
}

/// Prints what the gates did.
fn show_gates(rt: &impl Print, stage: &Stage) -> io::Result<()> {
    let board = &stage.table.board;
    println!(rt;
        "= {} held, {} gave up, {} overtaken",
        board.held(),
        board.gave_up(),
        board.overtaken()
    )
}

/// Prints how many calls of each caller were accepted.
fn show_accepted(rt: &impl Print, played: &Played) -> io::Result<()> {
    for receipts in &played.receipts {
        print!(rt; " {}", receipts.accepted())?;
    }
    Ok(())
}

/// Prints how many calls of each caller were answered by a fault of the disk.
fn show_faults(rt: &impl Print, played: &Played) -> io::Result<()> {
    for receipts in &played.receipts {
        print!(rt; " {}", receipts.faults())?;
    }
    Ok(())
}

/// Prints what playing left.
fn show_played(rt: &impl Print, played: &Played) -> io::Result<()> {
    print!(rt; "= {} entries, accepted", played.entries)?;
    show_accepted(rt, played)?;
    print!(rt; ", faults")?;
    show_faults(rt, played)?;
    println!(rt; "")
}

/// Prints what each caller was answered, and what playing left.
fn show_all(rt: &impl Print, stage: &mut Stage, played: &Played) -> io::Result<()> {
    show_callers(rt, stage)?;
    show_gates(rt, stage)?;
    show_played(rt, played)
}

/// Plays all callers once, and prints what came of it.
fn play_once<R: Print + Threads + Wait + Clock + Sync>(
    rt: &R,
    stage: &mut Stage,
) -> io::Result<()> {
    match stage.play(rt) {
        Some(played) => show_all(rt, stage, &played),
        None => println!(rt; "= no hall"),
    }
}

/// What playing left that is the same, whoever came first.
fn mixed_text(stage: &mut Stage, played: &Played) -> Result<String, AllocError> {
    let accepted = accepted(played);
    let replies = summary(stage)?;
    format!(in stage.alloc;
        "{replies}\n= {} entries, {accepted} accepted",
        played.entries
    )
}

/// What is the same of one time that all callers were played, whoever came first.
fn played_text<R: Threads + Wait + Clock + Sync>(
    rt: &R,
    stage: &mut Stage,
) -> Result<String, AllocError> {
    match stage.play(rt) {
        Some(played) => mixed_text(stage, &played),
        None => String::from_str(stage.alloc, "= no hall"),
    }
}

/// Plays all callers once more, and prints what is the same where it isn't this text.
fn play_again<R: Print + Threads + Wait + Clock + Sync>(
    rt: &R,
    stage: &mut Stage,
    first: &str,
) -> io::Result<()> {
    let text = played_text(rt, stage)?;
    if text.as_str() == first {
        return Ok(());
    }
    println!(rt; "! another time\n{text}")
}

/// Prints a text, and plays all callers so often that they were played so many times.
fn play_others<R: Print + Threads + Wait + Clock + Sync>(
    rt: &R,
    stage: &mut Stage,
    times: u64,
    first: &str,
) -> io::Result<()> {
    println!(rt; "{first}")?;
    for _ in 1..times {
        play_again(rt, stage, first)?;
    }
    println!(rt; "= {times} times")
}

/// Plays all callers so many times, and prints what is the same, whoever came first. A time that
/// differs is printed too.
fn play_mixed<R: Print + Threads + Wait + Clock + Sync>(
    rt: &R,
    stage: &mut Stage,
    times: u64,
) -> io::Result<()> {
    let first = played_text(rt, stage)?;
    play_others(rt, stage, times, first.as_str())
}

fn show_time(rt: &impl Print, entries: u64, nanoseconds: u64) -> io::Result<()> {
    println!(rt; "= {entries} entries, {nanoseconds} ns")
}

/// Plays all callers, and prints how long that took.
fn time_hall<R: Print + Threads + Wait + Clock + Sync>(
    rt: &R,
    stage: &mut Stage,
) -> io::Result<()> {
    match stage.play(rt) {
        Some(played) => show_time(rt, played.entries, played.nanoseconds),
        None => println!(rt; "= no hall"),
    }
}

/// Has a desk take all calls, and prints how long that took.
fn time_desk<R: Print + Clock>(rt: &R, stage: &mut Stage) -> io::Result<()> {
    match stage.play_desk(rt) {
        Some((entries, nanoseconds)) => show_time(rt, entries, nanoseconds),
        None => println!(rt; "= no desk"),
    }
}

/// Reads all calls, and prints how long that took.
fn time_reading<R: Print + Clock>(rt: &R, stage: &mut Stage) -> io::Result<()> {
    let (calls, nanoseconds) = stage.read_calls(rt);
    println!(rt; "= {calls} calls, {nanoseconds} ns")
}

/// Plays a word that opens a hall, and forgets its callers after it.
fn play_hall<R: Print + Threads + Wait + Clock + Sync>(
    rt: &R,
    stage: &mut Stage,
    word: &Word<'_>,
) -> io::Result<()> {
    match *word {
        Word::Play => play_once(rt, stage)?,
        Word::Mixed(times) => play_mixed(rt, stage, times)?,
        Word::Time => time_hall(rt, stage)?,
        Word::TimeDesk => time_desk(rt, stage)?,
        Word::TimeReading => time_reading(rt, stage)?,
        _ => return Ok(()),
    }
    stage.clear();
    Ok(())
}

/// Plays a word. One that tells nothing of the next hall goes on to those that open one.
pub fn play<R: Files + Print + AllocGlobal + Threads + Wait + Clock + Sync>(
    rt: &R,
    stage: &mut Stage,
    word: &Word<'_>,
) -> io::Result<()> {
    match *word {
        Word::Chart(file) => stage.chart = fs::read_to_string(rt, file)?,
        Word::Call(line) => stage.add_call(line)?,
        Word::Caller => stage.add_caller()?,
        Word::Wait(begin) => stage.begin = begin,
        Word::Hold(hold) => stage.hold = hold,
        Word::Fail(call) => stage.fail = call,
        _ => play_hall(rt, stage, word)?,
    }
    Ok(())
}
