//! What is done for each line of the script.

use crate::document::Asked;
use crate::replies::tell_replies;
use crate::stage::Stage;
use std::rt::Files;
use std::{fs, io};

/// A number of the script.
fn number(word: &str) -> u16 {
    word.parse::<u16>().unwrap_or(0)
}

/// A size of the script.
fn size(word: &str) -> usize {
    word.parse::<usize>().unwrap_or(0)
}

/// The first word of a line, and its rest.
fn pair(line: &str) -> (&str, &str) {
    line.split_once(" ").unwrap_or((line, ""))
}

/// An account, by its fund, department and object, and a fiscal year.
fn account(words: &str) -> Asked {
    let mut words = words.split_whitespace();
    Asked::Line {
        fund: number(words.next().unwrap_or("")),
        dept: number(words.next().unwrap_or("")),
        object: number(words.next().unwrap_or("")),
        year: number(words.next().unwrap_or("")),
    }
}

/// Says what a line on payloads or replies asks for. What is none of the words is a heading.
fn tell_entry(stage: &mut Stage, verb: &str, rest: &str) {
    match verb {
        "payload" => stage.tell_payload(rest, 2),
        "older" => stage.tell_payload(rest, 1),
        "room" => {
            let (room, digits) = pair(rest);
            stage.tell_written(digits, size(room));
        }
        "replies" => tell_replies(&mut stage.said, stage.alloc),
        _ => {}
    }
}

/// Says what a line that is no change of a chart asks for.
fn tell_word(stage: &mut Stage, verb: &str, rest: &str) {
    match verb {
        "clear" => stage.text.clear(),
        "rows" => {
            let (table, rows) = pair(rest);
            stage.put_rows(table, number(rows));
        }
        "said" => stage.tell_text(Asked::Fault),
        "line" => stage.tell_text(account(rest)),
        "document" => stage.tell_blanks(0, rest),
        "blanks" => {
            let (count, digits) = pair(rest);
            stage.tell_blanks(size(count), digits);
        }
        "call" => stage.tell_line(rest),
        "bytes" => stage.tell_bytes(rest),
        _ => tell_entry(stage, verb, rest),
    }
}

/// Says what a line asks for.
fn tell(stage: &mut Stage, line: &str) {
    stage.said.clear();
    match line.split_once(" => ") {
        Some((old, new)) => stage.tell_change(old, new),
        None => {
            let (verb, rest) = pair(line);
            tell_word(stage, verb, rest);
        }
    }
}

/// Has the lines below change the text of a file.
fn open<R: Files + AllocGlobal>(rt: &R, stage: &mut Stage, file: &str) -> io::Result<()> {
    let text = fs::read_to_string(rt, file)?;
    stage.text.clear();
    stage.text.put(text.as_str());
    Ok(())
}

/// Prints a line and what is said of it.
pub fn play<R: Files + Print + AllocGlobal>(
    rt: &R,
    stage: &mut Stage,
    line: &str,
) -> io::Result<()> {
    println!(rt; "{line}")?;
    if let Some(file) = line.strip_prefix("chart ") {
        return open(rt, stage, file);
    }
    tell(stage, line);
    print!(rt; "{}", stage.said.text())
}
