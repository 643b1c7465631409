//! The lines of a script. In a text `\r` and `\n` stand for the bytes 13 and 10, and a backslash
//! before another byte for that byte.
//!
//! What each line does:
//!
//! - `# ..`: prints the line
//! - `> TEXT`: adds the text to the link's bytes
//! - `repeat N TEXT`: adds it so many times
//! - `answer WORD`: how calls in form are answered from here on: `accepted`, `refused`, `disk`,
//!   `memory`
//! - `fail N`, `limit N`: the next link's read N, from 0, fails; it takes N bytes
//! - `play`, `play N ..`, `play each`: serves the link in one piece, and again in pieces of N
//!   bytes, and as N bytes and then all the rest; with `each` so for every number of bytes up to
//!   its length; prints what it was answered, and where that differs by the pieces
//! - `reads N ..`: serves the link in pieces of N bytes; prints how many bytes had come, and how
//!   many were sent, before each read
//! - `count`: serves the link, each request by one fixed answer, and prints how it ended and how
//!   many bytes it took
//! - `link N`: lets the link be the next one of the door, in pieces of N bytes
//! - `peers LINKS`: serves so many links of a door over the loopback device, at which a peer for
//!   each `link` stands; one without bytes says nothing; prints the address at which the door asks
//!   to listen
//! - `ports FIRST DOORS`: serves the doors that `serve` has at so many ports, over a network that
//!   opens none
//! - `door LINKS N`: serves so many links of the door, whose call N of `next` fails, from 1

use crate::clerk::Verdict;
use crate::peers::{see_peers, see_ports};
use crate::stage::{Played, Stage};
use cf_http::{DoorEnd, LinkEnd};
use cf_http_links::{MemLink, Passed};
use std::alloc::{AllocError, Global};
use std::io;

fn number(word: &str) -> u64 {
    word.parse::<u64>().unwrap_or(0)
}

fn end_name(how: LinkEnd) -> &'static str {
    match how {
        LinkEnd::Closed => "Closed",
        LinkEnd::Cut => "Cut",
        LinkEnd::ReadFault => "ReadFault",
        LinkEnd::WriteFault => "WriteFault",
        LinkEnd::Limit => "Limit",
        LinkEnd::NoMemory => "NoMemory",
    }
}

/// Adds the bytes that a text of the script stands for.
fn add_text(bytes: &mut Vec<u8>, text: &str) -> Result<(), AllocError> {
    let mut escaped = false;
    for byte in text.as_bytes() {
        match *byte {
            b'\\' if !escaped => escaped = true,
            b'r' if escaped => {
                bytes.push(13)?;
                escaped = false;
            }
            b'n' if escaped => {
                bytes.push(10)?;
                escaped = false;
            }
            byte => {
                bytes.push(byte)?;
                escaped = false;
            }
        }
    }
    Ok(())
}

/// Adds a text so many times: the words are the number and the text.
fn repeat(bytes: &mut Vec<u8>, words: &str) -> Result<(), AllocError> {
    let (count, text) = words.split_once(" ").unwrap_or((words, ""));
    for _ in 0..number(count) {
        add_text(bytes, text)?;
    }
    Ok(())
}

/// The bytes as a text, with ends of lines written out.
pub fn shown(alloc: Global, bytes: &[u8]) -> Result<String, AllocError> {
    let mut text = String::new(alloc);
    for byte in bytes {
        match *byte {
            13 => text.push_str("\\r")?,
            10 => text.push_str("\\n\n")?,
            byte => text.push(char::from(byte))?,
        }
    }
    if !bytes.is_empty() && !bytes.ends_with(&[10]) {
        text.push('\n')?;
    }
    Ok(text)
}

fn print_played(rt: &impl Print, alloc: Global, played: &Played) -> io::Result<()> {
    let text = shown(alloc, played.sent.as_slice())?;
    let end = end_name(played.how);
    let asked = played.asked;
    println!(rt; "{text}= {end}, {asked} asked")
}

fn is_same(one: &Played, other: &Played) -> bool {
    one.sent.as_slice() == other.sent.as_slice()
        && end_name(one.how) == end_name(other.how)
        && one.asked == other.asked
}

/// Serves the link in pieces, and as a first piece and the rest, and prints what differs.
fn compare(rt: &impl Print, stage: &Stage, whole: &Played, piece: usize) -> io::Result<()> {
    let played = stage.serve(piece)?;
    if !is_same(whole, &played) {
        println!(rt; "! in pieces of {piece}")?;
        print_played(rt, stage.alloc, &played)?;
    }
    let played = stage.serve_cut(piece)?;
    if !is_same(whole, &played) {
        println!(rt; "! as {piece} bytes and the rest")?;
        print_played(rt, stage.alloc, &played)?;
    }
    Ok(())
}

/// Serves the link whole, and again in pieces by the words.
fn see_link(rt: &impl Print, stage: &Stage, words: &str) -> io::Result<()> {
    let whole = stage.serve(usize::MAX)?;
    print_played(rt, stage.alloc, &whole)?;
    if words == "each" {
        for piece in 1..stage.text.len() {
            compare(rt, stage, &whole, piece)?;
        }
    } else {
        for word in words.split_whitespace() {
            compare(rt, stage, &whole, number(word) as usize)?;
        }
    }
    Ok(())
}

/// Prints what had passed before each read of a link.
fn print_reads(rt: &impl Print, piece: usize, notes: &[Passed]) -> io::Result<()> {
    println!(rt; "= in pieces of {piece}")?;
    for Passed { came, sent } in notes {
        println!(rt; "{came} came, {sent} sent")?;
    }
    Ok(())
}

/// Serves the link in pieces by the words, and prints what had passed before each read.
fn see_reads(rt: &impl Print, stage: &Stage, words: &str) -> io::Result<()> {
    for word in words.split_whitespace() {
        let piece = number(word) as usize;
        let notes = stage.serve_noted(piece)?;
        print_reads(rt, piece, notes.as_slice())?;
    }
    Ok(())
}

fn see_count(rt: &impl Print, stage: &Stage) -> io::Result<()> {
    let (how, sent) = stage.serve_fixed()?;
    let end = end_name(how);
    println!(rt; "= {end}, {sent} bytes")
}

fn print_finished(rt: &impl Print, alloc: Global, links: &[MemLink]) -> io::Result<()> {
    for link in links {
        let text = shown(alloc, link.sent())?;
        println!(rt; "{text}= a finished link")?;
    }
    Ok(())
}

/// Serves the door: the words are how many links, and which call of `next` fails.
fn see_door(rt: &impl Print, stage: &mut Stage, words: &str) -> io::Result<()> {
    let (links, fail_at) = words.split_once(" ").unwrap_or((words, ""));
    let kept = stage.keep_door(links.parse::<u32>().unwrap_or(0), number(fail_at))?;
    print_finished(rt, stage.alloc, kept.door.finished())?;
    print_door_end(rt, kept.end, kept.asked)
}

/// Prints how the service at a door ended, and how often the answerer was asked.
pub fn print_door_end(rt: &impl Print, end: DoorEnd, asked: u64) -> io::Result<()> {
    match end {
        DoorEnd::Done { links } => println!(rt; "= Done, {links} links, {asked} asked"),
        DoorEnd::DoorFault { links } => println!(rt; "= DoorFault, {links} links, {asked} asked"),
    }
}

fn verdict_of(word: &str) -> Verdict {
    match word {
        "refused" => Verdict::Refused,
        "disk" => Verdict::DiskFault,
        "memory" => Verdict::NoMemory,
        _ => Verdict::Accepted,
    }
}

/// Sets up what comes next.
fn prepare(stage: &mut Stage, verb: &str, rest: &str) -> Result<(), AllocError> {
    match verb {
        ">" => add_text(&mut stage.text, rest)?,
        "repeat" => repeat(&mut stage.text, rest)?,
        "answer" => stage.verdict = verdict_of(rest),
        "fail" => stage.fail_at = number(rest),
        "limit" => stage.limit = number(rest) as usize,
        "link" => {
            stage.add_link(number(rest) as usize)?;
            stage.clear();
        }
        _ => {}
    }
    Ok(())
}

/// Serves the peers of the links that wait.
fn see_peered(rt: &HostRuntime, stage: &Stage, words: &str) -> io::Result<()> {
    let links = words.parse::<u32>().unwrap_or(0);
    see_peers(rt, links, &mut stage.clerk(), stage.links.as_slice())
}

/// Shows what the doors of `serve` ask for: the words are the first port, and how many doors there
/// are.
fn see_asked(rt: &HostRuntime, stage: &Stage, words: &str) -> io::Result<()> {
    let (first, count) = words.split_once(" ").unwrap_or((words, ""));
    let first = first.parse::<u16>().unwrap_or(0);
    let count = count.parse::<u16>().unwrap_or(0);
    if u32::from(first) + u32::from(count) <= 65535 {
        see_ports(rt, &mut stage.clerk(), first, count)
    } else {
        Ok(())
    }
}

/// Plays a line.
pub fn play(rt: &HostRuntime, stage: &mut Stage, line: &str) -> io::Result<()> {
    let (verb, rest) = line.split_once(" ").unwrap_or((line, ""));
    match verb {
        "#" => println!(rt; "{line}"),
        "play" => {
            see_link(rt, stage, rest)?;
            stage.clear();
            Ok(())
        }
        "reads" => {
            see_reads(rt, stage, rest)?;
            stage.clear();
            Ok(())
        }
        "count" => {
            see_count(rt, stage)?;
            stage.clear();
            Ok(())
        }
        "door" => see_door(rt, stage, rest),
        "peers" => {
            see_peered(rt, stage, rest)?;
            stage.links.clear();
            Ok(())
        }
        "ports" => see_asked(rt, stage, rest),
        _ => {
            prepare(stage, verb, rest)?;
            Ok(())
        }
    }
}
