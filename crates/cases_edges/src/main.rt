//! Plays a script of what the program reads from and writes to, and of runs over lines, and prints
//! beside each line of it what the public calls give.
//!
//! The lines of a script, and what is printed below each:
//!
//! - `# ..`: a heading, with nothing below it
//! - `source SIZE FILE`: what reads of so many bytes give of a source over a file
//! - `ends`: what reads and writes give over a reader and a writer, and over memory
//! - `file PATH`, `missing PATH`, `nowhere PATH`: what the calls of a disk give over a file that is
//!   made, one that isn't, and one that can't be
//! - `memory FAIL STOP`: what five calls give of a disk in memory, which fails at the call FAIL and
//!   stops at STOP
//! - `found FAIL PATH CHART`: each call of the file at PATH, by its number, and whether a journal
//!   with the chart of a file is founded there; the call FAIL fails
//! - `append FAIL PATH PAYLOAD`: the same where it is opened and the entry of a file's payload
//!   appended, and where the entry is in doubt then, taken back and appended again
//! - `faults PATH CHART PAYLOAD`: how many calls a founding and an append make of the file, and how
//!   many of their failures are told, where each fails once
//! - `remove PATH`: removes the file, and prints nothing
//! - `talk TEXT`: how a run over lines ends and what it writes; a bar stands for a newline and a
//!   hash for a return
//! - `long LETTERS`: the same over a line of so many letters and a short one
//! - `drip READS TEXT`: the same over a source that gives a byte at a time, and fails after so many
//!   reads
//! - `limit BYTES TEXT`: the same over an output that takes so many bytes
//! - `gathered TEXT`, `each TEXT`: the same with the number of writes, where answers may gather and
//!   where each is to be written
//! - `year_end MONTH YEAR`: the last day of a fiscal year, by the first month of fiscal years
#![tactic(auto)]

mod disks;
mod ends;
mod journals;
mod office;
mod play;
mod said;
mod talks;
mod traced;
mod word;
mod years;

use play::play;
use std::io;
use word::word_of;

fn main(rt: HostRuntime) -> io::Result<()> {
    for line in rt.lines(rt.alloc()) {
        let line = line?;
        println!(rt; "{line}")?;
        play(&rt, &word_of(line.as_str()))?;
    }
    Ok(())
}
