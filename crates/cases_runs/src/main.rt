//! Plays a script of runs over a disk in memory, and prints each line of it with what the run said,
//! how it ended and what it left.
//!
//! The lines of a script:
//!
//! - `# ..`: a heading
//! - `{..`: a line for the next desk
//! - `lines FILE`: the lines of a file for the next desk
//! - `chart FILE`, `swap OLD => NEW`: the chart for the next `found`, and a change of it
//! - `fail N`, `stop N`: the next run's disk fails at its call N, or stops there
//! - `limit N`: the next run's output takes N bytes
//! - `feed`, `feed N`: the next run reads the stream that was shipped last, or N bytes of it
//! - `alter AT BYTE`: sets a byte of what it is fed
//! - `lose N`: read N of its input, from 0, fails
//! - `door`, `door N`: a door more for the next run, whose call N for a link fails
//! - `link`, `link N`: a link more at that door, which takes N bytes
//! - `get TARGET`, `post CALL`: a request more on that link
//! - `run WORD ..`: a run of these words: prints what was said at its doors, what it says, how it
//!   ended, and the length of the journal
//! - `calls`: prints how many calls the last run made of its disk
//! - `empty`, `cut N`, `set AT BYTE`, `add BYTE ..`: changes what the disk holds
//! - `keep`, `back`, `same`: remembers it, puts it back, prints whether it is the same
//! - `cuts`: prints how a desk ends over each front of what the disk holds
//! - `halls`: the lines below are on callers over a hall (`halls.rt`)
//! - `tears`: prints what a desk with the lines says over each image that a crash at the end of the
//!   last run may leave: first of a desk that runs on, and then of one whose disk stops at one of
//!   its first five calls
#![tactic(auto)]

mod cuts;
mod doors;
mod halls;
mod images;
mod play;
mod stage;
mod status;
mod tears;
mod word;

use stage::Stage;
use std::io;
use std::rt::Files;
use std::sync::Wait;
use std::thread::Threads;
use std::time::Clock;

/// What the script has told: first of runs, and behind the word `halls` of callers over a hall.
#[derive(Drop)]
struct Told {
    runs: Stage,
    callers: halls::stage::Stage,
    is_of_callers: bool,
}

/// Plays a line of the script.
fn play_line<R: Files + Print + AllocGlobal + Threads + Wait + Clock + Sync>(
    rt: &R,
    told: &mut Told,
    line: &str,
) -> io::Result<()> {
    println!(rt; "{line}")?;
    if told.is_of_callers {
        halls::play::play(rt, &mut told.callers, &halls::word::word_of(line))
    } else {
        told.is_of_callers = line == "halls";
        play::play(rt, &mut told.runs, &word::word_of(line))
    }
}

fn main(rt: HostRuntime) -> io::Result<()> {
    let mut told = Told {
        runs: Stage::new(rt.alloc()),
        callers: halls::stage::Stage::new(rt.alloc()),
        is_of_callers: false,
    };
    for line in rt.lines(rt.alloc()) {
        let line = line?;
        play_line(&rt, &mut told, line.as_str())?;
    }
    Ok(())
}
