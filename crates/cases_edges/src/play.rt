//! What is printed for each line of the script.

use crate::disks::{show_file, show_memory, show_missing, show_nowhere};
use crate::ends::{show_ends, show_source};
use crate::journals::{show_append, show_faults, show_found};
use crate::talks::{show_counted, show_drip, show_long, show_talk};
use crate::word::Word;
use crate::years::show_year_end;
use std::fs::{self, File};
use std::io;
use std::rt::Files;

/// Plays a word on a journal in a file.
fn play_journal<R: Files<File = File> + Print + AllocGlobal>(
    rt: &R,
    word: &Word<'_>,
) -> io::Result<()> {
    match *word {
        Word::Found { fail, path, chart } => show_found(rt, fail, path, chart),
        Word::Append {
            fail,
            path,
            payload,
        } => show_append(rt, fail, path, payload),
        Word::Faults {
            path,
            chart,
            payload,
        } => show_faults(rt, path, chart, payload),
        Word::Remove(path) => fs::remove_file(rt, path),
        _ => Ok(()),
    }
}

/// Plays a word on sources, sinks and disks. Another goes on to those on a journal.
fn play_end<R: Files<File = File> + Print + AllocGlobal>(
    rt: &R,
    word: &Word<'_>,
) -> io::Result<()> {
    match *word {
        Word::Source { size, file } => show_source(rt, file, size),
        Word::Ends => show_ends(rt, rt.alloc()),
        Word::File(path) => show_file(rt, path),
        Word::Missing(path) => show_missing(rt, path),
        Word::Nowhere(path) => show_nowhere(rt, path),
        Word::Memory { fail, stop } => show_memory(rt, rt.alloc(), fail, stop),
        _ => play_journal(rt, word),
    }
}

/// Plays a word on lines and years. Another goes on to those on ends.
pub fn play<R: Files<File = File> + Print + AllocGlobal>(
    rt: &R,
    word: &Word<'_>,
) -> io::Result<()> {
    let alloc = rt.alloc();
    match *word {
        Word::Talk(text) => show_talk(rt, alloc, text, usize::MAX),
        Word::Limit { limit, text } => show_talk(rt, alloc, text, limit),
        Word::Long(letters) => show_long(rt, alloc, letters),
        Word::Drip { reads, text } => show_drip(rt, alloc, text, reads),
        Word::Counted { each, text } => show_counted(rt, alloc, text, each),
        Word::YearEnd { first_month, year } => show_year_end(rt, first_month, year),
        _ => play_end(rt, word),
    }
}
