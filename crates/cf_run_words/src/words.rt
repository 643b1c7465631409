//! What the words ask for.
ghost use Rattle.std.specs.Prelude.{◌≡◌, ◌⊎◌, IfOk, map, option_and_then, string_bytes};
ghost use Rattle.std.specs.List.{list_any};
ghost use Rattle.clap.specs.Words.{kind_of, subcommand_rows_of};
ghost use Rattle.cf_run_words.specs.Parsed.{command_in};
ghost use Rattle.cf_run_words.specs.Meets.{Gives};
ghost use Rattle.cf_run_words.specs.Ranges.{IsInRange};
ghost use Rattle.cf_run_words.specs.Words.{command_of, is_dashes};

use crate::parsed::command_found;
use crate::program::program;
use cf_base::{Day, Kind, Month};
use clap::error::ErrorKind;
use clap::{ArgMatches, Error};
use std::alloc::Global;

/// A statement that `report` prints.
#[derive(Clone, Copy)]
pub enum ReportKind {
    /// A statement that a look may ask for too.
    Look(Kind),
    /// The fund balances by class (GASB Statement 54).
    Classes,
    /// The components of net position (GASB Statement 34).
    Components,
    /// The major funds and the others together (GASB Statement 34).
    Major,
}

/// What the words ask for.
#[derive(Clone, Copy)]
pub enum Command {
    /// Found a journal with the chart.
    Found,
    /// Read calls from the input, one a line, and answer each on one line.
    Desk,
    /// Serve this many links at each of so many doors, the first of them at this port.
    Serve {
        port: u16,
        doors: u16,
        links: u32,
    },
    /// Print a statement.
    Report {
        year: u16,
        kind: ReportKind,
        csv: bool,
    },
    /// Run the calls of the generator.
    Generate {
        n: u32,
    },
    /// Write the receive calls that share the month's interest of the pooled cash, so many cents,
    /// out among the funds, as calls of this desk.
    Pool {
        month: Month,
        amount: u64,
        desk: u16,
    },
    /// Write the bill calls by which this grant is claimed on this day, as calls of this desk.
    Claim {
        grant: u16,
        on: Day,
        desk: u16,
    },
    /// Write the entries after this place as a stream.
    Ship {
        from: u32,
    },
    /// Read a stream of entries into the journal.
    Follow,
}

/// Why the words give no command.
#[derive(Clone, Copy)]
pub enum WordsRefused {
    /// They are none of the nine forms.
    BadWords,
    /// There was no memory to read them.
    NoMemory,
}

/// Whether the word `--` is among the words.
fn has_dashes(words: &[String]) -> bool
    ensures { result ≡ list_any is_dashes (map string_bytes words.now) }
{
    for word in words {
        if word.as_str() == "--" {
            return true;
        }
    }
    false
}

/// The command that the parse found.
fn command_of_matches(matches: &ArgMatches) -> Result<Command, WordsRefused>
    ensures command { Gives result (option_and_then command_in (subcommand_rows_of matches.now)) }
    ensures range { IfOk result IsInRange }
{
    match matches.subcommand() {
        Some((name, inner)) => command_found(name, inner).ok_or(WordsRefused::BadWords),
        None => Err(WordsRefused::BadWords),
    }
}

/// What a failed parse says of the words.
fn refusal_of(error: &Error) -> WordsRefused
    ensures { (result ≡ WordsRefused.NoMemory)
        ⊎ ((result ≡ WordsRefused.BadWords) × (kind_of error.now ≡ ErrorKind.OutOfMemory → ⊥)) }
{
    match error.kind() {
        ErrorKind::OutOfMemory => WordsRefused::NoMemory,
        _ => WordsRefused::BadWords,
    }
}

/// The command that the words ask for, which are those after the program's own name. Its numbers
/// are in their ranges.
pub fn read_words(alloc: Global, words: &[String]) -> Result<Command, WordsRefused>
    ensures command { Gives result (command_of (map string_bytes words.now)) }
    ensures range { IfOk result IsInRange }
{
    if has_dashes(words) {
        return Err(WordsRefused::BadWords);
    }
    let command = match program(alloc) {
        Ok(command) => command,
        Err(_) => return Err(WordsRefused::NoMemory),
    };
    match command.try_get_matches_from(words) {
        Ok(matches) => command_of_matches(&matches),
        Err(error) => Err(refusal_of(&error)),
    }
}
