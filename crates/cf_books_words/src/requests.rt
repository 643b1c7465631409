//! The request that a parse found.

ghost use Rattle.std.specs.Prelude.{◌≡◌, ◌≤◌, IfOk, option_map};
ghost use Rattle.clap.specs.Words.{found_of, rows_of};
ghost use Rattle.cf_base.specs.Common.{most_entries};
ghost use Rattle.cf_books_words.specs.Ranges.{IsInRange, IsOptionDay, IsOptionFrom, IsRequestInRange};
ghost use Rattle.cf_books_words.specs.Requests as spec;
ghost use Rattle.cf_books_words.specs.Words.{Gives, texts};

use crate::command_word::{CommandWord, options_of, word_named, words_of};
use crate::found::{
    balances_found, claims_found, documents_found, is_csv, ledger_found, paid_found, posts_found,
    statement_found,
};
use crate::options::{Days, days_found, has_only, month_from, option_from, text_of};
use crate::words::{Command, Request, WordsRefused};
use cf_base::MOST_ENTRIES;
use clap::ArgMatches;

/// The file, where no more words follow.
fn last_word<'a>(file: Option<&'a str>, more: Option<&str>) -> Result<Option<&'a str>, WordsRefused>
    ensures { texts result ≡ spec.last_word (option_map (λ t. t.now) file.entry)
        (option_map (λ t. t.now) more.entry) }
{
    match more {
        None => Ok(file),
        Some(_) => Err(WordsRefused::BadWords),
    }
}

/// The file behind a command's own words, of which there are so many.
fn file_behind<'a>(matches: &ArgMatches<'a>, words: u8) -> Result<Option<&'a str>, WordsRefused>
    requires { words ≤ 2 }
    ensures { texts result ≡ spec.file_behind words (rows_of (found_of matches.now)) }
{
    match words {
        0 => last_word(text_of(matches, "first"), text_of(matches, "second")),
        1 => last_word(text_of(matches, "second"), text_of(matches, "third")),
        _ => Ok(text_of(matches, "third")),
    }
}

fn month_found(matches: &ArgMatches) -> Result<Command, WordsRefused>
    ensures command { result ≡ spec.month_command_in (rows_of (found_of matches.now)) }
    ensures range { IfOk result IsInRange }
{
    let text = text_of(matches, "first").ok_or(WordsRefused::BadWords)?;
    let month = month_from(text)?;
    Ok(Command::Month {
        month,
        csv: is_csv(matches),
    })
}

/// The command of a word.
fn command_found(
    matches: &ArgMatches,
    days: Days,
    word: CommandWord,
) -> Result<Command, WordsRefused>
    requires from { IsOptionDay days.from }
    requires through { IsOptionDay days.through }
    ensures command { result ≡ spec.command_in days (rows_of (found_of matches.now)) word }
    ensures range { IfOk result IsInRange }
{
    let csv = is_csv(matches);
    let bad = WordsRefused::BadWords;
    match word {
        CommandWord::CheckChart => Ok(Command::CheckChart),
        CommandWord::CheckGrants => Ok(Command::CheckGrants),
        CommandWord::Check => Ok(Command::Check),
        CommandWord::List => Ok(Command::List { csv }),
        CommandWord::Calls => Ok(Command::Calls),
        CommandWord::Chart => Ok(Command::Chart),
        CommandWord::Lines => Ok(Command::Lines),
        CommandWord::Claims => claims_found(matches).ok_or(bad),
        CommandWord::Posts => posts_found(matches, days.through).ok_or(bad),
        CommandWord::Balances => balances_found(matches, days.through).ok_or(bad),
        CommandWord::Open => Ok(Command::Open { csv }),
        CommandWord::Statement => statement_found(matches, days.through).ok_or(bad),
        CommandWord::Ledger => ledger_found(matches, days).ok_or(bad),
        CommandWord::Documents => documents_found(matches).ok_or(bad),
        CommandWord::Month => month_found(matches),
        CommandWord::Paid => paid_found(matches).ok_or(bad),
    }
}

/// How many of the journal's first entries are wanted, `None` for all.
fn entries_found(matches: &ArgMatches) -> Result<Option<u64>, WordsRefused>
    ensures entries { result ≡ spec.entries_in (rows_of (found_of matches.now)) }
    ensures range { IfOk result (IsOptionFrom 0 most_entries) }
{
    option_from(text_of(matches, "entries"), 0, MOST_ENTRIES).ok_or(WordsRefused::BadWords)
}

/// The word of the command, where it is one and each option that was given is its own.
fn word_found(matches: &ArgMatches) -> Result<CommandWord, WordsRefused>
    ensures { result ≡ spec.word_in (rows_of (found_of matches.now)) }
{
    let text = text_of(matches, "command").ok_or(WordsRefused::BadWords)?;
    let word = word_named(text).ok_or(WordsRefused::BadWords)?;
    if has_only(matches, options_of(word)) {
        Ok(word)
    } else {
        Err(WordsRefused::BadWords)
    }
}

/// What a parse found, where it asks for something.
pub fn request_found<'a>(matches: &ArgMatches<'a>) -> Result<Request<'a>, WordsRefused>
    ensures request { Gives result (spec.asked_in (rows_of (found_of matches.now))) }
    ensures range { IfOk result IsRequestInRange }
{
    let word = word_found(matches)?;
    let entries = entries_found(matches)?;
    let file = file_behind(matches, words_of(word))?;
    let days = days_found(matches)?;
    let command = command_found(matches, days, word)?;
    Ok(Request {
        command,
        file,
        entries,
        key: text_of(matches, "key"),
    })
}
