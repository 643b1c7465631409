//! What the words ask for.

ghost use Rattle.std.specs.Prelude.{◌≡◌, ◌⊎◌, IfOk, false, fold, map, string_bytes};
ghost use Rattle.clap.specs.Words.{app_of, kind_of, with_rule};
ghost use Rattle.clap.specs.declared.Command.TheViews.{out-Command as fields_of};
ghost use Rattle.cf_books_words.specs.CommandLine as line;
ghost use Rattle.cf_books_words.specs.Parsed.{parsed};
ghost use Rattle.cf_books_words.specs.Ranges.{IsRequestInRange};
ghost use Rattle.cf_books_words.specs.Words.{Gives};
ghost use Rattle.cf_run_words.specs.CommandLine.{flag_rule, option_rule};

use crate::options::option_names;
use crate::requests::request_found;
use cf_base::{Day, Month};
use cf_run_words::ReportKind;
use clap::error::ErrorKind;
use clap::{Arg, ArgAction, Command as Parser, Error};
use std::alloc::{AllocError, Global};

/// The file of the journal in the folder where the program runs.
pub const JOURNAL: &str = "fund.journal";

/// Which posts are wanted: those of this fiscal year, fund and account, of each where it is said.
/// The fund 0 has the posts of the city as a whole.
#[derive(Clone, Copy)]
pub struct PostFilter {
    /// A fiscal year, 1971 to 2199.
    pub year: Option<u16>,
    /// The id of a fund, 0 to 9999.
    pub fund: Option<u16>,
    /// The code of an account, 1 to 999999.
    pub account: Option<u32>,
}

/// Which rows of the ledger are wanted: those of this fund, department, object, control line,
/// source, vendor and fiscal year, and of entries dated from one day through another, of each where
/// it is said.
#[derive(Clone, Copy)]
pub struct LedgerFilter {
    /// The id of a fund, 1 to 9999.
    pub fund: Option<u16>,
    /// The id of a department, 1 to 9999.
    pub dept: Option<u16>,
    /// The id of an object, 1 to 9999.
    pub object: Option<u16>,
    /// The number of a control line, 0 to 4095.
    pub line: Option<u16>,
    /// The id of a source, 1 to 9999.
    pub source: Option<u16>,
    pub vendor: Option<u32>,
    /// A fiscal year, 1971 to 2199.
    pub year: Option<u16>,
    pub from: Option<Day>,
    pub through: Option<Day>,
}

/// A kind of document.
#[derive(Clone, Copy, PartialEq, Eq)]
pub enum DocumentKind {
    Requisition,
    Order,
    Voucher,
    Bill,
    Asset,
    Bond,
    Lease,
    Loan,
}

/// Which documents are wanted: those of this kind, vendor or payer, and amount in cents, of each
/// where it is said. What their keys contain stands beside it in the request.
#[derive(Clone, Copy)]
pub struct DocumentFilter {
    pub kind: Option<DocumentKind>,
    pub party: Option<u32>,
    /// In cents, of the document or the item.
    pub amount: Option<u64>,
}

/// What a run does. With `csv` rows are printed as records of comma-separated values below a row of
/// names; with a day in `through` amounts are those of the entries dated through it.
#[derive(Clone, Copy)]
pub enum Command {
    /// Says what a chart has, or its first fault.
    CheckChart,
    /// Says what a document of grants has, or its first fault.
    CheckGrants,
    /// Says what a journal has, or where it is damaged.
    Check,
    /// Prints a row an entry of a journal.
    List {
        csv: bool,
    },
    /// Prints the entries of a journal as calls.
    Calls,
    /// Prints the chart that a journal keeps.
    Chart,
    /// Prints the control lines of the chart that a journal keeps.
    Lines,
    /// Prints what of each voucher of a grant, 1 to 9999, is claimed or can be.
    Claims {
        grant: u16,
        csv: bool,
    },
    /// Prints the posts of a journal's entries.
    Posts {
        filter: PostFilter,
        through: Option<Day>,
        csv: bool,
    },
    /// Prints the balances of the accounts through a fiscal year, 1971 to 2199, or, `alone`, those
    /// of the year alone with what it began with.
    Balances {
        year: u16,
        through: Option<Day>,
        alone: bool,
        csv: bool,
    },
    /// Prints the documents of a journal that are open.
    Open {
        csv: bool,
    },
    /// Prints a statement of a fiscal year, 1971 to 2199, with the names of its sections and
    /// control lines.
    Statement {
        year: u16,
        kind: ReportKind,
        through: Option<Day>,
        csv: bool,
    },
    /// Prints what each entry moved on control lines and sources.
    Ledger {
        filter: LedgerFilter,
        csv: bool,
    },
    /// Prints each document that ever was, and what became of it.
    Documents {
        filter: DocumentFilter,
        csv: bool,
    },
    /// Prints what each department spent in a month, 1971-01 to 2199-12, and what is left of its
    /// budget.
    Month {
        month: Month,
        csv: bool,
    },
    /// Prints what each vendor was paid in a calendar year, 1971 to 2199.
    Paid {
        year: u16,
        csv: bool,
    },
}

/// A command with what stands beside it, where it is named.
#[derive(Clone, Copy)]
pub struct Request<'a> {
    pub command: Command,
    /// The file that is read.
    pub file: Option<&'a str>,
    /// How many of the journal's first entries the command is said of, 0 to 1,500,000.
    pub entries: Option<u64>,
    /// What the keys of the documents that `documents` prints contain.
    pub key: Option<&'a str>,
}

impl Request<'_> {
    ghost use Rattle.cf_books_words.specs.Words.{asks, path_of};

    /// The path of the file to read: the one that is named, or else `chart.toml`, `grants.toml` or
    /// `fund.journal`.
    pub fn path(&self) -> &str
        ensures { result.now ≡ path_of (asks self.now) }
    {
        match (self.file, self.command) {
            (Some(path), _) => path,
            (None, Command::CheckChart) => "chart.toml",
            (None, Command::CheckGrants | Command::Claims { .. }) => "grants.toml",
            (
                None,
                Command::Check
                | Command::List { .. }
                | Command::Calls
                | Command::Chart
                | Command::Lines
                | Command::Posts { .. }
                | Command::Balances { .. }
                | Command::Open { .. }
                | Command::Statement { .. }
                | Command::Ledger { .. }
                | Command::Documents { .. }
                | Command::Month { .. }
                | Command::Paid { .. },
            ) => JOURNAL,
        }
    }
}

/// Why the words give no command.
#[derive(Clone, Copy)]
pub enum WordsRefused {
    /// They ask for no command.
    BadWords,
    /// A day or a month is none from 1971 to 2199.
    NoSuchDay,
    /// There was no memory to read them.
    NoMemory,
}

/// A command line whose words are without the program's name, and which asks for no help.
fn bare<'a>(alloc: Global) -> Parser<'a>
    ensures told { app_of result ≡ line.bare }
    ensures local { (fields_of result).has_globals ≡ false }
{
    Parser::new(alloc, "books")
        .no_binary_name(true)
        .disable_help_flag(true)
}

/// The words that are no options: a command, and up to three behind it.
fn places<'a>(alloc: Global) -> Result<Parser<'a>, AllocError>
    ensures { IfOk result (λ p. app_of p ≡ line.places) }
{
    bare(alloc)
        .arg(Arg::new(alloc, "command"))?
        .arg(Arg::new(alloc, "first"))?
        .arg(Arg::new(alloc, "second"))?
        .arg(Arg::new(alloc, "third"))
}

/// A parser with an option without a value more.
fn with_flag<'a>(alloc: Global, parser: Parser<'a>, name: &'a str) -> Result<Parser<'a>, AllocError>
    ensures { IfOk result (λ p. app_of p ≡ with_rule (app_of parser.entry)
        (flag_rule name.entry.now)) }
{
    parser.arg(Arg::new(alloc, name).long(name).action(ArgAction::SetTrue))
}

/// A command, up to three words behind it, and the options without a value.
fn with_flags<'a>(alloc: Global) -> Result<Parser<'a>, AllocError>
    ensures { IfOk result (λ p. app_of p ≡ line.with_flags) }
{
    let parser = places(alloc)?;
    let parser = with_flag(alloc, parser, "csv")?;
    with_flag(alloc, parser, "alone")
}

/// A parser with an option with a value more.
fn with_option<'a>(
    alloc: Global,
    parser: Parser<'a>,
    name: &'a str,
) -> Result<Parser<'a>, AllocError>
    ensures { IfOk result (λ p. app_of p ≡ with_rule (app_of parser.entry)
        (option_rule name.entry.now)) }
{
    parser.arg(Arg::new(alloc, name).long(name))
}

/// A parser with these options with a value more.
fn with_options<'a>(
    alloc: Global,
    parser: Parser<'a>,
    names: &'a [&'a str],
) -> Result<Parser<'a>, AllocError>
    ensures { IfOk result (λ p. app_of p ≡ fold with_rule (app_of parser.entry)
        (map option_rule (map (λ n. n.now) names.entry.now))) }
{
    let mut parser = parser;
    for name in names {
        parser = with_option(alloc, parser, name)?;
    }
    Ok(parser)
}

/// The command line, as the parser is told of it.
fn parser<'a>(alloc: Global) -> Result<Parser<'a>, AllocError>
    ensures { IfOk result (λ p. app_of p ≡ line.program) }
{
    let parser = with_flags(alloc)?;
    with_options(alloc, parser, option_names())
}

/// What a failed parse says of the words.
fn refusal_of(error: &Error) -> WordsRefused
    ensures { (result ≡ WordsRefused.NoMemory)
        ⊎ ((result ≡ WordsRefused.BadWords) × (kind_of error.now ≡ ErrorKind.OutOfMemory → ⊥)) }
{
    match error.kind() {
        ErrorKind::OutOfMemory => WordsRefused::NoMemory,
        ErrorKind::InvalidValue
        | ErrorKind::UnknownArgument
        | ErrorKind::InvalidSubcommand
        | ErrorKind::NoEquals
        | ErrorKind::ValueValidation
        | ErrorKind::TooManyValues
        | ErrorKind::TooFewValues
        | ErrorKind::WrongNumberOfValues
        | ErrorKind::ArgumentConflict
        | ErrorKind::MissingRequiredArgument
        | ErrorKind::MissingSubcommand
        | ErrorKind::DisplayHelp
        | ErrorKind::DisplayHelpOnMissingArgumentOrSubcommand
        | ErrorKind::DisplayVersion
        | ErrorKind::Io
        | ErrorKind::Format => WordsRefused::BadWords,
    }
}

/// What the words ask for, which are those after the program's own name: a command and what
/// `docs/BOOKS.md` lets stand behind it, as `clap` reads them. Its numbers and days are in their
/// ranges.
pub fn read_words<'a>(alloc: Global, words: &'a [String]) -> Result<Request<'a>, WordsRefused>
    ensures request { Gives result (parsed (map string_bytes words.entry.now)) }
    ensures range { IfOk result IsRequestInRange }
{
    let parser = match parser(alloc) {
        Ok(parser) => parser,
        Err(_) => return Err(WordsRefused::NoMemory),
    };
    match parser.try_get_matches_from(words) {
        Ok(matches) => request_found(&matches),
        Err(error) => Err(refusal_of(&error)),
    }
}
