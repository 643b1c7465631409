//! What each command answers.

ghost use Rattle.std.specs.Prelude.{◌≡◌, ℕ, List, Option, Some, None, Result, Err, IfOk, length, option_map};
ghost use Rattle.std.specs.List.{All};
ghost use Rattle.cf_chart.specs.Common.{chart_of};
ghost use Rattle.cf_journal.specs.Records.{HasRecord};
ghost use Rattle.cf_books.specs.Answers as spec;
ghost use Rattle.cf_books.specs.Answers.{Answers, IsToday};
ghost use Rattle.cf_books_front.specs.Front.{GivesFront};
ghost use Rattle.cf_books_front.specs.declared.front.FrontRefused.{FrontRefused as FrontRefusal};
ghost use Rattle.cf_books_words.specs.Words.{asks};
ghost use Rattle.cf_books_words.specs.declared.words.Command.{Command as Asking};
ghost use Rattle.cf_books_front.specs.Whole.{parts, whole_of};

use crate::calls::put_calls;
use crate::documents::documents_answer;
use crate::fault_rows::fault_id;
use crate::grants::{claims_answer, grants_answer};
use crate::ledger::ledger_answer;
use crate::lines::lines_text;
use crate::listing::list_text;
use crate::lists::{balances_answer, open_answer, paid_answer, posts_answer, statement_answer};
use crate::month::month_answer;
use crate::office::office_answer;
use crate::status::Status;
use crate::summary::put_chart;
use cf_books_front::{FrontRefused, Whole, front_with, read_whole};
use cf_books_lists::Layout;
use cf_books_words::{Command, Request};
use cf_chart::{Chart, ChartFault, ChartRefused};
use cf_journal::OpenRefused;
use std::alloc::{AllocError, Global};

/// What is printed, and how the run ends.
#[derive(Drop)]
pub struct Answer {
    pub out: Vec<u8>,
    pub status: Status,
}

/// An answer of nothing.
pub fn nothing(alloc: Global, status: Status) -> Answer
    ensures { spec.view result ≡ spec.nothing status }
{
    Answer {
        out: Vec::new(alloc),
        status,
    }
}

/// What a chart has, or its first fault, which is the one that `found` refuses it for, with the id
/// of the row that it is in.
fn chart_answer(alloc: Global, bytes: &[u8]) -> Result<Answer, AllocError>
    ensures { Answers result (spec.chart_said bytes.now (chart_of bytes.now)) }
{
    match Chart::read(alloc, bytes) {
        Ok(chart) => {
            let mut out = Vec::new(alloc);
            put_chart(&mut out, &chart)?;
            Ok(Answer {
                out,
                status: Status::Done,
            })
        }
        Err(ChartRefused::Fault(fault)) => {
            let id = fault_id(alloc, bytes, fault)?;
            Ok(nothing(alloc, Status::ChartRefused { fault, id }))
        }
        Err(ChartRefused::NoMemory) => Err(AllocError),
    }
}

/// The control lines of a chart's bytes, none where it is refused.
fn lines_in(alloc: Global, chart: &[u8]) -> Result<Vec<u8>, AllocError>
    ensures { IfOk result (λ v. v.items ≡ spec.lines_in (chart_of chart.now)) }
{
    match Chart::read(alloc, chart) {
        Ok(chart) => lines_text(alloc, &chart),
        Err(ChartRefused::Fault(_)) => Ok(Vec::new(alloc)),
        Err(ChartRefused::NoMemory) => Err(AllocError),
    }
}

/// What is said of a journal in which no record stands at this place in the file.
pub fn damaged(alloc: Global, offset: u64) -> Answer
    ensures { spec.view result ≡ spec.nothing (Status.Damaged offset None) }
{
    nothing(
        alloc,
        Status::Damaged {
            offset,
            entry: None,
        },
    )
}

/// What a command prints of a journal.
fn text_of(alloc: Global, command: Command, whole: &Whole) -> Result<Vec<u8>, AllocError>
    requires { All HasRecord whole.now.entries.items }
    ensures { IfOk result (λ v. v.items ≡ spec.text_of command (parts whole.now)) }
{
    match command {
        Command::Calls => {
            let mut out = Vec::new(alloc);
            put_calls(&mut out, whole.entries.as_slice())?;
            Ok(out)
        }
        Command::List { csv } => list_text(alloc, csv, whole.entries.as_slice()),
        Command::Chart => Vec::from_slice(alloc, whole.chart.as_slice()),
        Command::CheckChart
        | Command::CheckGrants
        | Command::Check
        | Command::Lines
        | Command::Claims { .. }
        | Command::Posts { .. }
        | Command::Balances { .. }
        | Command::Open { .. }
        | Command::Statement { .. }
        | Command::Ledger { .. }
        | Command::Documents { .. }
        | Command::Month { .. }
        | Command::Paid { .. } => Ok(Vec::new(alloc)),
    }
}

/// How a run ends over a journal of so many bytes.
fn end_of(damage: Option<u64>, len: u64) -> Status
    ensures { result ≡ spec.end_of damage len }
{
    match damage {
        None => Status::Done,
        Some(offset) => Status::Cut {
            offset,
            lost: len.saturating_sub(offset),
        },
    }
}

/// What a command answers of a journal, as far as it is whole.
fn whole_answer(alloc: Global, command: Command, bytes: &[u8]) -> Result<Answer, AllocError>
    ensures { Answers result (spec.whole_said command (length bytes.now) (whole_of bytes.now)) }
{
    match read_whole(alloc, bytes) {
        Ok(whole) => {
            let out = text_of(alloc, command, &whole)?;
            let status = end_of(whole.damage, bytes.len() as u64);
            Ok(Answer { out, status })
        }
        Err(OpenRefused::NotFounded { len, byte: _ }) => {
            Ok(nothing(alloc, Status::NotFounded { len }))
        }
        Err(OpenRefused::Damaged { offset }) => Ok(damaged(alloc, offset)),
        // A disk in memory fails for want of memory alone.
        Err(OpenRefused::Disk | OpenRefused::NoMemory) => Err(AllocError),
    }
}

/// The lines of a chart, or its fault. Bytes that aren't even a TOML document are no journal.
fn chart_lines_answer(alloc: Global, bytes: &[u8]) -> Result<Answer, AllocError>
    ensures { Answers result (spec.chart_lines_said bytes.now (chart_of bytes.now)) }
{
    match Chart::read(alloc, bytes) {
        Ok(chart) => {
            let out = lines_text(alloc, &chart)?;
            Ok(Answer {
                out,
                status: Status::Done,
            })
        }
        Err(ChartRefused::Fault(ChartFault::NotToml | ChartFault::TooLong { .. })) => {
            let len = bytes.len() as u64;
            Ok(nothing(alloc, Status::NotFounded { len }))
        }
        Err(ChartRefused::Fault(fault)) => {
            let id = fault_id(alloc, bytes, fault)?;
            Ok(nothing(alloc, Status::ChartRefused { fault, id }))
        }
        Err(ChartRefused::NoMemory) => Err(AllocError),
    }
}

/// The lines of the chart that a journal keeps, or of a chart's file.
fn lines_answer(alloc: Global, bytes: &[u8]) -> Result<Answer, AllocError>
    ensures { Answers result (spec.lines_said bytes.now (whole_of bytes.now)) }
{
    match read_whole(alloc, bytes) {
        Ok(whole) => {
            let out = lines_in(alloc, whole.chart.as_slice())?;
            let status = end_of(whole.damage, bytes.len() as u64);
            Ok(Answer { out, status })
        }
        Err(OpenRefused::NotFounded { len: _, byte: _ }) => chart_lines_answer(alloc, bytes),
        Err(OpenRefused::Damaged { offset }) => Ok(damaged(alloc, offset)),
        Err(OpenRefused::Disk | OpenRefused::NoMemory) => Err(AllocError),
    }
}

/// What a command answers of a journal's bytes, or of those of a chart.
fn command_answer(
    alloc: Global,
    command: Command,
    key: Option<&str>,
    bytes: &[u8],
) -> Result<Answer, AllocError>
    ensures { Answers result (spec.said (option_map (λ k. k.now) key.entry) command bytes.now) }
{
    match command {
        Command::CheckChart => chart_answer(alloc, bytes),
        Command::Lines => lines_answer(alloc, bytes),
        Command::Check => office_answer(alloc, bytes),
        Command::Posts {
            filter,
            through,
            csv,
        } => posts_answer(Layout { alloc, csv }, filter, through, bytes),
        Command::Balances {
            year,
            through,
            alone,
            csv,
        } => balances_answer(Layout { alloc, csv }, year, through, alone, bytes),
        Command::Open { csv } => open_answer(Layout { alloc, csv }, bytes),
        Command::Statement {
            year,
            kind,
            through,
            csv,
        } => statement_answer(Layout { alloc, csv }, year, kind, through, bytes),
        Command::Ledger { filter, csv } => ledger_answer(Layout { alloc, csv }, filter, bytes),
        Command::Documents { filter, csv } => {
            documents_answer(Layout { alloc, csv }, filter, key, bytes)
        }
        Command::Paid { year, csv } => paid_answer(Layout { alloc, csv }, year, bytes),
        Command::Month { month, csv } => month_answer(Layout { alloc, csv }, month, bytes),
        Command::CheckGrants
        | Command::Claims { .. }
        | Command::List { .. }
        | Command::Calls
        | Command::Chart => whole_answer(alloc, command, bytes),
    }
}

/// What is said where a journal has no front with so many entries.
fn no_front(alloc: Global, asked: u64, why: FrontRefused) -> Result<Answer, AllocError>
    ensures answer { (command : Asking) → (key : Option (List ℕ))
        → (x : Result (List ℕ) FrontRefusal) → GivesFront (Err why) x
        → Answers result (spec.said_first asked key command x) }
    ensures known { IfOk result
        (λ a. (x : Result (List ℕ) FrontRefusal) → GivesFront (Err why) x → x ≡ Err why) }
{
    match why {
        FrontRefused::Fewer { entries } => {
            Ok(nothing(alloc, Status::EntriesRefused { asked, entries }))
        }
        FrontRefused::Nothing(OpenRefused::NotFounded { len, byte: _ }) => {
            Ok(nothing(alloc, Status::NotFounded { len }))
        }
        FrontRefused::Nothing(OpenRefused::Damaged { offset }) => Ok(damaged(alloc, offset)),
        FrontRefused::Nothing(OpenRefused::Disk | OpenRefused::NoMemory) => Err(AllocError),
    }
}

/// What a command answers of a journal's first `n` entries. Where the journal is whole and has no
/// more, it is what the command answers of the journal.
fn first_answer(
    alloc: Global,
    n: u64,
    command: Command,
    key: Option<&str>,
    bytes: &[u8],
) -> Result<Answer, AllocError>
    ensures answer { Answers result
        (spec.said_at (Some n) (option_map (λ k. k.now) key.entry) command bytes.now) }
    ensures all { IfOk result
        (λ a. IsToday n (option_map (λ k. k.now) key.entry) command bytes.now (spec.view a)) }
{
    match front_with(alloc, n, bytes) {
        Ok(front) => command_answer(alloc, command, key, front.as_slice()),
        Err(why) => no_front(alloc, n, why),
    }
}

/// What a command answers of a journal's first entries, where a number of them is asked for, or of
/// all. Where the journal is whole and has that number of entries, it is what the command answers
/// of all.
fn answer_at(alloc: Global, request: &Request, bytes: &[u8]) -> Result<Answer, AllocError>
    ensures answer { Answers result
        (spec.said_at request.now.entries
        (option_map (λ k. k.now) request.now.key) request.now.command bytes.now) }
    ensures all { IfOk result
        (λ a. (n : ℕ) → request.now.entries ≡ Some n
        → IsToday n (option_map (λ k. k.now) request.now.key) request.now.command bytes.now
        (spec.view a)) }
{
    match request.entries {
        None => command_answer(alloc, request.command, request.key, bytes),
        Some(n) => first_answer(alloc, n, request.command, request.key, bytes),
    }
}

/// What is answered to a request of its file's bytes, and of those of the journal beside it where
/// it reads one.
pub fn answer_of(
    alloc: Global,
    request: Request,
    bytes: &[u8],
    journal: &[u8],
) -> Result<Answer, AllocError>
    ensures answer { Answers result (spec.said_with (asks request.entry) bytes.now journal.now) }
    ensures all { IfOk result
        (λ a. (n : ℕ) → request.entry.entries ≡ Some n
        → IsToday n (option_map (λ k. k.now) request.entry.key) request.entry.command bytes.now
        (spec.view a)) }
{
    match request.command {
        Command::CheckGrants => grants_answer(alloc, bytes, journal),
        Command::Claims { grant, csv } => {
            claims_answer(Layout { alloc, csv }, grant, bytes, journal)
        }
        Command::CheckChart => chart_answer(alloc, bytes),
        Command::Check
        | Command::List { .. }
        | Command::Calls
        | Command::Chart
        | Command::Lines
        | Command::Posts { .. }
        | Command::Balances { .. }
        | Command::Open { .. }
        | Command::Statement { .. }
        | Command::Ledger { .. }
        | Command::Documents { .. }
        | Command::Month { .. }
        | Command::Paid { .. } => answer_at(alloc, &request, bytes),
    }
}
