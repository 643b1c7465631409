//! What is said on standard error.

ghost use Rattle.std.specs.Prelude.{◌≡◌, ◌++◌, Some, OnOk};
ghost use Rattle.cf_base.specs.Common.{day_text as day_words};
ghost use Rattle.cf_chart.specs.Common.{word_of};
ghost use Rattle.cf_books.specs.Notices as spec;

use crate::status::{RefusedEntry, Status};
use crate::unknown::{NameKind, Unknown};
use cf_base::{Day, day_text};
use cf_books_grants::put_id;
use cf_books_lists::{put_between, put_text};
use cf_calls::refusal_name;
use cf_chart::{ChartFault, KeyName, TableName};
use cf_json_members::parts::put_number;
use std::alloc::AllocError;

/// Appends a table, the place of a row in it, and the row's id.
fn put_row(out: &mut Vec<u8>, table: TableName, at: u64, id: Option<u16>) -> Result<(), AllocError>
    ensures { OnOk result (out.new.items ≡ out.old.items ++ spec.row_text table at id) }
{
    out.extend_from_slice(table.word().as_bytes())?;
    out.push(b' ')?;
    put_number(out, at)?;
    put_id(out, id)
}

/// Appends what is wrong with a key.
fn put_key(out: &mut Vec<u8>, wrong: &str, key: KeyName) -> Result<(), AllocError>
    ensures { OnOk result (out.new.items ≡ out.old.items ++ (wrong.now ++ word_of key)) }
{
    out.extend_from_slice(wrong.as_bytes())?;
    out.extend_from_slice(key.word().as_bytes())
}

/// Appends a chart's fault, which is in a row of this id.
fn put_fault(out: &mut Vec<u8>, fault: ChartFault, id: Option<u16>) -> Result<(), AllocError>
    ensures { OnOk result (out.new.items ≡ out.old.items ++ spec.fault_text fault id) }
{
    match fault {
        ChartFault::TooLong { limit } => put_between(out, "longer than ", limit, " bytes"),
        ChartFault::NotToml => out.extend_from_slice(b"no TOML document"),
        ChartFault::TooMany { table } => {
            out.extend_from_slice(b"too many rows in ")?;
            out.extend_from_slice(table.word().as_bytes())
        }
        ChartFault::Missing { table, at, key } => {
            put_row(out, table, at, id)?;
            put_key(out, " has no ", key)
        }
        ChartFault::Bad { table, at, key } => {
            put_row(out, table, at, id)?;
            put_key(out, " has a bad ", key)
        }
        ChartFault::Twice { table, at } => {
            put_row(out, table, at, id)?;
            out.extend_from_slice(b" stands twice")
        }
        ChartFault::Window { source, days } => {
            put_between(out, "source ", source as u64, " has a window of ")?;
            put_between(out, "", days as u64, " days")
        }
        ChartFault::General { count } => put_between(out, "", count, " general funds"),
    }
}

/// Appends why the office doesn't take an entry.
fn put_refusal(out: &mut Vec<u8>, number: u8) -> Result<(), AllocError>
    ensures { OnOk result (out.new.items ≡ out.old.items ++ spec.refusal_text number) }
{
    if number == 0 {
        return out.extend_from_slice(b" is a repeat, or draws other numbers");
    }
    put_between(out, " is refused: ", number as u64, " ")?;
    put_text(out, refusal_name(number))
}

/// Appends which entry the office doesn't take, and why.
fn put_entry(out: &mut Vec<u8>, entry: RefusedEntry) -> Result<(), AllocError>
    ensures { OnOk result (out.new.items ≡ out.old.items ++ spec.damage_text (Some entry)) }
{
    out.extend_from_slice(b"entry ")?;
    put_number(out, entry.place)?;
    put_refusal(out, entry.number)
}

/// Appends what is damaged.
fn put_damage(out: &mut Vec<u8>, offset: u64, entry: Option<RefusedEntry>) -> Result<(), AllocError>
    ensures { OnOk result (out.new.items ≡ out.old.items
        ++ (spec.at_text offset ++ spec.damage_text entry)) }
{
    put_between(out, "damaged at ", offset, ": ")?;
    match entry {
        None => put_text(out, "no record of a journal stands there"),
        Some(entry) => put_entry(out, entry),
    }
}

/// Appends that so many entries were asked for of a journal that has fewer.
fn put_entries(out: &mut Vec<u8>, asked: u64, entries: u64) -> Result<(), AllocError>
    ensures { OnOk result (out.new.items ≡ out.old.items
        ++ spec.status_text (Status.EntriesRefused asked entries)) }
{
    put_between(out, "entries refused: ", asked, " asked, the journal has ")?;
    put_number(out, entries)
}

/// What the words name by a number, in a word.
fn kind_word(kind: NameKind) -> &'static str
    ensures { result.now ≡ spec.kind_word kind }
{
    match kind {
        NameKind::Fund => "fund",
        NameKind::Department => "department",
        NameKind::Line => "line",
        NameKind::Object => "object",
        NameKind::Source => "source",
    }
}

/// Appends that a chart has no row of this kind with this number.
fn put_name(out: &mut Vec<u8>, kind: NameKind, number: u16) -> Result<(), AllocError>
    ensures { OnOk result
        (out.new.items ≡ out.old.items ++ spec.unknown_text (Unknown.Name kind number)) }
{
    out.extend_from_slice(b"no such ")?;
    out.extend_from_slice(kind_word(kind).as_bytes())?;
    out.extend_from_slice(b": ")?;
    put_number(out, number as u64)
}

/// Appends a day.
fn put_day(out: &mut Vec<u8>, day: Day) -> Result<(), AllocError>
    ensures { OnOk result (out.new.items ≡ out.old.items ++ day_words day) }
{
    out.extend_from_slice(&day_text(day))
}

/// Appends that a day lies before a chart's first fiscal year.
fn put_early(out: &mut Vec<u8>, day: Day) -> Result<(), AllocError>
    ensures { OnOk result (out.new.items ≡ out.old.items ++ spec.unknown_text (Unknown.Early day)) }
{
    put_text(out, "before the first fiscal year: ")?;
    put_day(out, day)
}

/// Appends what the words name that a chart doesn't have.
fn put_unknown(out: &mut Vec<u8>, what: Unknown) -> Result<(), AllocError>
    ensures { OnOk result (out.new.items ≡ out.old.items ++ spec.unknown_text what) }
{
    match what {
        Unknown::Name { kind, number } => put_name(out, kind, number),
        Unknown::Early { day } => put_early(out, day),
    }
}

/// Appends what is said of how a run ended.
fn put_status(out: &mut Vec<u8>, status: Status) -> Result<(), AllocError>
    ensures { OnOk result (out.new.items ≡ out.old.items ++ spec.status_text status) }
{
    match status {
        Status::Done => Ok(()),
        Status::BadWords => out.extend_from_slice(b"bad words"),
        Status::ChartRefused { fault, id } => {
            put_text(out, "chart refused: ")?;
            put_fault(out, fault, id)
        }
        Status::GrantsRefused { fault, id } => {
            put_text(out, "grants refused: ")?;
            cf_books_grants::put_fault(out, fault, id)
        }
        Status::ReadFault => out.extend_from_slice(b"read fault"),
        Status::WriteFault => out.extend_from_slice(b"write fault"),
        Status::NotFounded { len } => {
            put_between(out, "not founded: the file has ", len, " bytes")
        }
        Status::Damaged { offset, entry } => put_damage(out, offset, entry),
        Status::NoMemory => out.extend_from_slice(b"no memory"),
        Status::Cut { offset, lost } => {
            put_between(out, "damaged at ", offset, ": ")?;
            put_between(
                out,
                "what stands before is given, and ",
                lost,
                " bytes are lost",
            )
        }
        Status::NoSuchDay => out.extend_from_slice(b"no such day"),
        Status::NotInChart { what } => put_unknown(out, what),
        Status::EntriesRefused { asked, entries } => put_entries(out, asked, entries),
    }
}

/// Appends what is said on standard error of how a run ended: a line, or nothing where all went
/// well.
pub fn put_notice(out: &mut Vec<u8>, status: Status) -> Result<(), AllocError>
    ensures { OnOk result (out.new.items ≡ out.old.items ++ spec.notice_of status) }
{
    if matches!(status, Status::Done) {
        return Ok(());
    }
    out.extend_from_slice(b"books: ")?;
    put_status(out, status)?;
    out.push(b'\n')?;
    Ok(())
}
