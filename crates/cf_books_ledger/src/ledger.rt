//! The ledger as records.

ghost use Rattle.std.specs.Prelude.{◌≡◌, ◌<◌, ◌^◌, ◌+ℤ◌, true, decimal, string_bytes, unsigned_abs, IfOk, OnOk};
ghost use Rattle.cf_base.specs.Common.{money_of};
ghost use Rattle.std.specs.Option.{option_copied};
ghost use Rattle.cf_books_lists.specs.Records.{drawn_text as drawn, head_text, money_if, number_text, record_text};
ghost use Rattle.cf_books_lists.specs.Rows.{added};
ghost use Rattle.cf_books_ledger.specs.Ledger as spec;

use crate::filter::wanted;
use crate::parties::{Parties, all_parties, party_of};
use cf_base::{day_text, money_text};
use cf_books_lists::{Layout, Rows, decimal_text, drawn_text, money_if, number_text};
use cf_books_words::LedgerFilter;
use cf_calls::Entry;
use cf_json_calls::call_word;
use cf_office_rows::{Amounts, LedgerRow};
use std::alloc::{AllocError, Global};

/// What was spent and received so far, in cents. `None` where it came to 2^126 cents.
#[derive(Clone, Copy)]
pub struct Totals {
    pub spent: Option<i128>,
    pub received: Option<i128>,
}

/// Whether an amount is below 2^126 cents in size.
fn is_small(amount: i128) -> bool
    ensures value { result ≡ spec.is_small amount }
    ensures small { result ≡ true → unsigned_abs amount < 2 ^ 126 }
{
    amount.unsigned_abs() < 85_070_591_730_234_615_865_843_651_857_942_052_864
}

/// The sum of two amounts, each below 2^126 cents in size.
fn sum(a: i128, b: i128) -> i128
    requires first { unsigned_abs a < 2 ^ 126 }
    requires second { unsigned_abs b < 2 ^ 126 }
    ensures { result ≡ a +ℤ b }
{
    a + b
}

/// A total with an amount more.
fn plus(total: Option<i128>, amount: i128) -> Option<i128>
    ensures { result ≡ spec.plus_if total amount }
{
    match total {
        None => None,
        Some(total) => {
            if is_small(total) && is_small(amount) {
                Some(sum(total, amount))
            } else {
                None
            }
        }
    }
}

/// The totals with a row more.
fn with_row(totals: Totals, row: &LedgerRow) -> Totals
    ensures { result ≡ spec.with_row totals row.now }
{
    Totals {
        spent: plus(totals.spent, row.by.spent),
        received: plus(totals.received, row.by.received),
    }
}

/// What was received so far in a row of a source, and spent in one of a line.
fn running(source: Option<u16>, totals: Totals) -> Option<i128>
    ensures { result ≡ spec.running source totals }
{
    match source {
        Some(_) => totals.received,
        None => totals.spent,
    }
}

/// The texts of what a row is of.
#[derive(Drop)]
struct Names {
    document: Vec<u8>,
    item: Vec<u8>,
    party: Vec<u8>,
    fund: Vec<u8>,
    dept: Vec<u8>,
    object: Vec<u8>,
    line: Vec<u8>,
    source: Vec<u8>,
    year: Vec<u8>,
}

fn names_of(alloc: Global, row: &LedgerRow, party: u32) -> Result<Names, AllocError>
    ensures document { IfOk result (λ n. n.document.items ≡ drawn row.now.of.document) }
    ensures item { IfOk result (λ n. n.item.items ≡ drawn row.now.of.item) }
    ensures party { IfOk result (λ n. n.party.items ≡ drawn party) }
    ensures fund { IfOk result (λ n. n.fund.items ≡ drawn row.now.fund) }
    ensures dept { IfOk result (λ n. n.dept.items ≡ drawn row.now.dept) }
    ensures object { IfOk result (λ n. n.object.items ≡ drawn row.now.object) }
    ensures line { IfOk result (λ n. n.line.items ≡ number_text row.now.line) }
    ensures source { IfOk result (λ n. n.source.items ≡ number_text row.now.source) }
    ensures year { IfOk result (λ n. n.year.items ≡ decimal row.now.year) }
{
    let document = drawn_text(alloc, row.of.document as u64)?;
    let item = drawn_text(alloc, row.of.item as u64)?;
    let party = drawn_text(alloc, party as u64)?;
    let fund = drawn_text(alloc, row.fund as u64)?;
    let dept = drawn_text(alloc, row.dept as u64)?;
    let object = drawn_text(alloc, row.object as u64)?;
    let line = number_text(alloc, row.line)?;
    let source = number_text(alloc, row.source)?;
    let year = decimal_text(alloc, row.year as u64)?;
    Ok(Names {
        document,
        item,
        party,
        fund,
        dept,
        object,
        line,
        source,
        year,
    })
}

/// The texts of a row's amounts.
#[derive(Drop)]
struct Moneys {
    appropriated: String,
    ordered: String,
    held: String,
    spent: String,
    received: String,
    running: String,
}

fn moneys_of(alloc: Global, by: &Amounts, running: Option<i128>) -> Result<Moneys, AllocError>
    ensures appropriated { IfOk result
        (λ m. string_bytes m.appropriated ≡ money_of by.now.appropriated) }
    ensures ordered { IfOk result (λ m. string_bytes m.ordered ≡ money_of by.now.ordered) }
    ensures held { IfOk result (λ m. string_bytes m.held ≡ money_of by.now.held) }
    ensures spent { IfOk result (λ m. string_bytes m.spent ≡ money_of by.now.spent) }
    ensures received { IfOk result (λ m. string_bytes m.received ≡ money_of by.now.received) }
    ensures running { IfOk result (λ m. string_bytes m.running ≡ money_if running) }
{
    let appropriated = money_text(alloc, by.appropriated)?;
    let ordered = money_text(alloc, by.ordered)?;
    let held = money_text(alloc, by.held)?;
    let spent = money_text(alloc, by.spent)?;
    let received = money_text(alloc, by.received)?;
    let running = money_if(alloc, running)?;
    Ok(Moneys {
        appropriated,
        ordered,
        held,
        spent,
        received,
        running,
    })
}

/// Writes the record of a row of an entry, with the totals through it.
fn put_row(
    alloc: Global,
    out: &mut Rows,
    parties: &Parties,
    totals: Totals,
    entry: &Entry,
    row: &LedgerRow,
) -> Result<(), AllocError>
    ensures { OnOk result
        (out.new ≡ added out.old
        (record_text out.old.csv (spec.row_fields parties.now totals entry.now row.now))) }
{
    let change = &entry.change;
    let place = decimal_text(alloc, row.of.place)?;
    let day = day_text(change.on);
    let desk = decimal_text(alloc, change.desk as u64)?;
    let call = Vec::from_slice(alloc, call_word(&change.act).as_bytes())?;
    let names = names_of(alloc, row, party_of(parties, &change.act, row))?;
    let moneys = moneys_of(alloc, &row.by, running(row.source, totals))?;
    let fields = [
        place.as_slice(),
        day.as_slice(),
        desk.as_slice(),
        change.key.as_str().as_bytes(),
        call.as_slice(),
        names.document.as_slice(),
        names.item.as_slice(),
        names.party.as_slice(),
        names.fund.as_slice(),
        names.dept.as_slice(),
        names.object.as_slice(),
        names.line.as_slice(),
        names.source.as_slice(),
        names.year.as_slice(),
        moneys.appropriated.as_str().as_bytes(),
        moneys.ordered.as_str().as_bytes(),
        moneys.held.as_str().as_bytes(),
        moneys.spent.as_str().as_bytes(),
        moneys.received.as_str().as_bytes(),
        moneys.running.as_str().as_bytes(),
    ];
    out.put(fields.as_slice())
}

/// The ledger as far as it is written.
#[derive(Drop)]
struct Sheet {
    out: Rows,
    totals: Totals,
}

/// Writes the record of a row, where its entry is asked for, and adds it to the totals.
fn put_asked(
    alloc: Global,
    sheet: &mut Sheet,
    parties: &Parties,
    entry: Option<&Entry>,
    row: &LedgerRow,
) -> Result<(), AllocError>
    ensures out { OnOk result (sheet.new.out ≡ added sheet.old.out
        (spec.asked_text sheet.old.out.csv parties.now sheet.old.totals
        (option_copied entry.entry) row.now)) }
    ensures totals { OnOk result (sheet.new.totals
        ≡ spec.asked_totals sheet.old.totals (option_copied entry.entry) row.now) }
{
    match entry {
        Some(entry) => {
            sheet.totals = with_row(sheet.totals, row);
            put_row(alloc, &mut sheet.out, parties, sheet.totals, entry, row)
        }
        None => Ok(()),
    }
}

/// Writes the records of the rows that are asked for.
fn put_rows(
    alloc: Global,
    sheet: &mut Sheet,
    filter: &LedgerFilter,
    parties: &Parties,
    entries: &[Entry],
    rows: &[LedgerRow],
) -> Result<(), AllocError>
    requires { sheet.old.totals ≡ spec.nothing }
    ensures { OnOk result (sheet.new.out ≡ added sheet.old.out
        (spec.asked_rows sheet.old.out.csv filter.now parties.now entries.now
        spec.nothing rows.now)) }
{
    for row in rows {
        let entry = wanted(filter, parties, entries, row);
        put_asked(alloc, sheet, parties, entry, row)?;
    }
    Ok(())
}

/// Writes the names of the columns, where records are written.
fn put_head(out: &mut Rows) -> Result<(), AllocError>
    ensures { OnOk result (out.new ≡ added out.old (head_text out.old.csv spec.head)) }
{
    let names: [&[u8]; 20] = [
        b"place",
        b"day",
        b"desk",
        b"key",
        b"call",
        b"document",
        b"item",
        b"party",
        b"fund",
        b"dept",
        b"object",
        b"line",
        b"source",
        b"year",
        b"appropriated",
        b"ordered",
        b"held",
        b"spent",
        b"received",
        b"running",
    ];
    out.put_names(names.as_slice())
}

/// The rows of these entries that are asked for as records below a row of names: a record each,
/// with its entry's place, day, desk, key and call, the document and its item that it is of, the
/// other party, the line or the source, the fiscal year, the changes in units of money, and what
/// was spent (of a source received) among the rows so far.
pub fn ledger_text(
    layout: Layout,
    filter: &LedgerFilter,
    entries: &[Entry],
    rows: &[LedgerRow],
) -> Result<Vec<u8>, AllocError>
    ensures { IfOk result (λ v. v.items ≡ spec.text_of layout.csv filter.now entries.now rows.now) }
{
    let parties = all_parties(layout.alloc, entries)?;
    let mut sheet = Sheet {
        out: Rows::new(layout),
        totals: Totals {
            spent: Some(0),
            received: Some(0),
        },
    };
    put_head(&mut sheet.out)?;
    put_rows(layout.alloc, &mut sheet, filter, &parties, entries, rows)?;
    sheet.out.into_text()
}
