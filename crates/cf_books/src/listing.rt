//! A row an entry.

ghost use Rattle.std.specs.Prelude.{◌≡◌, IfOk, OnOk};
ghost use Rattle.std.specs.List.{All};
ghost use Rattle.cf_journal.specs.Records.{HasRecord};
ghost use Rattle.cf_books.specs.Listing as spec;
ghost use Rattle.cf_books_lists.specs.Records.{head_text, record_text};
ghost use Rattle.cf_books_lists.specs.Rows.{added};

use cf_base::day_text;
use cf_books_lists::{Layout, Rows, decimal_text, drawn_text, money_if};
use cf_books_payments::Tables;
use cf_calls::Entry;
use cf_json_calls::call_word;
use std::alloc::{AllocError, Global};

/// Writes the row of an entry.
fn put_entry(
    alloc: Global,
    out: &mut Rows,
    place: u64,
    amount: Option<i128>,
    entry: &Entry,
) -> Result<(), AllocError>
    ensures { OnOk result (out.new
        ≡ added out.old (record_text out.old.csv (spec.entry_row place amount entry.now))) }
{
    let change = &entry.change;
    let at = decimal_text(alloc, place)?;
    let day = day_text(change.on);
    let desk = decimal_text(alloc, change.desk as u64)?;
    let call = Vec::from_slice(alloc, call_word(&change.act).as_bytes())?;
    let amount = money_if(alloc, amount)?;
    let number = drawn_text(alloc, entry.drawn.number as u64)?;
    let second = drawn_text(alloc, entry.drawn.second as u64)?;
    let fields = [
        at.as_slice(),
        day.as_slice(),
        desk.as_slice(),
        change.key.as_str().as_bytes(),
        call.as_slice(),
        amount.as_str().as_bytes(),
        number.as_slice(),
        second.as_slice(),
    ];
    out.put(fields.as_slice())
}

/// Writes the names of the columns, where records are written.
fn put_header(out: &mut Rows) -> Result<(), AllocError>
    ensures { OnOk result (out.new ≡ added out.old (head_text out.old.csv spec.header)) }
{
    let names: [&[u8]; 8] = [
        b"place", b"day", b"desk", b"key", b"call", b"amount", b"number", b"second",
    ];
    out.put_names(names.as_slice())
}

/// The entries of a journal, a row each: as records with a row of names before them, or with tabs
/// between the fields.
pub fn list_text(alloc: Global, csv: bool, entries: &[Entry]) -> Result<Vec<u8>, AllocError>
    requires { All HasRecord entries.now }
    ensures { IfOk result (λ bytes. bytes.items ≡ spec.list_text csv entries.now) }
{
    let mut out = Rows::new(Layout { alloc, csv });
    put_header(&mut out)?;
    let mut known = Tables::new(alloc);
    let mut place = 0;
    for entry in entries {
        let amount = known.amount(entries, entry);
        put_entry(alloc, &mut out, place + 1, amount, entry)?;
        known.note(entry, place)?;
        place += 1;
    }
    out.into_text()
}
