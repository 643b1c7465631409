//! What each vendor was paid in a calendar year.

ghost use Rattle.std.specs.Prelude.{◌≡◌, ◌≤◌, None, length, IfOk, OnOk};
ghost use Rattle.cf_base.specs.Common.{most_entries};
ghost use Rattle.cf_books_lists.specs.Records.{head_text, record_text};
ghost use Rattle.cf_books_lists.specs.Rows.{added};
ghost use Rattle.cf_books_payments.specs.Entering.{AreInForm, sum_at};
ghost use Rattle.cf_books_year.specs.Paid as spec;

use cf_base::{day_text, money_text};
use cf_books_lists::{Layout, Rows, decimal_text};
use cf_books_payments::{Paid, PaidKind, Totals, by_vendor, paid_in, totals_of};
use cf_calls::Entry;
use cf_office::Rest;
use std::alloc::{AllocError, Global};

/// The word of a document that is paid.
fn kind_word(kind: PaidKind) -> &'static str
    ensures { result.now ≡ spec.kind_word kind }
{
    match kind {
        PaidKind::Voucher => "voucher",
        PaidKind::Lease => "lease",
    }
}

/// The key of the entry at a place, from 0.
fn key_at(entries: &[Entry], at: u64) -> &str
    ensures { result.now ≡ spec.key_at entries.now at }
{
    match entries.get(at as usize) {
        Some(entry) => entry.change.key.as_str(),
        None => "",
    }
}

/// The day of the entry at a place, from 0.
fn day_at(alloc: Global, entries: &[Entry], at: u64) -> Result<Vec<u8>, AllocError>
    ensures { IfOk result (λ t. t.items ≡ spec.day_at entries.now at) }
{
    match entries.get(at as usize) {
        Some(entry) => Vec::from_slice(alloc, &day_text(entry.change.on)),
        None => Ok(Vec::new(alloc)),
    }
}

/// Writes the row of what was paid.
fn put_paid(alloc: Global, out: &mut Rows, entries: &[Entry], paid: &Paid) -> Result<(), AllocError>
    ensures { OnOk result (out.new
        ≡ added out.old (record_text out.old.csv (spec.paid_row entries.now paid.now))) }
{
    let vendor = decimal_text(alloc, paid.vendor as u64)?;
    let word = Vec::from_slice(alloc, kind_word(paid.kind).as_bytes())?;
    let number = decimal_text(alloc, paid.number as u64)?;
    let day = day_at(alloc, entries, paid.by)?;
    let amount = money_text(alloc, paid.amount)?;
    let fields = [
        vendor.as_slice(),
        word.as_slice(),
        number.as_slice(),
        key_at(entries, paid.at).as_bytes(),
        day.as_slice(),
        key_at(entries, paid.by).as_bytes(),
        amount.as_str().as_bytes(),
    ];
    out.put(fields.as_slice())
}

/// Writes the row of what a vendor was paid in all.
fn put_total(alloc: Global, out: &mut Rows, vendor: u32, total: i128) -> Result<(), AllocError>
    ensures { OnOk result (out.new
        ≡ added out.old (record_text out.old.csv (spec.total_row vendor total))) }
{
    let number = decimal_text(alloc, vendor as u64)?;
    let amount = money_text(alloc, total)?;
    let fields: [&[u8]; 7] = [
        number.as_slice(),
        b"total",
        b"",
        b"",
        b"",
        b"",
        amount.as_str().as_bytes(),
    ];
    out.put(fields.as_slice())
}

/// Whether a vendor is another than the one before it.
fn is_next(before: Option<u32>, vendor: u32) -> bool
    ensures { result ≡ spec.is_next before vendor }
{
    match before {
        Some(before) => before != vendor,
        None => true,
    }
}

/// Writes the row of what a vendor was paid in all, before the first of its rows.
fn put_total_first(
    alloc: Global,
    out: &mut Rows,
    totals: &Totals,
    before: Option<u32>,
    vendor: u32,
) -> Result<(), AllocError>
    ensures { OnOk result (out.new
        ≡ added out.old (spec.total_text out.old.csv (sum_at totals.now) before vendor)) }
{
    if is_next(before, vendor) {
        put_total(alloc, out, vendor, totals.of(vendor))
    } else {
        Ok(())
    }
}

/// Writes the row of what was paid, below that of its vendor.
fn put_row(
    alloc: Global,
    out: &mut Rows,
    entries: &[Entry],
    totals: &Totals,
    before: Option<u32>,
    paid: &Paid,
) -> Result<(), AllocError>
    ensures { OnOk result (out.new
        ≡ added out.old (spec.row_text out.old.csv entries.now (sum_at totals.now) before
        paid.now)) }
{
    put_total_first(alloc, out, totals, before, paid.vendor)?;
    put_paid(alloc, out, entries, paid)
}

/// Writes the rows of these, which are by vendor.
fn put_rows(
    alloc: Global,
    out: &mut Rows,
    entries: &[Entry],
    totals: &Totals,
    rows: &[Paid],
) -> Result<(), AllocError>
    ensures { OnOk result (out.new
        ≡ added out.old (spec.rows_text out.old.csv entries.now (sum_at totals.now) None
        rows.now)) }
{
    let mut before = None;
    for row in rows {
        put_row(alloc, out, entries, totals, before, row)?;
        before = Some(row.vendor);
    }
    Ok(())
}

/// Writes the names of the columns.
fn put_head(out: &mut Rows) -> Result<(), AllocError>
    ensures { OnOk result (out.new ≡ added out.old (head_text out.old.csv spec.head)) }
{
    let names: [&[u8]; 7] = [
        b"vendor",
        b"document",
        b"number",
        b"key",
        b"day",
        b"run",
        b"amount",
    ];
    out.put_names(names.as_slice())
}

/// What each vendor was paid in a calendar year by these entries.
fn text_of(layout: Layout, year: u16, entries: &[Entry]) -> Result<Vec<u8>, AllocError>
    requires forms { AreInForm entries.now }
    requires few { length entries.now ≤ most_entries }
    ensures { IfOk result (λ v. v.items ≡ spec.paid_text layout.csv year entries.now) }
{
    let mut rows = paid_in(layout.alloc, year, entries)?;
    let totals = totals_of(layout.alloc, rows.as_slice())?;
    by_vendor(&mut rows)?;
    let mut out = Rows::new(layout);
    put_head(&mut out)?;
    put_rows(layout.alloc, &mut out, entries, &totals, rows.as_slice())?;
    out.into_text()
}

/// What each vendor was paid in a calendar year: for each vendor, by rising number, a row with the
/// total, and below it a row for each voucher that a payment dated in the year paid and for each
/// payment of a lease, in the order of the payments. A row has the document's number (of a lease
/// that of its bond) and key, and the day and the key of the payment, with the amount in units of
/// money. A voucher comes to the items of the entry that entered it, and a lease's payment to
/// principal and interest.
pub fn paid_text(layout: Layout, rest: &Rest, year: u16) -> Result<Vec<u8>, AllocError>
    ensures { IfOk result (λ v. v.items ≡ spec.paid_text layout.csv year rest.now.entries) }
{
    text_of(layout, year, rest.entries())
}
