//! Which rows of the ledger are asked for.

ghost use Rattle.std.specs.Prelude.{◌≡◌};
ghost use Rattle.std.specs.Option.{option_copied};
ghost use Rattle.cf_books_ledger.specs.Ledger as spec;

use crate::parties::{Parties, party_of};
use cf_base::Day;
use cf_books_lists::{is_asked, is_id_asked};
use cf_books_words::LedgerFilter;
use cf_calls::Entry;
use cf_office_rows::LedgerRow;
use cf_register_parts::is_before;

/// Whether a line or a source is asked for: where one is named, no row that has none is.
fn is_named(asked: Option<u16>, number: Option<u16>) -> bool
    ensures { result ≡ spec.is_named asked number }
{
    match (asked, number) {
        (None, _) => true,
        (Some(_), None) => false,
        (Some(asked), Some(number)) => asked == number,
    }
}

/// Whether a day is not before the one that is asked for.
fn is_from(asked: Option<Day>, on: Day) -> bool
    ensures { result ≡ spec.is_from asked on }
{
    match asked {
        Some(day) => !is_before(on, day),
        None => true,
    }
}

/// Whether a day is not behind the one that is asked for.
fn is_through(asked: Option<Day>, on: Day) -> bool
    ensures { result ≡ spec.is_through asked on }
{
    match asked {
        Some(day) => !is_before(day, on),
        None => true,
    }
}

/// Whether the accounts, the line and the source of a row are asked for.
fn is_there(filter: &LedgerFilter, row: &LedgerRow) -> bool
    ensures { result ≡ spec.is_there filter.now row.now }
{
    is_id_asked(filter.fund, row.fund)
        && is_id_asked(filter.dept, row.dept)
        && is_id_asked(filter.object, row.object)
        && is_named(filter.line, row.line)
        && is_named(filter.source, row.source)
}

/// Whether a day is asked for.
fn is_within(filter: &LedgerFilter, on: Day) -> bool
    ensures { result ≡ spec.is_within filter.now on }
{
    is_from(filter.from, on) && is_through(filter.through, on)
}

/// Whether a row of an entry is asked for.
fn is_wanted(filter: &LedgerFilter, parties: &Parties, entry: &Entry, row: &LedgerRow) -> bool
    ensures { result ≡ spec.is_wanted filter.now parties.now entry.now row.now }
{
    is_there(filter, row)
        && is_asked(filter.vendor, party_of(parties, &entry.change.act, row))
        && is_id_asked(filter.year, row.year)
        && is_within(filter, entry.change.on)
}

/// The entry that a row is of.
fn entry_of<'a>(entries: &'a [Entry], row: &LedgerRow) -> Option<&'a Entry>
    ensures { option_copied result ≡ spec.entry_of entries.now row.now }
{
    entries.get(row.of.place.saturating_sub(1) as usize)
}

/// The entry of a row that is asked for.
pub fn wanted<'a>(
    filter: &LedgerFilter,
    parties: &Parties,
    entries: &'a [Entry],
    row: &LedgerRow,
) -> Option<&'a Entry>
    ensures { option_copied result ≡ spec.wanted filter.now parties.now entries.now row.now }
{
    match entry_of(entries, row) {
        Some(entry) => {
            if is_wanted(filter, parties, entry, row) {
                Some(entry)
            } else {
                None
            }
        }
        None => None,
    }
}
