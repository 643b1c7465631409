//! What entries do to documents, by the documents' numbers.

ghost use Rattle.std.specs.Prelude.{◌≡◌, ◌==◌, ◌++◌, ◌∷◌, [], if◌then◌else◌, ℕ, IfOk, OnOk};
ghost use Rattle.std.specs.BTreeMap.{get};
ghost use Rattle.std.specs.Ordering.{nat_cmp};
ghost use Rattle.cf_books_documents.specs.Events as spec;
ghost use Rattle.cf_books_documents.specs.Indexed.{KnowsVouchers, list_in, numbered};
ghost use Rattle.cf_register_parts.specs.Pairs.{amount_at};

use crate::event::Event;
use crate::lent::{Lent, note_loan};
use crate::named::add_events;
use crate::vouchers::{Vouchers, vouchers_of};
use cf_calls::Entry;
use cf_chart::Chart;
use std::alloc::{AllocError, Global};
use std::collections::BTreeMap;

/// The events of each number, of whatever documents, in the order of the entries.
pub type Numbered = BTreeMap<u64, Vec<Event>>;

/// Adds an event to those of its number.
fn put_event(alloc: Global, lists: &mut Numbered, event: Event) -> Result<(), AllocError>
    ensures { OnOk result ((n : ℕ) → list_in (get nat_cmp lists.new n) ≡ (if event.number == n then
        list_in (get nat_cmp lists.old n) ++ event ∷ [] else list_in (get nat_cmp lists.old n))) }
{
    if let Some(list) = lists.get_mut(&event.number) {
        list.push(event)?;
        return Ok(());
    }
    let mut list = Vec::new(alloc);
    list.push(event)?;
    lists.insert(event.number, list)?;
    Ok(())
}

/// Adds events to those of their numbers.
fn put_events(alloc: Global, lists: &mut Numbered, events: &[Event]) -> Result<(), AllocError>
    ensures { OnOk result ((n : ℕ) → list_in (get nat_cmp lists.new n) ≡ list_in (get nat_cmp
        lists.old n) ++ numbered n events.now) }
{
    for event in events {
        put_event(alloc, lists, *event)?;
    }
    Ok(())
}

/// Adds what the entry at a place does to the events of each number.
fn put_entry(
    alloc: Global,
    lists: &mut Numbered,
    chart: &Chart,
    vouchers: &Vouchers,
    lent: &Lent,
    entries: &[Entry],
    place: u64,
    entry: &Entry,
) -> Result<(), AllocError>
    requires { KnowsVouchers entries.now vouchers.now }
    ensures { OnOk result ((n : ℕ) → list_in (get nat_cmp lists.new n) ≡ list_in (get nat_cmp
        lists.old n) ++ numbered n (spec.events_by chart.now (spec.voucher_in entries.now)
        (amount_at lent.now.entries) place entry.now.drawn entry.now.change.act)) }
{
    let mut events = Vec::new(alloc);
    add_events(&mut events, chart, vouchers, lent, entries, place, entry)?;
    put_events(alloc, lists, events.as_slice())
}

/// What the entries of a history do, by number.
pub fn numbered_of(alloc: Global, chart: &Chart, entries: &[Entry]) -> Result<Numbered, AllocError>
    ensures { IfOk result (λ lists. (n : ℕ) → list_in (get nat_cmp lists n) ≡ numbered n
        (spec.events_of chart.now entries.now)) }
{
    let vouchers = vouchers_of(alloc, entries)?;
    let mut lent = BTreeMap::new(alloc);
    let mut lists = BTreeMap::new(alloc);
    let mut place: u64 = 0;
    for entry in entries {
        place += 1;
        put_entry(
            alloc, &mut lists, chart, &vouchers, &lent, entries, place, entry,
        )?;
        note_loan(&mut lent, &entry.change.act, place)?;
    }
    Ok(lists)
}
