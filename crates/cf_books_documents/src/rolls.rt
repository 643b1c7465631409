//! The rolls of fiscal years, and what they do to documents.

ghost use Rattle.std.specs.Prelude.{◌≡◌, ◌≤◌, ◌<◌, ◌++◌, fold, length, nat_lt, position, IfOk, IfSome, OnOk};
ghost use Rattle.std.specs.List.{AllByRecursion};
ghost use Rattle.cf_model.specs.Calendar as calendar;
ghost use Rattle.cf_books_documents.specs.Rolls as spec;
ghost use Rattle.cf_books_documents.specs.Dated.{IsDated};

use crate::event::{Deed, Event};
use crate::facts::{Facts, is_lapsed, subject_of};
use cf_calls::Entry;
use cf_chart::Chart;
use cf_register_parts::rolled_year;
use std::alloc::{AllocError, Global};

/// The roll of a fiscal year by the entry at a place, which closes its last month.
#[derive(Clone, Copy)]
pub struct Roll {
    pub year: u16,
    /// Counted from 1.
    pub place: u64,
}

/// Adds the roll of the entry at a place, where it is one.
fn add_roll(
    rolls: &mut Vec<Roll>,
    chart: &Chart,
    place: u64,
    entry: &Entry,
) -> Result<(), AllocError>
    requires { IsDated entry.now }
    ensures { OnOk result (rolls.new.items ≡ rolls.old.items ++ spec.roll_if place
        (calendar.rolled_year chart.now entry.now.change.act)) }
{
    let change = &entry.change;
    match rolled_year(chart, change.on, &change.act) {
        Some(year) => {
            rolls.push(Roll { year, place })?;
            Ok(())
        }
        None => Ok(()),
    }
}

/// The rolls of a history, in order.
pub fn rolls_of(alloc: Global, chart: &Chart, entries: &[Entry]) -> Result<Vec<Roll>, AllocError>
    requires { AllByRecursion IsDated entries.now }
    ensures { IfOk result (λ v. v.items ≡ spec.rolls_of chart.now entries.now) }
{
    let mut rolls = Vec::new(alloc);
    let mut place: u64 = 0;
    for entry in entries {
        place += 1;
        add_roll(&mut rolls, chart, place, entry)?;
    }
    Ok(rolls)
}

/// The first event of a later place.
fn first_later(events: &[Event], place: u64) -> Option<usize>
    ensures value { result ≡ position (λ v. nat_lt place v.place) events.now }
    ensures within { IfSome result (λ at. at < length events.now) }
{
    events.iter().position(|event| place < event.place)
}

/// How many events stand before the first of a later place.
fn events_before(events: &[Event], place: u64) -> usize
    ensures value { result ≡ spec.events_before place events.now }
    ensures within { result ≤ length events.now }
{
    match first_later(events, place) {
        Some(at) => at,
        None => events.len(),
    }
}

/// Puts an event before the first of a later place.
fn put_placed(events: &mut Vec<Event>, event: Event) -> Result<(), AllocError>
    ensures { OnOk result (events.new.items ≡ spec.placed event events.old.items) }
{
    let at = events_before(events.as_slice(), event.place);
    events.insert(at, event)?;
    Ok(())
}

/// Whether a fiscal year is the first one or a later one.
fn is_since(first: Option<u16>, year: u16) -> bool
    ensures { result ≡ spec.is_since first year }
{
    match first {
        Some(first) => first <= year,
        None => false,
    }
}

/// What the roll of a fiscal year does to a document: it carries the document into the year after,
/// or the document lapses.
fn rolled(facts: &Facts, year: u16) -> Option<Deed>
    ensures { result ≡ spec.rolled facts.now year facts.now.year }
{
    let now = facts.year?;
    if is_since(facts.first, year) && year < now {
        return Some(Deed::Carried);
    }
    if year == now && is_lapsed(facts.state) {
        return Some(Deed::Lapsed);
    }
    None
}

/// Puts what a roll does to a document among its events.
fn put_rolled(events: &mut Vec<Event>, facts: &Facts, roll: Roll) -> Result<(), AllocError>
    ensures { OnOk result (events.new.items ≡ spec.with_roll facts.now events.old.items roll) }
{
    match rolled(facts, roll.year) {
        Some(deed) => {
            let event = Event {
                subject: subject_of(facts.kind),
                number: facts.number,
                item: facts.item,
                deed,
                place: roll.place,
            };
            put_placed(events, event)
        }
        None => Ok(()),
    }
}

/// Puts what rolls do to a document among its events.
pub fn put_rolls(events: &mut Vec<Event>, facts: &Facts, rolls: &[Roll]) -> Result<(), AllocError>
    ensures { OnOk result (events.new.items ≡ fold (spec.with_roll facts.now) events.old.items
        rolls.now) }
{
    for roll in rolls {
        put_rolled(events, facts, *roll)?;
    }
    Ok(())
}
