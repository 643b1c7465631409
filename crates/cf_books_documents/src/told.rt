//! What a history did to each of its documents.

ghost use Rattle.std.specs.Prelude.{◌≡◌, IfOk};
ghost use Rattle.std.specs.List.{AllByRecursion, filter};
ghost use Rattle.cf_books_documents.specs.Dated.{IsDated};
ghost use Rattle.cf_books_documents.specs.KnownIn.{known_in};
ghost use Rattle.cf_books_documents.specs.Told as spec;

use crate::event::{Event, Subject, is_same};
use crate::facts::{Facts, subject_of};
use crate::index::{Numbered, numbered_of};
use crate::rolls::{Roll, put_rolls, rolls_of};
use cf_calls::Entry;
use cf_chart::Chart;
use std::alloc::{AllocError, Global};

/// The events of each number and the rolls of a history.
#[derive(Drop)]
pub struct Told {
    numbered: Numbered,
    rolls: Vec<Roll>,
}

/// What a history did.
pub fn told_of(alloc: Global, chart: &Chart, entries: &[Entry]) -> Result<Told, AllocError>
    requires { AllByRecursion IsDated entries.now }
    ensures { IfOk result (λ t. known_in t ≡ spec.told_of chart.now entries.now) }
{
    let numbered = numbered_of(alloc, chart, entries)?;
    let rolls = rolls_of(alloc, chart, entries)?;
    Ok(Told { numbered, rolls })
}

/// Whether an event of a document's number is of a document.
fn is_own(subject: Subject, item: u64, event: &Event) -> bool
    ensures { result ≡ spec.is_own subject item event.now }
{
    is_same(event.subject, subject) && (event.item == 0 || event.item == item)
}

/// The events of a document among those of its number.
fn own_events(
    alloc: Global,
    subject: Subject,
    item: u64,
    events: &[Event],
) -> Result<Vec<Event>, AllocError>
    ensures { IfOk result (λ v. v.items ≡ filter (spec.is_own subject item) events.now) }
{
    let mut own = Vec::new(alloc);
    for event in events {
        if is_own(subject, item, event) {
            own.push(*event)?;
        }
    }
    Ok(own)
}

impl Told {
    /// The events of a number.
    fn events(&self, number: u64) -> &[Event]
        ensures { result.now ≡ (known_in self.now).events number }
    {
        match self.numbered.get(&number) {
            Some(events) => events.as_slice(),
            None => &[],
        }
    }

    /// What was done to a document, oldest first.
    pub fn events_of(&self, alloc: Global, facts: &Facts) -> Result<Vec<Event>, AllocError>
        ensures { IfOk result (λ v. v.items ≡ spec.document_events (known_in self.now) facts.now) }
    {
        let subject = subject_of(facts.kind);
        let mut events = own_events(alloc, subject, facts.item, self.events(facts.number))?;
        put_rolls(&mut events, facts, self.rolls.as_slice())?;
        Ok(events)
    }
}
