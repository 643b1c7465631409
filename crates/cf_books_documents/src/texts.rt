//! Texts of the fields of a row.

ghost use Rattle.std.specs.Prelude.{◌≡◌, ◌++◌, IfOk, OnOk};
ghost use Rattle.std.specs.Option.{option_copied};
ghost use Rattle.cf_books_documents.specs.Texts as spec;

use crate::event::{Event, deed_word};
use cf_base::day_text;
use cf_books_lists::put_text;
use cf_calls::Entry;
use cf_json_members::parts::put_number;
use std::alloc::{AllocError, Global};

/// The day of a payment.
pub fn paid_text(alloc: Global, payment: Option<&Entry>) -> Result<Vec<u8>, AllocError>
    ensures { IfOk result (λ t. t.items ≡ spec.paid_text (option_copied payment.entry)) }
{
    match payment {
        Some(entry) => Vec::from_slice(alloc, &day_text(entry.change.on)),
        None => Ok(Vec::new(alloc)),
    }
}

/// The key of a payment.
pub fn run_text<'a>(payment: Option<&'a Entry>) -> &'a str
    ensures { result.now ≡ spec.run_text (option_copied payment.entry) }
{
    match payment {
        Some(entry) => entry.change.key.as_str(),
        None => "",
    }
}

/// What stands before the text of what an entry did, by its place among others, from 0.
fn lead(nth: usize) -> &'static str
    ensures { result.now ≡ spec.lead nth }
{
    if nth == 0 { "" } else { "; " }
}

/// Appends what an entry did and its place, behind a text.
fn put_event(out: &mut Vec<u8>, before: &str, event: &Event) -> Result<(), AllocError>
    ensures { OnOk result (out.new.items ≡ out.old.items ++ (before.now ++ spec.event_text
        event.now)) }
{
    put_text(out, before)?;
    put_text(out, deed_word(event.deed))?;
    put_text(out, " ")?;
    put_number(out, event.place)
}

/// What entries did, in their order.
pub fn events_text(alloc: Global, events: &[Event]) -> Result<Vec<u8>, AllocError>
    ensures { IfOk result (λ t. t.items ≡ spec.events_text 0 events.now) }
{
    let mut text = Vec::new(alloc);
    for (nth, event) in events.iter().enumerate() {
        put_event(&mut text, lead(nth), event)?;
    }
    Ok(text)
}
