//! Which documents are wanted.

ghost use Rattle.std.specs.Prelude.{◌≡◌, ◌-◌, ◌==◌, option_map, None};
ghost use Rattle.std.specs.Option.{option_copied};
ghost use Rattle.cf_books_documents.specs.Wanted as spec;

use crate::event::{Event, is_payment};
use crate::facts::{Facts, is_kind};
use crate::texts::run_text;
use cf_books_lists::is_asked;
use cf_books_words::{DocumentFilter, DocumentKind};
use cf_calls::Entry;

/// The place of the last payment or collection among what entries did, 0 where there is none.
fn payment_place(events: &[Event]) -> u64
    ensures { result ≡ spec.payment_place events.now }
{
    let mut place = 0;
    for event in events {
        if is_payment(event.deed) {
            place = event.place;
        }
    }
    place
}

/// The entry of the last payment or collection.
pub fn payment_of<'a>(entries: &'a [Entry], events: &[Event]) -> Option<&'a Entry>
    ensures { option_copied result ≡ spec.payment_of entries.now events.now }
{
    let place = payment_place(events);
    if place == 0 {
        return None;
    }
    entries.get(place as usize - 1)
}

/// Whether a text stands anywhere in another.
fn has_within(text: &[u8], part: &[u8]) -> bool
    ensures { result ≡ spec.has_within part.now text.now }
{
    for at in 0..text.len() {
        if text[at..].starts_with(part) {
            return true;
        }
    }
    part.is_empty()
}

/// Whether a kind is the one that is asked for, or none is.
fn is_kind_asked(asked: Option<DocumentKind>, kind: DocumentKind) -> bool
    ensures { result ≡ spec.is_kind_asked asked kind }
{
    match asked {
        Some(asked) => is_kind(asked, kind),
        None => true,
    }
}

/// Whether an amount is the one that is asked for, or none is.
fn is_amount_asked(asked: Option<u64>, amount: i128) -> bool
    ensures { result ≡ spec.is_amount_asked asked amount }
{
    match asked {
        Some(asked) => i128::from(asked) == amount,
        None => true,
    }
}

/// Whether what is asked for stands in the key of an entry or in that of its payment, or nothing
/// is.
fn is_key_asked(asked: Option<&str>, entry: &Entry, payment: Option<&Entry>) -> bool
    ensures { result ≡ spec.is_key_asked (option_map (λ t. t.now) asked.entry) entry.now
        (option_copied payment.entry) }
{
    match asked {
        Some(asked) => {
            let part = asked.as_bytes();
            has_within(entry.change.key.as_str().as_bytes(), part)
                || has_within(run_text(payment).as_bytes(), part)
        }
        None => true,
    }
}

/// Whether a document is wanted.
pub fn is_wanted(
    filter: DocumentFilter,
    key: Option<&str>,
    facts: &Facts,
    entry: &Entry,
    payment: Option<&Entry>,
) -> bool
    ensures { result ≡ spec.is_wanted filter (option_map (λ t. t.now) key.entry) facts.now entry.now
        (option_copied payment.entry) }
{
    is_kind_asked(filter.kind, facts.kind)
        && is_asked(filter.party, facts.party)
        && is_amount_asked(filter.amount, facts.amount)
        && is_key_asked(key, entry, payment)
}
