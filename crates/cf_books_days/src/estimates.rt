//! The estimates of the adoptions that are dated through a day.

ghost use Rattle.std.specs.Prelude.{◌≡◌, ◌<◌, ◌^◌, map, IfOk};
ghost use Rattle.cf_model.specs.Estimates as model;
ghost use Rattle.cf_books_days.specs.Adoptions as spec;

use crate::days::is_through;
use cf_base::Day;
use cf_calls::acts::Adoption;
use cf_calls::items::SourceAmount;
use cf_calls::{Act, Entry};
use std::alloc::{AllocError, Global};

/// The amount that these rows name for a source.
fn estimate_for(rows: &[SourceAmount], source: u16) -> u64
    ensures { result ≡ model.estimate_for source rows.now }
{
    for row in rows {
        if row.source == source {
            return row.amount;
        }
    }
    0
}

/// What an adoption estimates of a source for a fiscal year.
fn estimate_in(adoption: &Adoption, source: u16, year: u16) -> u64
    ensures { result ≡ spec.estimate_in source year adoption.now }
{
    if adoption.year == year {
        estimate_for(adoption.estimates.as_slice(), source)
    } else {
        0
    }
}

/// What an act estimates of a source for a fiscal year.
fn estimated_by(act: &Act, source: u16, year: u16) -> u64
    ensures { result ≡ model.estimated_by source year act.now }
{
    match act.adoption() {
        Some(adoption) => estimate_in(adoption, source, year),
        None => 0,
    }
}

/// Whether an entry adopts a budget and is dated through a day.
fn is_adoption_through(day: Day, entry: &Entry) -> bool
    ensures { result ≡ spec.is_adoption_through day entry.now }
{
    entry.change.act.adoption().is_some() && is_through(day, entry.change.on)
}

/// The adoptions that are dated through a day.
pub fn adoptions_through<'a>(
    alloc: Global,
    day: Day,
    entries: &'a [Entry],
) -> Result<Vec<&'a Entry>, AllocError>
    ensures { IfOk result (λ v. map (λ e. e.now) v.items ≡ spec.adoptions_through day entries.now) }
{
    let mut adoptions = Vec::new(alloc);
    for entry in entries {
        if is_adoption_through(day, entry) {
            adoptions.push(entry)?;
        }
    }
    Ok(adoptions)
}

/// What these entries estimate of a source for a fiscal year.
pub fn estimate_of(entries: &[&Entry], source: u16, year: u16) -> u64
    requires { model.estimate source year (map (λ e. e.now) entries.now) < 2 ^ 64 }
    ensures { result ≡ model.estimate source year (map (λ e. e.now) entries.now) }
{
    let mut sum = 0;
    for entry in entries {
        sum += estimated_by(&entry.change.act, source, year);
    }
    sum
}
