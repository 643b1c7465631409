//! The estimates of an adopted budget.

ghost use Rattle.std.specs.Prelude.{◌≡◌};
ghost use Rattle.cf_calls.specs.Common.{adoption_of};
ghost use Rattle.cf_model.specs.Common.{estimate_for};
ghost use Rattle.cf_office_history.specs.Estimates.{estimated_at, estimates_of};

use cf_calls::items::SourceAmount;
use cf_calls::{Act, Entry};

/// The amount that these rows name for a source.
fn estimate_for(rows: &[SourceAmount], source: u16) -> u64
    ensures { result ≡ estimate_for source rows.now }
{
    for row in rows {
        if row.source == source {
            return row.amount;
        }
    }
    0
}

/// What an act estimates of a source.
fn estimated_by(act: &Act, source: u16) -> u64
    ensures { result ≡ estimate_for source (estimates_of (adoption_of act.now)) }
{
    match act.adoption() {
        Some(adoption) => estimate_for(adoption.estimates.as_slice(), source),
        None => 0,
    }
}

/// What the entry at a place estimates of a source; the place is from 1.
pub(crate) fn estimated_at(entries: &[Entry], place: Option<u64>, source: u16) -> u64
    ensures { result ≡ estimated_at source entries.now place }
{
    let Some(place) = place else {
        return 0;
    };
    match entries.get(place.saturating_sub(1) as usize) {
        Some(entry) => estimated_by(&entry.change.act, source),
        None => 0,
    }
}
