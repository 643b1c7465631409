//! Changes of line numbers, merged by line and year before they are applied: what a call asks of a
//! line is a sum.

ghost use Rattle.std.specs.Prelude.{◌≡◌, ◌<◌, ◌≤◌, ◌+◌, ℕ, Bool, true, false, length, OnOk, IfSome, IfNone, set, get_or};
ghost use Rattle.std.specs.List.{All, list_all, list_any};
ghost use Rattle.cf_calls.specs.Common.{is_distinct};
ghost use Rattle.cf_budget.specs.Tables.{row_plus, has_line, has_row, AreHeld, KeepsRows, SameRows, SameStripes};
ghost use Rattle.cf_budget.specs.declared.changes.LineChange.{LineChange as Change};
ghost use Rattle.cf_budget.specs.Changes.{changes_at, same_place, added, IsPlaceOf, Adds, Applies, CanApply};

use crate::changed::plus;
use crate::lines::Lines;
use crate::row::{Row, ZERO};
use arrayvec::ArrayVec;
use cf_chart::LineId;
use std::alloc::AllocError;

/// A change of the numbers of a line and fiscal year.
#[derive(Clone, Copy)]
pub struct LineChange {
    pub line: LineId,
    pub year: u16,
    pub by: Row,
}

impl Default for LineChange {
    /// No change of the first line.
    fn default() -> LineChange {
        LineChange {
            line: LineId { number: 0 },
            year: 0,
            by: ZERO,
        }
    }
}

/// Reserves the lines and years of changes. No number changes.
pub fn reserve(lines: &mut Lines, changes: &[LineChange]) -> Result<(), AllocError>
    requires there { All (λ c. has_line lines.old c.line.number ≡ true) changes.now }
    ensures rows { OnOk result
        (All (λ c. has_row lines.new c.line.number c.year ≡ true) changes.now) }
    ensures same { SameRows lines.old lines.new }
    ensures stripes { SameStripes lines.old lines.new }
{
    for change in changes {
        lines.reserve(change.line, change.year)?;
    }
    Ok(())
}

/// Makes changes, each of which a row is reserved for. It takes no memory.
pub fn apply(lines: &mut Lines, changes: &[LineChange])
    requires { CanApply lines.old changes.now }
    ensures applied { Applies lines.old lines.new changes.now }
    ensures rows { KeepsRows lines.old lines.new }
    ensures stripes { SameStripes lines.old lines.new }
{
    for change in changes {
        lines.change(change.line, change.year, &change.by);
    }
}

/// Changes of at most 64 lines and years, which take no memory.
pub type MergedChanges = ArrayVec<LineChange, 64>;

/// Adds a change of a line and year to what is changed of them: there is one change a line and
/// year. It takes no memory.
pub fn merge(changes: &mut MergedChanges, change: &LineChange)
    requires apart { is_distinct same_place changes.old.items ≡ true }
    requires held { AreHeld
        (row_plus (changes_at changes.old.items change.now.line.number change.now.year)
        change.now.by) }
    requires room { length changes.old.items < 64 }
    ensures few { length changes.new.items ≤ length changes.old.items + 1 }
    ensures apart { is_distinct same_place changes.new.items ≡ true }
    ensures adds { Adds changes.old.items changes.new.items change.now.line.number change.now.year
        change.now.by }
    ensures places { (p : ℕ → ℕ → Bool) → p change.now.line.number change.now.year ≡ true →
        list_all (λ c. p c.line.number c.year) changes.old.items ≡ true
        → list_all (λ c. p c.line.number c.year) changes.new.items ≡ true }
{
    match place_of(changes.as_slice(), change) {
        Some(k) => add_at(changes.as_mut_slice(), k, &change.by),
        None => changes.push(*change),
    }
}

fn is_same_place(a: &LineChange, b: &LineChange) -> bool
    ensures { result ≡ same_place a.now b.now }
{
    a.line.number == b.line.number && a.year == b.year
}

/// Where a change of the same line and year stands.
fn place_of(changes: &[LineChange], change: &LineChange) -> Option<usize>
    ensures some { IfSome result (λ k. IsPlaceOf changes.now change.now k) }
    ensures none { IfNone result (list_any (same_place change.now) changes.now ≡ false) }
{
    for (k, other) in changes.iter().enumerate() {
        if is_same_place(change, other) {
            return Some(k);
        }
    }
    None
}

fn add_at(changes: &mut [LineChange], k: usize, by: &Row)
    requires within { k < length changes.old }
    requires held { (d : Change) → AreHeld (row_plus (get_or changes.old k d).by by.now) }
    ensures { (d : Change)
        → changes.new ≡ set changes.old k (added (get_or changes.old k d) by.now) }
{
    let mut change = changes[k];
    change.by = plus(&change.by, by);
    changes[k] = change;
}
