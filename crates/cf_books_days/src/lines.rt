//! The numbers of control lines through a day: sums of changes, which may come in any order of
//! days, so that a number may be below zero where one entry takes back what another, dated later,
//! entered before it.

ghost use Rattle.std.specs.Prelude.{◌≡◌, ◌-ℤ◌, ◌+ℤ◌, ℕ, IfOk, OnOk};
ghost use Rattle.std.specs.Int.{int_wrap, w128};
ghost use Rattle.cf_budget.specs.Tables.{room_of, row_plus, zero_row};
ghost use Rattle.cf_books_days.specs.Gathered.{changed_through};
ghost use Rattle.cf_books_days.specs.Lines as spec;
ghost use Rattle.cf_books_days.specs.Through.{held_row};

use crate::days::is_through;
use crate::gathered::DatedChange;
use cf_base::Day;
use cf_budget::{LineChange, Row, ZERO};
use cf_register_parts::{NumberPair, put_in, reserve_in, value_in};
use std::alloc::{AllocError, Global};
use std::collections::BTreeMap;

/// The numbers of each control line and fiscal year, each as 128 bits hold it.
#[derive(Drop)]
pub struct DayLines {
    rows: BTreeMap<NumberPair, Row>,
}

/// A sum as 128 bits hold it.
fn sum(a: i128, b: i128) -> i128
    ensures { result ≡ int_wrap w128 (a +ℤ b) }
{
    a.wrapping_add(b)
}

/// A difference as 128 bits hold it.
fn less(a: i128, b: i128) -> i128
    ensures { result ≡ int_wrap w128 (a -ℤ b) }
{
    a.wrapping_sub(b)
}

/// A row with the changes of another.
fn plus(row: &Row, by: &Row) -> Row
    ensures { result ≡ held_row (row_plus row.now by.now) }
{
    let mut changed = *row;
    changed.original = sum(row.original, by.original);
    changed.appropriated = sum(row.appropriated, by.appropriated);
    changed.held = sum(row.held, by.held);
    changed.encumbered = sum(row.encumbered, by.encumbered);
    changed.expended = sum(row.expended, by.expended);
    changed
}

/// What is left of the appropriation.
pub fn room(row: &Row) -> i128
    ensures { result ≡ int_wrap w128 (room_of row.now) }
{
    let asked = sum(row.held, row.encumbered);
    less(row.appropriated, sum(asked, row.expended))
}

impl DayLines {
    /// Every number is zero. It takes no memory.
    fn new(alloc: Global) -> DayLines
        ensures { (line year : ℕ) → spec.row_in result line year ≡ zero_row }
    {
        DayLines {
            rows: BTreeMap::new(alloc),
        }
    }

    /// The numbers of a line and year.
    pub fn row(&self, line: u16, year: u16) -> Row
        ensures { result ≡ spec.row_in self.now line year }
    {
        let pair = NumberPair {
            first: line,
            second: year,
        };
        value_in(&self.rows, pair).unwrap_or(ZERO)
    }

    /// Adds a change of a line and year.
    fn add(&mut self, change: &LineChange) -> Result<(), AllocError>
        ensures { OnOk result (spec.Adds self.old self.new change.now) }
    {
        let pair = NumberPair {
            first: change.line.number,
            second: change.year,
        };
        reserve_in(&mut self.rows, pair, ZERO)?;
        let row = self.row(change.line.number, change.year);
        put_in(&mut self.rows, pair, plus(&row, &change.by));
        Ok(())
    }
}

/// Adds a change that is dated through a day, and leaves out any other.
fn add_through(lines: &mut DayLines, day: Day, change: &DatedChange) -> Result<(), AllocError>
    ensures { OnOk result (spec.AddsThrough day lines.old lines.new change.now) }
{
    if is_through(day, change.on) {
        lines.add(&change.change)
    } else {
        Ok(())
    }
}

/// The numbers that the changes make which are dated through a day.
pub fn lines_through(
    alloc: Global,
    day: Day,
    changes: &[DatedChange],
) -> Result<DayLines, AllocError>
    ensures { IfOk result (λ l. (line year : ℕ) → held_row (spec.row_in l line year)
        ≡ held_row (changed_through day line year changes.now)) }
{
    let mut lines = DayLines::new(alloc);
    for change in changes {
        add_through(&mut lines, day, change)?;
    }
    Ok(lines)
}
