//! Rows of cells by a fund and an account.

ghost use Rattle.std.specs.Prelude.{◌≡◌, ℕ, true, FitsSigned, OnOk};
ghost use Rattle.std.specs.Int.{w128};
ghost use Rattle.cf_ledger.specs.Places.{cells_at, has_row, AreCounted, PutsCells, KeepsRows, SameRows, ReadsSame};
ghost use Rattle.cf_ledger.specs.Years.{sum_of, sum_through, raised, CanRaise};

use crate::years;
use std::alloc::{AllocError, Global};
use std::collections::BTreeMap;

/// An account of a fund.
#[derive(Clone, Copy, PartialEq, Eq, PartialOrd, Ord)]
pub struct Place {
    pub fund: u16,
    pub account: u32,
}

/// The sum of the cells of a place in the years up to this one; zero where it has no row.
pub fn sum_at(rows: &BTreeMap<Place, Vec<i128>>, place: Place, year: u16) -> i128
    requires { (n : ℕ) → FitsSigned w128
        (sum_of n (cells_at rows.now.entries place.fund place.account)) }
    ensures { result ≡ sum_through (cells_at rows.now.entries place.fund place.account) year }
{
    match rows.get(&place) {
        Some(cells) => years::sum_through(cells.as_slice(), year),
        None => 0,
    }
}

/// Makes a row of zeros for a place that has none, so that a later change takes no memory.
pub fn reserve_at(
    alloc: Global,
    rows: &mut BTreeMap<Place, Vec<i128>>,
    place: Place,
) -> Result<(), AllocError>
    requires counted { AreCounted rows.old.entries }
    ensures has { OnOk result (has_row rows.new.entries place.fund place.account ≡ true) }
    ensures keeps { KeepsRows rows.old.entries rows.new.entries }
    ensures same { ReadsSame rows.old.entries rows.new.entries }
    ensures counted { AreCounted rows.new.entries }
{
    if rows.contains_key(&place) {
        return Ok(());
    }
    let cells = years::zeros(alloc)?;
    rows.insert(place, cells)?;
    Ok(())
}

/// Adds an amount to the cell of a place and year. It takes no memory.
pub fn raise_at(rows: &mut BTreeMap<Place, Vec<i128>>, place: Place, year: u16, amount: i128)
    requires reserved { has_row rows.old.entries place.fund place.account ≡ true }
    requires fits { CanRaise (cells_at rows.old.entries place.fund place.account) year amount }
    ensures cells { PutsCells rows.old.entries rows.new.entries place.fund place.account
        (raised (cells_at rows.old.entries place.fund place.account) year amount) }
    ensures same { SameRows rows.old.entries rows.new.entries }
{
    if let Some(cells) = rows.get_mut(&place) {
        years::raise(cells.as_mut_slice(), year, amount);
    }
}
