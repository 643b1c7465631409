//! Rows of a cell for each fiscal year from 1970 to 2200.

ghost use Rattle.std.specs.Prelude.{◌≡◌, ◌<◌, ◌≤◌, ◌-◌, ℕ, length, take, pos, IfOk, FitsSigned};
ghost use Rattle.std.specs.Int.{w128};
ghost use Rattle.cf_ledger.specs.Years.{no_cells, cell_of, sum_of, sum_through, raised, CanRaise};

use std::alloc::{AllocError, Global};

const FIRST: u16 = 1970;

/// The years from 1970 to 2200.
pub const YEARS: usize = 231;

/// A cell for each year, all zero, in place.
pub fn no_cells() -> [i128; YEARS]
    ensures { result ≡ no_cells }
{
    [0; YEARS]
}

/// A cell for each year, all zero.
pub fn zeros(alloc: Global) -> Result<Vec<i128>, AllocError>
    ensures { IfOk result (λ v. v.items ≡ no_cells) }
{
    vec![in alloc; 0; YEARS]
}

fn count_through(cells: &[i128], year: u16) -> usize
    ensures within { result ≤ length cells.now }
    ensures all { take result cells.now ≡ take (year - 1969) cells.now }
{
    usize::from(year.saturating_sub(FIRST - 1)).min(cells.len())
}

/// The sum of the cells of the years up to this one.
pub fn sum_through(cells: &[i128], year: u16) -> i128
    requires { (n : ℕ) → FitsSigned w128 (sum_of n cells.now) }
    ensures { result ≡ sum_through cells.now year }
{
    let mut sum = 0;
    for cell in &cells[..count_through(cells, year)] {
        sum += *cell;
    }
    sum
}

/// The cell of a year; zero before the first year and after the last.
pub fn amount_in(cells: &[i128], year: u16) -> i128
    ensures before { year < 1970 → result ≡ pos 0 }
    ensures value { 1970 ≤ year → result ≡ cell_of cells.now year }
{
    if year < FIRST {
        return 0;
    }
    match cells.get(usize::from(year - FIRST)) {
        None => 0,
        Some(cell) => *cell,
    }
}

/// Adds an amount to the cell of a year.
pub fn raise(cells: &mut [i128], year: u16, amount: i128)
    requires { CanRaise cells.old year amount }
    ensures { cells.new ≡ raised cells.old year amount }
{
    cells[usize::from(year - FIRST)] += amount;
}
