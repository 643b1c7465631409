//! Amounts by fiscal year, one after another: those of the years from 1970 to 2200, or of a chart's
//! years from its first.

ghost use Rattle.std.specs.Prelude.{◌≡◌, ◌≤◌, ◌<◌, ◌+◌, ◌-◌, ◌^◌, ℕ, sum, set, slice_index_or, nat_lt, nat_le, if◌then◌else◌};
ghost use Rattle.cf_base.specs.Common.{last_fiscal_year};
ghost use Rattle.cf_register_parts.specs.Years as spec;
ghost use Rattle.cf_register_parts.specs.Years.{cell_of, with_cell, sum_of, sum_through};

/// How many fiscal years there are from 1970 to 2200.
pub const YEARS: usize = 231;

/// Nothing in each year.
pub fn no_years() -> [u128; YEARS]
    ensures { result ≡ spec.no_years }
{
    [0; YEARS]
}

/// Adds an amount to the year at a place, counted from 0.
pub fn add_at(cells: &mut [u128; YEARS], place: u16, amount: u128)
    requires within { place < 231 }
    requires fits { sum cells.old + amount < 2 ^ 128 }
    ensures cell { cells.new ≡ set cells.old place (slice_index_or cells.old place 0 + amount) }
    ensures years { (n : ℕ)
        → sum_of n cells.new ≡ sum_of n cells.old + (if nat_lt place n then amount else 0) }
    ensures total { sum cells.new ≡ sum cells.old + amount }
{
    cells[usize::from(place)] += amount;
}

/// Adds an amount to a year.
pub fn raise(cells: &mut [u128; YEARS], year: u16, amount: u64)
    requires from { 1970 ≤ year }
    requires to { year ≤ last_fiscal_year }
    requires fits { sum cells.old + amount < 2 ^ 128 }
    ensures cell { cells.new ≡ with_cell cells.old year (cell_of cells.old year + amount) }
    ensures through { (z : ℕ)
        → sum_through z cells.new
        ≡ sum_through z cells.old + (if nat_le year z then amount else 0) }
    ensures total { sum cells.new ≡ sum cells.old + amount }
{
    add_at(cells, year - 1970, u128::from(amount));
}

/// Takes an amount from a year.
pub fn lower(cells: &mut [u128; YEARS], year: u16, amount: u64)
    requires from { 1970 ≤ year }
    requires to { year ≤ last_fiscal_year }
    requires enough { amount ≤ cell_of cells.old year }
    ensures { cells.new ≡ with_cell cells.old year (cell_of cells.old year - amount) }
{
    cells[usize::from(year) - 1970] -= u128::from(amount);
}

/// The amount of a year.
pub fn amount_in(cells: &[u128; YEARS], year: u16) -> u128
    requires from { 1970 ≤ year }
    requires to { year ≤ last_fiscal_year }
    ensures { result ≡ cell_of cells.now year }
{
    cells[usize::from(year) - 1970]
}

fn total(cells: &[u128]) -> u128
    requires { sum cells.now < 2 ^ 128 }
    ensures { result ≡ sum cells.now }
{
    cells.iter().sum()
}

/// The sum of the first so many years.
pub fn total_of(cells: &[u128; YEARS], count: u16) -> u128
    requires { sum cells.now < 2 ^ 128 }
    ensures { result ≡ sum_of count cells.now }
{
    total(&cells[..usize::from(count).min(YEARS)])
}

/// The sum of the years up to a year.
pub fn total_through(cells: &[u128; YEARS], year: u16) -> u128
    requires { sum cells.now < 2 ^ 128 }
    ensures { result ≡ sum_through year cells.now }
{
    total_of(cells, year.saturating_sub(1969))
}
