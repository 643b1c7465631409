//! Which items of orders lapse at the roll of their fiscal year, and which go on.

ghost use Rattle.std.specs.Prelude.{◌≡◌, ◌≤◌};
ghost use Rattle.cf_base.specs.Common.{last_year};
ghost use Rattle.cf_orders.specs.RowRolls.{goes_on_row, lapses_row, rolls_row};

use crate::items::{is_going, open_row};
use crate::rows::ItemRow;
use cf_chart::Chart;
use cf_register_parts::{carries, has_line};

/// Whether an item lapses at its year's roll: nothing is open, its fund carries nothing, or its
/// account has no line in the year after.
pub fn lapses(chart: &Chart, row: &ItemRow) -> bool
    requires { row.now.year ≤ last_year }
    ensures { result ≡ lapses_row chart.now row.now }
{
    open_row(row) == 0
        || !(carries(chart, row.account.fund) && has_line(chart, row.account, row.year + 1))
}

/// Whether an item is live in a year.
pub fn rolls(year: u16, row: &ItemRow) -> bool
    ensures { result ≡ rolls_row year row.now }
{
    row.year == year && is_going(row)
}

/// Whether an item is live in a year and goes on in the year after.
pub fn goes_on(chart: &Chart, year: u16, row: &ItemRow) -> bool
    requires { year ≤ last_year }
    ensures { result ≡ goes_on_row chart.now year row.now }
{
    rolls(year, row) && !lapses(chart, row)
}
