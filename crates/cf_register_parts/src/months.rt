//! Months by number, from the first month of the chart's first fiscal year.

ghost use Rattle.std.specs.Prelude.{◌≡◌, ◌≤◌, ◌+◌, ◌-◌, ℕ, nat_lt, true};
ghost use Rattle.cf_calls.specs.Common.{IsCallMonth, month_number};
ghost use Rattle.cf_base.specs.Common.{is_day, last_fiscal_year, last_year};
ghost use Rattle.cf_model.specs.Months as spec;
ghost use Rattle.cf_model.specs.Common.{month_at as spec_month_at};

use cf_base::{Day, Month};
use cf_chart::Chart;

/// The first month of the chart's first fiscal year, counted from the year 0.
fn start_month(chart: &Chart) -> u16
    ensures value { result ≡ spec.start_month chart.now }
    ensures from { 23641 ≤ result }
    ensures to { result ≤ 25812 }
{
    let first = chart.first_month();
    let year = if first == 1 {
        chart.first_year()
    } else {
        chart.first_year() - 1
    };
    12 * year + u16::from(first)
}

/// How many months the month of a day comes after the chart's first.
pub fn number_of_day(chart: &Chart, on: Day) -> u16
    requires { is_day on ≡ true }
    ensures value { result ≡ spec.number_of_day chart.now on }
    ensures most { result ≤ 2759 }
    ensures later { (count : ℕ) → month_number on.year on.month + count ≤ month_number last_year 12
        → result + count ≤ 2759 }
{
    (12 * on.year + u16::from(on.month)).saturating_sub(start_month(chart))
}

/// How many months a month comes after the chart's first.
pub fn number_of_month(chart: &Chart, month: Month) -> u16
    requires { IsCallMonth month }
    ensures value { result ≡ spec.number_of chart.now month }
    ensures most { result ≤ 2759 }
    ensures named { (n : ℕ) → month ≡ spec_month_at chart.now n → result ≡ n }
{
    (12 * month.year + u16::from(month.month)).saturating_sub(start_month(chart))
}

/// Whether a month is closed where the first so many months of the chart are: it is one of these,
/// or before them.
pub fn is_month_closed(chart: &Chart, month: Month, closed: u16) -> bool
    ensures { result ≡ nat_lt (month_number month.year month.month)
        (spec.start_month chart.now + closed) }
{
    let number = 12 * u32::from(month.year) + u32::from(month.month);
    number < u32::from(start_month(chart)) + u32::from(closed)
}

/// The month of a number.
pub fn month_at(chart: &Chart, number: u16) -> Month
    requires { number ≤ 2760 }
    ensures { result ≡ spec_month_at chart.now number }
{
    let count = start_month(chart) - 1 + number;
    Month {
        year: count / 12,
        month: (count % 12 + 1) as u8,
    }
}

/// The fiscal year of the month of a number.
pub fn year_at(chart: &Chart, number: u16) -> u16
    requires { number ≤ 2760 }
    ensures { result ≡ spec.year_at chart.now number }
{
    chart.first_year() + number / 12
}

/// How many fiscal years of the chart there are up to a year.
pub fn years_to(chart: &Chart, year: u16) -> u16
    requires { year ≤ last_fiscal_year }
    ensures { result ≡ year + 1 - chart.now.first_year }
{
    (year + 1).saturating_sub(chart.first_year())
}
