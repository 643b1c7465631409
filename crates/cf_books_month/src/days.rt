//! The months that a month is told with.

ghost use Rattle.std.specs.Prelude.{◌≡◌, ◌≤◌, ◌+◌};
ghost use Rattle.cf_base.specs.Common.{last_year};
ghost use Rattle.cf_books_month.specs.Days as spec;

use cf_base::{Day, Month};
use jiff_core::civil::days_in_month;

/// The month before a month.
pub fn month_before(month: Month) -> Month
    requires year { 1 ≤ month.year }
    requires month { 1 ≤ month.month }
    ensures value { result ≡ spec.month_before month }
    ensures within { result.year ≤ month.year }
{
    if month.month == 1 {
        Month {
            year: month.year - 1,
            month: 12,
        }
    } else {
        Month {
            year: month.year,
            month: month.month - 1,
        }
    }
}

/// The same month of the calendar year before.
pub fn year_before(month: Month) -> Month
    requires { 1 ≤ month.year }
    ensures value { result ≡ spec.year_before month }
    ensures year { result.year + 1 ≡ month.year }
    ensures month { result.month ≡ month.month }
{
    Month {
        year: month.year - 1,
        month: month.month,
    }
}

/// The last day of a month.
pub fn last_day(month: Month) -> Day
    requires { month.year ≤ last_year }
    ensures { result ≡ spec.last_day month }
{
    Day {
        year: month.year,
        month: month.month,
        day: days_in_month(month.year as i16, month.month),
    }
}

/// The first day of a month.
pub fn first_day(month: Month) -> Day
    ensures { result ≡ spec.first_day month }
{
    Day {
        year: month.year,
        month: month.month,
        day: 1,
    }
}
