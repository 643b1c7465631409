//! The last day of a fiscal year, and windows of days after it.

ghost use Rattle.std.specs.Prelude.{◌≡◌, ◌≤◌, ◌+◌, true};
ghost use Rattle.cf_base.specs.Calendar.{is_day, month_of_day, next_day, year_of_month};
ghost use Rattle.cf_base.specs.Windows as spec;
ghost use Rattle.cf_base.specs.Limits.{last_year};

use crate::calendar::Day;
use jiff_core::civil::days_in_month;

/// The last day of a fiscal year, 1971 to 2199, where fiscal years begin with `first_month`, 1 to
/// 12.
pub fn year_end(first_month: u8, year: u16) -> Day
    requires first { 1 ≤ first_month }
    requires last { first_month ≤ 12 }
    requires from { 1971 ≤ year }
    requires to { year ≤ last_year }
    ensures value { result ≡ spec.year_end first_month year }
    ensures day { is_day result ≡ true }

    // It lies in the year, and the day after it in the next one.
    ensures within { year_of_month first_month (month_of_day result) ≡ year }
    ensures next { year_of_month first_month (month_of_day (next_day result)) ≡ year + 1 }
{
    let month = if first_month == 1 {
        12
    } else {
        first_month - 1
    };
    Day {
        year,
        month,
        day: days_in_month(year as i16, month),
    }
}

/// The number of the last day of a window of so many days after a year's last day. Day 0 is
/// 1970-01-01.
pub fn window_end(year_end: Day, days: u16) -> i32
    requires { is_day year_end ≡ true }
    ensures { result ≡ spec.window_end year_end days }
{
    year_end.number() + i32::from(days)
}

/// Whether a day comes after a year's last day, and at most so many days after it.
pub fn is_in_window(year_end: Day, days: u16, day: Day) -> bool
    requires last { is_day year_end ≡ true }
    requires day { is_day day ≡ true }
    ensures { result ≡ spec.is_in_window year_end days day }
{
    year_end.number() < day.number() && day.number() <= window_end(year_end, days)
}
