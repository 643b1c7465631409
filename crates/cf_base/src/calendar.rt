//! Civil days and months, by `jiff`.

ghost use Rattle.std.specs.Prelude.{◌≡◌, ◌+◌, ◌-◌, ◌*◌, ◌<◌, ◌≤◌, ◌↔◌, true, IsSome, IfSome, pos, unsigned_abs, length};
ghost use Rattle.jiff.specs.Words.{IsBetween};
ghost use Rattle.cf_base.specs.Calendar.{is_day, is_digit, day_if, day_of_text, is_day_form, is_month_form, month_of_text, are_digits, pair_at, month_of_day, year_of_month, day_number, day_of_number};
ghost use Rattle.cf_base.specs.Calendar as spec;
ghost use Rattle.cf_base.specs.Limits.{last_fiscal_year, last_year};

use crate::limits::LAST_YEAR;
use jiff::civil::Date;
use jiff_core::civil::Date as CivilDate;

/// A civil date from 1970-01-01 to 2199-12-31.
#[derive(Clone, Copy, PartialEq, Eq)]
pub struct Day {
    pub year: u16,
    /// From 1 for January.
    pub month: u8,
    /// From 1.
    pub day: u8,
}

/// A month of a calendar year.
#[derive(Clone, Copy, PartialEq, Eq)]
pub struct Month {
    pub year: u16,
    /// From 1 for January.
    pub month: u8,
}

/// The number of 2199-12-31.
const LAST_DAY: i32 = 84_005;

impl Day {
    /// The day that comes so many days after 1970-01-01: `None` exactly outside 0 to 84,005, which
    /// is 2199-12-31.
    pub fn new(number: i32) -> Option<Day>
        ensures some { IsSome result ↔ IsBetween (pos 0) (pos 84005) number }
        ensures day { IfSome result (λ d. is_day d ≡ true) }
        ensures number { IfSome result (λ d. day_number d ≡ number) }
        ensures only { IfSome result (λ d. d ≡ day_of_number (unsigned_abs number)) }
    {
        if number < 0 || number > LAST_DAY {
            return None;
        }
        match CivilDate::from_unix_epoch_day(number as i64) {
            Ok(date) => Some(Day {
                year: date.year as u16,
                month: date.month,
                day: date.day,
            }),
            Err(_) => None,
        }
    }

    /// How many days the day comes after 1970-01-01.
    pub fn number(self) -> i32
        requires { is_day self ≡ true }
        ensures number { result ≡ day_number self }
        ensures range { IsBetween (pos 0) (pos 84005) result }
        ensures back { day_of_number (unsigned_abs result) ≡ self }
    {
        match CivilDate::new(self.year as i16, self.month as i8, self.day as i8) {
            Ok(date) => date.to_unix_epoch_day(),
            Err(_) => 0,
        }
    }
}

/// The month that holds a day.
pub fn month_of(day: Day) -> Month
    ensures { result ≡ month_of_day day }
{
    Month {
        year: day.year,
        month: day.month,
    }
}

/// The month that holds the day that comes so many days after 1970-01-01, 0 to 84,370, which is
/// 2200-12-31: a window of a year after 2199 ends there.
pub fn month_at(number: i32) -> Month
    requires { IsBetween (pos 0) (pos 84370) number }
    ensures { result ≡ month_of_day (day_of_number (unsigned_abs number)) }
{
    match CivilDate::from_unix_epoch_day(number as i64) {
        Ok(date) => Month {
            year: date.year as u16,
            month: date.month,
        },
        Err(_) => Month {
            year: 1970,
            month: 1,
        },
    }
}

/// The fiscal year of a month (GASB Codification 1700). Where fiscal years begin in January it is
/// the calendar year. Otherwise it is the calendar year for the months before `first_month` and the
/// one after for the others (own rule).
pub fn fiscal_year(first_month: u8, month: Month) -> u16
    requires { month.year ≤ last_fiscal_year }
    ensures { result ≡ year_of_month first_month month }
{
    if first_month == 1 || month.month < first_month {
        month.year
    } else {
        month.year + 1
    }
}

/// The day of this year, month and day of the month, if the calendar has it and the office knows
/// it.
fn day_at(year: u16, month: u8, day: u8) -> Option<Day>
    requires year { year < 10000 }
    requires month { month < 100 }
    requires day { day < 100 }
    ensures { result ≡ day_if (record { year = year; month = month; day = day }) }
{
    if 1970 <= year && year <= LAST_YEAR && is_civil(year, month, day) {
        Some(Day { year, month, day })
    } else {
        None
    }
}

/// Whether the calendar has the date.
fn is_civil(year: u16, month: u8, day: u8) -> bool
    requires year { 1970 ≤ year × year ≤ last_year }
    requires month { month < 100 }
    requires day { day < 100 }
    ensures { result ≡ is_day (record { year = year; month = month; day = day }) }
{
    Date::new(year as i16, month as i8, day as i8).is_ok()
}

fn is_ascii_digit(byte: u8) -> bool
    ensures { result ≡ is_digit byte }
{
    48 <= byte && byte <= 57
}

/// Whether two digits stand at a place.
fn has_digits(text: &[u8], at: usize) -> bool
    requires { at + 1 < length text.now }
    ensures { result ≡ are_digits text.now at }
{
    is_ascii_digit(text[at]) && is_ascii_digit(text[at + 1])
}

fn has_day_form(text: &[u8]) -> bool
    ensures { result ≡ is_day_form text.now }
{
    text.len() == 10
        && has_digits(text, 0)
        && has_digits(text, 2)
        && text[4] == b'-'
        && has_digits(text, 5)
        && text[7] == b'-'
        && has_digits(text, 8)
}

/// The number that two digits write.
fn digits_at(text: &[u8], at: usize) -> u8
    requires within { at + 1 < length text.now }
    requires digits { are_digits text.now at ≡ true }
    ensures value { result ≡ pair_at text.now at }
    ensures small { result < 100 }
{
    10 * (text[at] - 48) + (text[at + 1] - 48)
}

/// The day that a text of the form `YYYY-MM-DD` writes: `None` exactly where the text is none, or
/// its day isn't in the calendar or not from 1970-01-01 to 2199-12-31.
pub fn read_day(text: &[u8]) -> Option<Day>
    ensures { result ≡ day_of_text text.now }
{
    if !has_day_form(text) {
        return None;
    }
    let year = 100 * digits_at(text, 0) as u16 + digits_at(text, 2) as u16;
    day_at(year, digits_at(text, 5), digits_at(text, 8))
}

fn has_month_form(text: &[u8]) -> bool
    ensures { result ≡ is_month_form text.now }
{
    text.len() == 7
        && has_digits(text, 0)
        && has_digits(text, 2)
        && text[4] == b'-'
        && has_digits(text, 5)
}

/// The month that a text of the form `YYYY-MM` writes: `None` exactly where the text is none, or
/// its month isn't one of 12 or not from 1970-01 to 2199-12.
pub fn read_month(text: &[u8]) -> Option<Month>
    ensures { result ≡ month_of_text text.now }
{
    if !has_month_form(text) {
        return None;
    }
    let year = 100 * digits_at(text, 0) as u16 + digits_at(text, 2) as u16;
    let month = digits_at(text, 5);
    if 1970 <= year && year <= LAST_YEAR && 1 <= month && month <= 12 {
        Some(Month { year, month })
    } else {
        None
    }
}

/// The last digit of a number, in ASCII.
fn last_digit(n: u16) -> u8
    ensures { result ≡ spec.last_digit n }
{
    b'0' + (n % 10) as u8
}

/// The text of a day, `YYYY-MM-DD`.
pub fn day_text(day: Day) -> [u8; 10]
    ensures { result ≡ spec.day_text day }
{
    let month = u16::from(day.month);
    let date = u16::from(day.day);
    [
        last_digit(day.year / 1000),
        last_digit(day.year / 100),
        last_digit(day.year / 10),
        last_digit(day.year),
        b'-',
        last_digit(month / 10),
        last_digit(month),
        b'-',
        last_digit(date / 10),
        last_digit(date),
    ]
}

/// The text of a month, `YYYY-MM`.
pub fn month_text(month: Month) -> [u8; 7]
    ensures { result ≡ spec.month_text month }
{
    let number = u16::from(month.month);
    [
        last_digit(month.year / 1000),
        last_digit(month.year / 100),
        last_digit(month.year / 10),
        last_digit(month.year),
        b'-',
        last_digit(number / 10),
        last_digit(number),
    ]
}
