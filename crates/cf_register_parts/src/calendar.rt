//! The fiscal years of days and of documents (GASB Codification 1700: the fiscal period).

ghost use Rattle.std.specs.Prelude.{◌≡◌, ◌≤◌, true};
ghost use Rattle.cf_base.specs.Common.{is_day, last_fiscal_year};
ghost use Rattle.cf_calls.specs.Common.{IsActInForm};
ghost use Rattle.cf_model.specs.Calendar as calendar;

use cf_base::{Day, Month, fiscal_year, month_of};
use cf_calls::Act;
use cf_calls::acts::Period;
use cf_chart::Chart;

/// Whether a day comes before another.
pub fn is_before(a: Day, b: Day) -> bool
    ensures { result ≡ calendar.is_before a b }
{
    a.year < b.year
        || (a.year == b.year && (a.month < b.month || (a.month == b.month && a.day < b.day)))
}

/// The fiscal year of a day.
pub fn year_of_day(chart: &Chart, on: Day) -> u16
    requires { is_day on ≡ true }
    ensures value { result ≡ calendar.year_of_day chart.now on }
    ensures from { 1970 ≤ result }
    ensures within { result ≤ last_fiscal_year }
{
    fiscal_year(chart.first_month(), month_of(on))
}

/// The fiscal year of an act's document: that of its day, and for a voucher of the year just ended
/// the one before.
pub fn document_year(chart: &Chart, on: Day, act: &Act) -> u16
    requires { is_day on ≡ true }
    ensures value { result ≡ calendar.document_year chart.now on act.now }
    ensures within { result ≤ last_fiscal_year }
{
    let year = year_of_day(chart, on);
    if act.is_back() { year - 1 } else { year }
}

/// Whether a month ends fiscal years that begin with `first_month`.
fn is_last_month(first_month: u8, month: &Month) -> bool
    ensures { result ≡ calendar.is_last_month first_month month.now }
{
    if first_month == 1 {
        month.month == 12
    } else {
        u16::from(month.month) + 1 == u16::from(first_month)
    }
}

/// The fiscal year that an act rolls: that whose last month it closes.
pub fn rolled_year(chart: &Chart, on: Day, act: &Act) -> Option<u16>
    requires { IsActInForm on act.now }
    ensures { result ≡ calendar.rolled_year chart.now act.now }
{
    match act {
        Act::Close(Period::Month(month)) => {
            let first_month = chart.first_month();
            if is_last_month(first_month, month) {
                Some(fiscal_year(first_month, *month))
            } else {
                None
            }
        }
        Act::Adopt(_)
        | Act::Amend(_)
        | Act::Transfer(_)
        | Act::Requisition(_)
        | Act::Withdraw(_)
        | Act::Order(_)
        | Act::ChangeOrder(_)
        | Act::CancelOrder(_)
        | Act::Voucher(_)
        | Act::VoidVoucher(_)
        | Act::Pay(_)
        | Act::Bill(_)
        | Act::Collect(_)
        | Act::Receive(_)
        | Act::WriteOff(_)
        | Act::Asset(_)
        | Act::Issue(_)
        | Act::PayDue(_)
        | Act::Leave(_)
        | Act::Interfund(_)
        | Act::Close(Period::Year(_))
        | Act::Lease(_) => None,
    }
}
