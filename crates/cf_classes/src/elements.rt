//! The elements that major funds are told by (GASB Statement 34).
ghost use Rattle.std.specs.Prelude.{◌≡◌, ◌<◌, ◌≤◌, ◌^◌, ◌*◌, unsigned_abs};
ghost use Rattle.cf_calls.specs.Common.{IsYear};
ghost use Rattle.cf_classes.specs.Major as spec;
ghost use Rattle.cf_classes.specs.Major.{AreWithin};

use cf_chart::Fund;
use cf_statements::{Figures, difference, sum, total_expenditures, total_revenues};

/// A fund's assets, liabilities with deferred inflows, revenues and expenditures, in cents.
#[derive(Clone, Copy)]
pub struct Elements {
    pub assets: i128,
    pub liabilities: i128,
    pub revenues: i128,
    pub expenditures: i128,
}

/// What a fund has, and is owed, through the year.
fn assets<F: Figures>(figures: &F, year: u16, fund: u16) -> i128
    ensures value { result ≡ spec.assets (F.sums figures.now) year fund }
    ensures small { unsigned_abs result ≤ 3 * 2 ^ 104 }
{
    let receivables = figures.through(year, fund, 110_000);
    let due = sum(receivables, figures.through(year, fund, 120_000));
    sum(figures.through(year, fund, 100_000), due)
}

/// What a fund owes, with its unavailable revenue, through the year: its sign is turned.
fn liabilities<F: Figures>(figures: &F, year: u16, fund: u16) -> i128
    ensures value { result ≡ spec.liabilities (F.sums figures.now) year fund }
    ensures small { unsigned_abs result ≤ 4 * 2 ^ 104 }
{
    let vouchers = figures.through(year, fund, 200_000);
    let payable = sum(vouchers, figures.through(year, fund, 210_000));
    let loans = figures.through(year, fund, 220_000);
    let other = sum(loans, figures.through(year, fund, 290_000));
    difference(0, sum(payable, other))
}

/// The elements of a fund: assets and liabilities through the year, revenues and expenditures of
/// the year.
pub(crate) fn elements_of<F: Figures>(figures: &F, year: u16, fund: &Fund) -> Elements
    requires { IsYear year }
    ensures value { result
        ≡ spec.elements_of (F.plan figures.now) (F.sums figures.now) year fund.now }
    ensures small { AreWithin (2 ^ 114) result }
{
    let chart = figures.chart();
    Elements {
        assets: assets(figures, year, fund.id),
        liabilities: liabilities(figures, year, fund.id),
        revenues: total_revenues(figures, year, fund.id, chart.sources()),
        expenditures: total_expenditures(figures, year, fund.id, chart.functions()),
    }
}

/// Both together.
pub(crate) fn plus(one: Elements, other: Elements) -> Elements
    requires one { AreWithin (2 ^ 122) one }
    requires other { AreWithin (2 ^ 122) other }
    ensures { result ≡ spec.plus one other }
{
    Elements {
        assets: sum(one.assets, other.assets),
        liabilities: sum(one.liabilities, other.liabilities),
        revenues: sum(one.revenues, other.revenues),
        expenditures: sum(one.expenditures, other.expenditures),
    }
}

/// What one has more than the other.
pub(crate) fn less(one: Elements, other: Elements) -> Elements
    requires one { AreWithin (2 ^ 122) one }
    requires other { AreWithin (2 ^ 122) other }
    ensures { result ≡ spec.less one other }
{
    Elements {
        assets: difference(one.assets, other.assets),
        liabilities: difference(one.liabilities, other.liabilities),
        revenues: difference(one.revenues, other.revenues),
        expenditures: difference(one.expenditures, other.expenditures),
    }
}
