//! The items between the change in fund balances and the change in net position.

ghost use Rattle.std.specs.Prelude.{◌≡◌, ◌<◌, ◌^◌, ◌-ℤ◌, ◌-◌, unsigned_abs};
ghost use Rattle.cf_model.specs.Common.{Gov as OnGov, Registers};
ghost use Rattle.cf_calls.specs.declared.read.Basis.TheVariants.{Fund as OnFund};
ghost use Rattle.cf_calls.specs.Common.{IsYear};
ghost use Rattle.cf_ledger.specs.Books.{posts_of};
ghost use Rattle.cf_ledger.specs.Posts.{total};
ghost use Rattle.cf_recon.specs.Registers.{AreOf};
ghost use Rattle.cf_recon.specs.ChangeItems.{changes_between};

use cf_assets::Assets;
use cf_calls::Basis;
use cf_chart::Chart;
use cf_debt::Debt;
use cf_ledger::Ledger;
use cf_revenue::Revenue;

/// What joins the change in fund balances and the change in net position of a fiscal year (GASB
/// Statement 34: the summary reconciliation to the statement of activities), in cents, each signed
/// as it is added.
#[derive(Clone, Copy)]
pub struct Changes {
    pub fund_balances: i128,
    /// The cost of assets that vouchers of the year bought; a void voucher's don't count.
    pub capital_outlay: i128,
    /// The amounts of assets that were donated.
    pub donated: i128,
    /// The amounts of assets that were leased (GASB Statement 87).
    pub right_to_use: i128,
    /// Of the year's closed months: not above zero.
    pub depreciation: i128,
    /// Of leased assets, over the same months: not above zero.
    pub amortization: i128,
    /// The book value of assets that were disposed of: not above zero.
    pub disposals: i128,
    /// Bills of the levy year, less what was collected and written off in the year.
    pub unavailable: i128,
    /// Of bonds issued in the year: not above zero.
    pub proceeds: i128,
    /// Of leases that began in the year: not above zero.
    pub leases_issued: i128,
    /// The principal of paid payments that were due in the year.
    pub principal_paid: i128,
    pub accrued_interest: i128,
    pub leave: i128,
    pub net_position: i128,
}

/// The changes of a fiscal year from 1971 to 2199, in cents: that in fund balances of the fund
/// posts, that in net position of the government-wide posts, and each item of its own register's
/// sums by year. None is the difference of others. It takes no memory, and no longer with more
/// entries or for an earlier year.
pub fn change_items(
    chart: &Chart,
    ledger: &Ledger,
    assets: &Assets,
    revenue: &Revenue,
    debt: &Debt,
    year: u16,
) -> Changes
    requires { IsYear year }
    ensures { (s : Registers) → AreOf s assets.now revenue.now debt.now
        → result ≡ changes_between chart.now year s
        (total (posts_of ledger.now OnFund) year -ℤ total (posts_of ledger.now OnFund) (year - 1))
        (total (posts_of ledger.now OnGov) year -ℤ total (posts_of ledger.now OnGov) (year - 1)) }
{
    let capital = assets.year_changes(chart, year);
    let bonds = debt.year_changes(chart, year);
    Changes {
        fund_balances: ledger.change(Basis::Fund, year),
        capital_outlay: capital.outlay,
        donated: capital.donated,
        right_to_use: capital.right_to_use,
        depreciation: capital.depreciation,
        amortization: capital.amortization,
        disposals: capital.disposals,
        unavailable: revenue.unavailable_change(year),
        proceeds: bonds.proceeds,
        leases_issued: bonds.leases_issued,
        principal_paid: bonds.principal_paid,
        accrued_interest: less(debt.accrued(chart, year - 1), debt.accrued(chart, year)),
        leave: less(debt.leave_left(year - 1), debt.leave_left(year)),
        net_position: ledger.change(Basis::Gov, year),
    }
}

/// What a liability was, less what it is.
fn less(was: i128, is: i128) -> i128
    requires was { unsigned_abs was < 2 ^ 100 }
    requires is { unsigned_abs is < 2 ^ 100 }
    ensures { result ≡ was -ℤ is }
{
    was - is
}
