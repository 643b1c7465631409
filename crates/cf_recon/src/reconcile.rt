//! The items between fund balances and net position.

ghost use Rattle.std.specs.List.{AllByRecursion};
ghost use Rattle.std.specs.Prelude.{◌≡◌, ◌<◌, ◌^◌, ◌-ℤ◌, pos, unsigned_abs};
ghost use Rattle.cf_model.specs.Common.{Gov as OnGov, Registers, recon_between};
ghost use Rattle.cf_calls.specs.declared.read.Basis.TheVariants.{Fund as OnFund};
ghost use Rattle.cf_calls.specs.Common.{IsYear};
ghost use Rattle.cf_ledger.specs.Books.{posts_of};
ghost use Rattle.cf_ledger.specs.Posts.{total};
ghost use Rattle.cf_model.proofs.Common.{IsSoundAsset};
ghost use Rattle.cf_recon.specs.Registers.{AreOf};

use cf_assets::Assets;
use cf_calls::Basis;
use cf_calls::shown::ReconShown;
use cf_chart::Chart;
use cf_debt::Debt;
use cf_ledger::Ledger;
use cf_revenue::Revenue;

/// The reconciliation through a fiscal year from 1971 to 2199, in cents: fund balances of the fund
/// posts, net position of the government-wide posts, and each item of its own register's sums by
/// year, signed as it is added. None is the difference of others. It takes no memory, and no longer
/// with more entries or for an earlier year.
pub fn items(
    chart: &Chart,
    ledger: &Ledger,
    assets: &Assets,
    revenue: &Revenue,
    debt: &Debt,
    year: u16,
) -> ReconShown
    requires year { IsYear year }
    requires sound { AllByRecursion (IsSoundAsset chart.now assets.now.closed) assets.now.assets }
    ensures { (s : Registers) → AreOf s assets.now revenue.now debt.now
        → result ≡ recon_between chart.now year s
        (total (posts_of ledger.now OnFund) year) (total (posts_of ledger.now OnGov) year) }
{
    ReconShown {
        fund_balances: ledger.total(Basis::Fund, year),
        capital_assets: assets.net(chart, year),
        right_to_use: assets.right_to_use(chart, year),
        unavailable: revenue.unavailable(year),
        bonds: negative(debt.principal_left(chart, year)),
        leases: negative(debt.leases_left(chart, year)),
        accrued_interest: negative(debt.accrued(chart, year)),
        leave: negative(debt.leave_left(year)),
        net_position: ledger.total(Basis::Gov, year),
    }
}

/// A liability as it is added.
fn negative(amount: i128) -> i128
    requires { unsigned_abs amount < 2 ^ 100 }
    ensures { result ≡ pos 0 -ℤ amount }
{
    -amount
}
