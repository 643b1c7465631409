//! Capital assets and right-to-use assets in the reconciliation of fund balances and net position
//! (GASB Statements 34 and 87).

ghost use Rattle.std.specs.Prelude.{◌≡◌, ◌≤◌, sum_by};
ghost use Rattle.std.specs.List.{AllByRecursion};
ghost use Rattle.cf_base.specs.Common.{last_fiscal_year};
ghost use Rattle.cf_assets.specs.Changes.{asset_changes};
ghost use Rattle.cf_calls.specs.Common.{IsYear};
ghost use Rattle.cf_model.specs.Assets as spec;
ghost use Rattle.cf_model.specs.Common.{depreciation, closed_to, int_sum};
ghost use Rattle.cf_model.proofs.Common.{IsSoundAsset};
ghost use Rattle.cf_register_parts.specs.Limits.{most_total};

use crate::assets::Assets;
use crate::inventory::accumulated_after;
use cf_chart::Chart;
use cf_register_parts::{difference, years_to};

/// The rows of assets in the change of a fiscal year, in cents, each as it is added.
#[derive(Clone, Copy)]
pub struct AssetChanges {
    pub outlay: i128,
    pub donated: i128,
    pub right_to_use: i128,
    pub depreciation: i128,
    pub amortization: i128,
    /// The book value of what was disposed of.
    pub disposals: i128,
}

impl Assets {
    /// Capital assets, net, through a fiscal year: what was acquired in years up to it and isn't
    /// void, and wasn't disposed of in one up to it, at cost less the depreciation of closed months
    /// of years up to it, in cents.
    pub fn net(&self, chart: &Chart, year: u16) -> i128
        requires year { IsYear year }
        requires sound { AllByRecursion (IsSoundAsset chart.now self.now.closed) self.now.assets }
        ensures { result ≡ int_sum (spec.net chart.now self.now.closed year)
            (spec.owned self.now.assets) }
    {
        let months = closed_through(chart, self.closed(), year);
        let acquired = self.inventory.acquired_through(year);
        let gone = self.inventory.gone_through(year);
        difference(acquired, gone + self.depreciated_to(months))
    }

    /// Right-to-use assets, net, through a fiscal year: what was leased in years up to it, at cost
    /// less the amortization of closed months of years up to it, in cents.
    pub fn right_to_use(&self, chart: &Chart, year: u16) -> i128
        requires year { IsYear year }
        requires sound { AllByRecursion (IsSoundAsset chart.now self.now.closed) self.now.assets }
        ensures { result ≡ int_sum (spec.net chart.now self.now.closed year)
            (spec.leased self.now.assets) }
    {
        let months = closed_through(chart, self.closed(), year);
        difference(
            self.inventory.leased_through(year),
            self.amortized_to(months),
        )
    }

    /// The depreciation of what the city owns over the first so many months, which are closed, in
    /// cents.
    fn depreciated_to(&self, months: u32) -> u128
        requires { months ≤ self.now.closed }
        ensures value { result ≡ sum_by (depreciation months) (spec.owned self.now.assets) }
        ensures most { result ≤ most_total }
    {
        self.inventory.accumulated_to(months) - self.amortized_to(months)
    }

    /// The amortization of what it leases over the first so many months, which are closed, in
    /// cents.
    fn amortized_to(&self, months: u32) -> u128
        requires { months ≤ self.now.closed }
        ensures value { result ≡ sum_by (depreciation months) (spec.leased self.now.assets) }
        ensures least { result ≤ sum_by (depreciation months) self.now.assets }
        ensures most { result ≤ most_total }
    {
        let _all = self.inventory.accumulated_to(months);
        accumulated_after(&self.amortized, months)
    }

    /// What a fiscal year changes.
    pub fn year_changes(&self, chart: &Chart, year: u16) -> AssetChanges
        requires { IsYear year }
        ensures { result ≡ asset_changes chart.now self.now.closed year self.now.assets }
    {
        let closed = self.closed();
        let sums = self.inventory.year_sums(year);
        let months = closed_through(chart, closed, year);
        let months_before = closed_through(chart, closed, year - 1);
        let depreciated = self.depreciated_to(months);
        let amortized = self.amortized_to(months);
        AssetChanges {
            outlay: difference(sums.bought, 0),
            donated: difference(sums.given, 0),
            right_to_use: difference(sums.leased, 0),
            depreciation: difference(self.depreciated_to(months_before), depreciated),
            amortization: difference(self.amortized_to(months_before), amortized),
            disposals: difference(0, sums.gone),
        }
    }
}

/// How many of the closed months are of fiscal years up to a year.
fn closed_through(chart: &Chart, closed: u32, year: u16) -> u32
    requires { year ≤ last_fiscal_year }
    ensures value { result ≡ closed_to chart.now closed year }
    ensures within { result ≤ closed }
    ensures first { 1971 ≤ chart.now.first_year }
{
    let _first = chart.first_year();
    closed.min(12 * u32::from(years_to(chart, year)))
}
