//! The sums of assets by fiscal year and by closed month.

ghost use Rattle.std.specs.Prelude.{◌≡◌, ◌≤◌, ◌*◌, ◌+◌, ◌-◌, sum_by};
ghost use Rattle.cf_base.specs.Common.{last_fiscal_year};
ghost use Rattle.cf_assets.specs.Inventory.{AreKept};
ghost use Rattle.cf_assets.specs.Years.{bought_in, given_in, let_in, book_in};
ghost use Rattle.cf_register_parts.specs.Years.{sum_to};
ghost use Rattle.cf_model.specs.Common.{depreciation};
ghost use Rattle.cf_register_parts.specs.Limits.{most_in_years, most_total};

use crate::inventory::{Inventory, accumulated_after};
use cf_register_parts::{amount_in, total_through};

/// What a fiscal year has, in cents.
#[derive(Clone, Copy)]
pub struct YearSums {
    pub bought: u128,
    pub given: u128,
    pub leased: u128,
    /// The book value of what was disposed of.
    pub gone: u128,
}

impl Inventory {
    /// What all assets were depreciated by over the first so many months, which are closed, in
    /// cents.
    pub fn accumulated_to(&self, months: u32) -> u128
        requires { months ≤ self.now.closed }
        ensures value { result ≡ sum_by (depreciation months) self.now.assets }
        ensures most { result ≤ most_total }
    {
        accumulated_after(&self.accumulated, months)
    }

    /// What a fiscal year has.
    pub fn year_sums(&self, year: u16) -> YearSums
        requires from { 1970 ≤ year }
        requires to { year ≤ last_fiscal_year }
        ensures bought { result.bought ≡ sum_by (bought_in year) self.now.assets }
        ensures given { result.given ≡ sum_by (given_in year) self.now.assets }
        ensures leased { result.leased ≡ sum_by (let_in year) self.now.assets }
        ensures gone { result.gone ≡ sum_by (book_in self.now.closed year) self.now.assets }
        ensures most_bought { result.bought ≤ most_total }
        ensures most_given { result.given ≤ most_total }
        ensures most_leased { result.leased ≤ most_total }
        ensures most_gone { result.gone ≤ most_total }
    {
        YearSums {
            bought: amount_in(&self.outlay, year),
            given: amount_in(&self.donated, year),
            leased: amount_in(&self.leased, year),
            gone: amount_in(&self.disposals, year),
        }
    }

    /// The cost of what was bought and given in the fiscal years up to a year, in cents.
    pub fn acquired_through(&self, year: u16) -> u128
        requires { year ≤ last_fiscal_year }
        ensures value { result
            ≡ sum_to (λ y. sum_by (bought_in y) self.now.assets) (year - 1969)
            + sum_to (λ y. sum_by (given_in y) self.now.assets) (year - 1969) }
        ensures most { result ≤ 2 * most_in_years }
        ensures first { AreKept self.now.assets }
    {
        total_through(&self.outlay, year) + total_through(&self.donated, year)
    }

    /// The cost of what was leased in the fiscal years up to a year, in cents.
    pub fn leased_through(&self, year: u16) -> u128
        requires { year ≤ last_fiscal_year }
        ensures value { result ≡ sum_to (λ y. sum_by (let_in y) self.now.assets) (year - 1969) }
        ensures most { result ≤ most_in_years }
        ensures first { AreKept self.now.assets }
    {
        total_through(&self.leased, year)
    }

    /// The book value of what was disposed of in the fiscal years up to a year, in cents.
    pub fn gone_through(&self, year: u16) -> u128
        requires { year ≤ last_fiscal_year }
        ensures value { result
            ≡ sum_to (λ y. sum_by (book_in self.now.closed y) self.now.assets) (year - 1969) }
        ensures most { result ≤ most_in_years }
    {
        total_through(&self.disposals, year)
    }
}
