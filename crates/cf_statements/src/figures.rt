//! What statements read of an office.
ghost use Rattle.std.specs.Prelude.{◌≡◌, ◌<◌, ◌≤◌, ◌-◌, ◌^◌, ℕ, Bool, true, length, unsigned_abs};
ghost use Rattle.cf_calls.specs.Common.{IsYear};
ghost use Rattle.cf_chart.specs.Common.{Plan};
ghost use Rattle.cf_statements.specs.Sums as spec;
ghost use Rattle.cf_statements.specs.Sums.{Sums};

use cf_calls::LineNumbers;
use cf_chart::Chart;

/// The sums of a history that statements are made of, in cents. Each is far smaller than 128 bits
/// allow.
pub trait Figures {
    ghost plan: { Self → Plan };

    ghost sums: { Self → Sums };

    /// Whether the numbers of a line can be read.
    ghost lends: { Self → ℕ → Bool };

    /// The chart of the history.
    fn chart(&self) -> &Chart
        ensures { result.now ≡ plan self.now };

    /// The balance of a fund's account through the year, debits positive (modified accrual basis).
    fn through(&self, year: u16, fund: u16, account: u32) -> i128
        ensures value { result ≡ (sums self.now).through year fund account }
        ensures small { unsigned_abs result < 2 ^ 104 };

    /// The fund balance of a fund through the year.
    fn fund_balance(&self, year: u16, fund: u16) -> i128
        ensures value { result ≡ (sums self.now).fund_balance year fund };

    /// All fund balances through the year.
    fn total(&self, year: u16) -> i128
        requires { IsYear year }
        ensures value { result ≡ (sums self.now).total year };

    /// The balance of a government-wide account through the year, debits positive (accrual basis).
    fn gov(&self, year: u16, account: u32) -> i128
        ensures value { result ≡ (sums self.now).gov year account }
        ensures small { unsigned_abs result < 2 ^ 104 };

    /// The net position through the year.
    fn net_position(&self, year: u16) -> i128
        requires { IsYear year }
        ensures value { result ≡ (sums self.now).net_position year };

    /// The numbers of a control line in the year.
    fn numbers(&self, line: u16, year: u16) -> LineNumbers
        requires line { line < length (plan self.now).lines }
        requires year { year < 2201 }
        requires lent { lends self.now line ≡ true }
        ensures { result ≡ (sums self.now).numbers line year };

    /// The estimate of a revenue source for the year.
    fn estimate(&self, year: u16, source: u16) -> u64
        ensures { result ≡ (sums self.now).estimate year source };
}

/// What the posts of the year alone come to, of an account of a fund, in cents, debits positive.
pub fn in_year<F: Figures>(figures: &F, year: u16, fund: u16, account: u32) -> i128
    requires { 1 ≤ year }
    ensures value { result ≡ spec.in_year (F.sums figures.now) year fund account }
    ensures small { unsigned_abs result < 2 ^ 105 }
{
    figures.through(year, fund, account) - figures.through(year - 1, fund, account)
}

/// What the posts of the year alone come to, of a government-wide account.
pub(crate) fn gov_in<F: Figures>(figures: &F, year: u16, account: u32) -> i128
    requires { 1 ≤ year }
    ensures value { result ≡ spec.gov_in (F.sums figures.now) year account }
    ensures small { unsigned_abs result < 2 ^ 105 }
{
    figures.gov(year, account) - figures.gov(year - 1, account)
}
