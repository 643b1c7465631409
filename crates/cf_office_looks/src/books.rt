//! A history as statements read it.

ghost use Rattle.std.specs.Prelude.{◌≡◌, ◌<◌, ◌*◌, ◌^◌, ◌+ℤ◌, unsigned_abs};
ghost use Rattle.cf_budget.specs.Tables.{has_line};
ghost use Rattle.cf_model.specs.Common.{balance_of, sums_of};
ghost use Rattle.cf_model.specs.Report as spec;
ghost use Rattle.cf_office_looks.specs.Books.{assets_of, debts_of, liabilities_of};

use cf_calls::{Basis, LineNumbers};
use cf_chart::Chart;
use cf_office_history::History;
use cf_statements::Figures;

/// A history, lent to those who make statements of it.
#[derive(Drop)]
pub struct Books<'a> {
    history: &'a History<'a>,
}

impl<'a> Books<'a> {
    /// Lends a history to those who make statements of it.
    pub fn of(history: &'a History<'a>) -> Books<'a>
        ensures { result.history.now ≡ history.now }
    {
        Books { history }
    }
}

/// A balance of a legal history, which is far smaller than 128 bits allow.
fn balance(history: &History, basis: Basis, year: u16, fund: u16, account: u32) -> i128
    ensures value { result
        ≡ balance_of basis history.now.plan year fund account history.now.entries }
    ensures small { unsigned_abs result < 2 ^ 104 }
{
    // So that the proof knows that the history is legal, and how long it may be.
    let _chart = history.chart();
    let _len = history.len();
    history.balance(basis, year, fund, account)
}

/// What a fund has, and is owed, through a year.
fn fund_assets(history: &History, year: u16, fund: u16) -> i128
    ensures value { result ≡ assets_of history.now.plan year fund history.now.entries }
    ensures small { unsigned_abs result < 3 * 2 ^ 104 }
{
    balance(history, Basis::Fund, year, fund, 100_000)
        + balance(history, Basis::Fund, year, fund, 110_000)
        + balance(history, Basis::Fund, year, fund, 120_000)
}

/// What a fund owes through a year: usually below zero.
fn fund_debts(history: &History, year: u16, fund: u16) -> i128
    ensures value { result ≡ debts_of history.now.plan year fund history.now.entries }
    ensures small { unsigned_abs result < 3 * 2 ^ 104 }
{
    balance(history, Basis::Fund, year, fund, 200_000)
        + balance(history, Basis::Fund, year, fund, 210_000)
        + balance(history, Basis::Fund, year, fund, 220_000)
}

/// What a fund owes, and its unavailable revenue, through a year.
fn fund_liabilities(history: &History, year: u16, fund: u16) -> i128
    ensures value { result ≡ liabilities_of history.now.plan year fund history.now.entries }
    ensures small { unsigned_abs result < 4 * 2 ^ 104 }
{
    fund_debts(history, year, fund) + balance(history, Basis::Fund, year, fund, 290_000)
}

fn fund_sum(history: &History, year: u16, fund: u16) -> i128
    ensures { result ≡ assets_of history.now.plan year fund history.now.entries +ℤ liabilities_of
        history.now.plan year fund history.now.entries }
{
    fund_assets(history, year, fund) + fund_liabilities(history, year, fund)
}

/// The fund balance of a fund through a year: these accounts are all that it has below 300000.
fn fund_balance(history: &History, year: u16, fund: u16) -> i128
    ensures { result ≡ spec.fund_balance history.now.plan year fund history.now.entries }
{
    fund_sum(history, year, fund)
}

impl<'a> Figures for Books<'a> {
    ghost plan = { λ b. b.history.now.plan };

    ghost sums = { λ b. sums_of b.history.now.plan b.history.now.entries };

    ghost lends = { λ b. has_line b.history.now.lines };

    fn chart(&self) -> &Chart {
        self.history.chart()
    }

    fn through(&self, year: u16, fund: u16, account: u32) -> i128 {
        balance(self.history, Basis::Fund, year, fund, account)
    }

    fn fund_balance(&self, year: u16, fund: u16) -> i128 {
        fund_balance(self.history, year, fund)
    }

    fn total(&self, year: u16) -> i128 {
        self.history.recon(year).fund_balances
    }

    fn gov(&self, year: u16, account: u32) -> i128 {
        balance(self.history, Basis::Gov, year, 0, account)
    }

    fn net_position(&self, year: u16) -> i128 {
        self.history.recon(year).net_position
    }

    fn numbers(&self, line: u16, year: u16) -> LineNumbers {
        self.history.numbers(line, year)
    }

    fn estimate(&self, year: u16, source: u16) -> u64 {
        self.history.estimate(year, source)
    }
}
