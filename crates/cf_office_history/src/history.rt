//! A history whose line numbers are lent.

ghost use Rattle.std.specs.Prelude.{◌≡◌, ◌<◌, ◌≤◌, true, length};
ghost use Rattle.cf_base.specs.Common.{is_day, month_of_day, last_fiscal_year, most_entries};
ghost use Rattle.cf_budget.specs.Tables.{has_line};
ghost use Rattle.cf_calls.specs.Common.{IsYear};
ghost use Rattle.cf_debt.specs.Register.{debts_of};
ghost use Rattle.cf_model.proofs.Common.{IsWhole};
ghost use Rattle.cf_model.specs.Common.{is_month_closed, open_year, documents_of, estimate, balance_of, recon_shown, registers_of, adopted_at, IsLegal, known_at, is_same, entry_at};
ghost use Rattle.cf_model.specs.LineNumbers as numbers;
ghost use Rattle.cf_model.specs.Results as results;
ghost use Rattle.cf_recon.specs.ChangeItems.{changes_shown};
ghost use Rattle.cf_registers.specs.Moved.{AreTablesOf};

use crate::rest::Rest;
use cf_base::Day;
use cf_budget::Lines;
use cf_calls::shown::ReconShown;
use cf_calls::{Basis, Change, LineNumbers, Made};
use cf_chart::{Chart, LineId};
use cf_debt::Debt;
use cf_orders::Orders;
use cf_recon::Changes;
use cf_registers::Registers;
use cf_revenue::Revenue;
use std::marker::Model;

/// A legal history under a chart, as rules, looks and statements read it, with tables of its line
/// numbers: those that are there are lent.
#[derive(Drop)]
pub struct History<'a> {
    lines: &'a Lines,
    rest: &'a Rest,
}

impl<'a> Model for History<'a> {
    ghost use Rattle.cf_office_history.specs.HistoryState.{HistoryState};
    ghost use Rattle.cf_registers.specs.Moved.{AreTablesOf};

    ghost Value = { HistoryState };

    ghost view = { λ a.
        record { plan = a.rest.now.plan; entries = a.rest.now.entries; lines = a.lines.now } };

    ghost invariant = { λ a. AreTablesOf a.rest.now.plan a.rest.now.entries a.lines.now };
}

impl<'a> History<'a> {
    /// Lends the tables that are there to who reads the history.
    pub fn new(lines: &'a Lines, rest: &'a Rest) -> History<'a>
        requires { AreTablesOf rest.now.plan rest.now.entries lines.now }
        ensures { result ≡ record
            { plan = rest.now.plan; entries = rest.now.entries; lines = lines.now } }
    {
        History { lines, rest }
    }

    /// The chart, under which the history is legal.
    pub fn chart(&self) -> &'a Chart
        ensures value { result.now ≡ self.now.plan }
        ensures legal { IsLegal self.now.plan self.now.entries }
        ensures whole { IsWhole self.now.plan }
    {
        self.rest.chart()
    }

    /// The number of entries, at most 1,500,000.
    pub fn len(&self) -> u64
        ensures value { result ≡ length self.now.entries }
        ensures few { result ≤ most_entries }
    {
        self.rest.entries().len() as u64
    }

    /// The place, from 1, of the entry with this change's desk and key.
    pub fn known(&self, change: &Change) -> Option<u64>
        ensures { result ≡ known_at self.now.entries change.now }
    {
        self.rest.known(change)
    }

    /// Whether the entry at a place is of the same call.
    pub fn is_repeat(&self, change: &Change, place: u64) -> bool
        ensures { result ≡ is_same change.now (entry_at self.now.entries place) }
    {
        self.rest.is_repeat(change, place)
    }

    /// What the entry at a place made.
    pub fn made_at(&self, place: u64) -> Made
        ensures { result ≡ results.made_at self.now.plan self.now.entries place }
    {
        self.rest.made_at(place)
    }

    /// The place of the entry that adopted a fund's budget of a year.
    pub fn adopted(&self, fund: u16, year: u16) -> Option<u64>
        ensures { result ≡ adopted_at fund year self.now.entries }
    {
        self.rest.adopted(fund, year)
    }

    /// The registers that the entries make.
    pub fn registers(&self) -> &'a Registers
        ensures { result.now.registers ≡ registers_of self.now.plan self.now.entries }
    {
        self.rest.registers()
    }

    /// The requisitions, orders and vouchers, with their items.
    pub fn orders(&self) -> &'a Orders
        ensures { result.now.documents ≡ documents_of self.now.plan self.now.entries }
    {
        self.registers().orders()
    }

    /// The bills with what is settled of them, and the loans between funds.
    pub fn revenue(&self) -> &'a Revenue
        ensures { result.now.receivables
            ≡ (registers_of self.now.plan self.now.entries).receivables }
    {
        self.registers().revenue()
    }

    /// The bonds and leases with what is paid of them, and the leave that is left.
    pub fn debt(&self) -> &'a Debt
        ensures { result.now.debts ≡ debts_of (registers_of self.now.plan self.now.entries) }
    {
        self.registers().debt()
    }

    /// Whether the month of a day is closed.
    pub fn is_closed(&self, on: Day) -> bool
        requires { is_day on ≡ true }
        ensures { result ≡ is_month_closed self.now.plan self.now.entries (month_of_day on) }
    {
        self.rest.is_closed(on)
    }

    /// The first fiscal year that isn't closed.
    pub fn open_year(&self) -> u16
        ensures value { result ≡ open_year self.now.plan self.now.entries }
        ensures within { result ≤ last_fiscal_year }
    {
        self.rest.open_year()
    }

    /// The balance of an account of a fund through a fiscal year, on a basis of accounting, in
    /// cents; 0 for what was never posted to. Government-wide posts are of fund 0.
    pub fn balance(&self, basis: Basis, year: u16, fund: u16, account: u32) -> i128
        ensures { result ≡ balance_of basis self.now.plan year fund account self.now.entries }
    {
        self.rest.balance(basis, year, fund, account)
    }

    /// The items between fund balances and net position through a fiscal year from 1971 to 2199, in
    /// cents (GASB Statement 34).
    pub fn recon(&self, year: u16) -> ReconShown
        requires { IsYear year }
        ensures { result ≡ recon_shown self.now.plan year self.now.entries }
    {
        self.rest.recon(year)
    }

    /// The items between the changes of fund balances and of net position in a fiscal year from
    /// 1971 to 2199, in cents (GASB Statement 34).
    pub fn changes(&self, year: u16) -> Changes
        requires { IsYear year }
        ensures { result ≡ changes_shown self.now.plan year self.now.entries }
    {
        self.rest.changes(year)
    }

    /// The estimate of a revenue source for a fiscal year, in cents; 0 where none was adopted.
    pub fn estimate(&self, year: u16, source: u16) -> u64
        ensures { result ≡ estimate source year self.now.entries }
    {
        self.rest.estimate(year, source)
    }

    /// The numbers of a control line and fiscal year, in cents.
    pub fn numbers(&self, line: u16, year: u16) -> LineNumbers
        requires line { line < length self.now.plan.lines }
        requires year { year < 2201 }
        requires lent { has_line self.now.lines line ≡ true }
        ensures { result ≡ numbers.numbers self.now.plan line year self.now.entries }
    {
        self.lines.numbers(LineId { number: line }, year)
    }
}
