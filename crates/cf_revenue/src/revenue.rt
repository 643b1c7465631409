//! The register of bills and of loans between funds.

ghost use Rattle.std.specs.Prelude.{◌≡◌, ◌≤◌, true, option_map, MatchOption, None, Ok};
ghost use Rattle.cf_base.specs.Common.{is_day};
ghost use Rattle.cf_model.specs.Common.{bill_draws, deferred_in, no_receivables, bill_at};
ghost use Rattle.cf_model.specs.Receivables as spec;
ghost use Rattle.cf_revenue.specs.ReceivablesShown.{bill_now_at, receivable_shown};
ghost use Rattle.cf_revenue.specs.Steps.{ShowsBill};

use crate::recognition::revenue_year;
use crate::rows::{BillRow, LoanRow, SettlementRow};
use cf_base::Day;
use cf_calls::{Act, Drawn, Read, Shown};
use cf_chart::Chart;
use cf_register_parts::{NumberPair, YEARS, amount_at, difference, total_through, window_of};
use std::alloc::{AllocError, Global};
use std::collections::BTreeMap;
use std::marker::Model;

/// Bills with what is settled of them, and loans between funds. Bills have the numbers 1, 2, 3 ..;
/// what is left of each, what funds owe one another and the sums by fiscal year are kept as they
/// run.
#[derive(Drop)]
pub struct Revenue {
    pub(crate) bills: Vec<BillRow>,
    pub(crate) settlements: Vec<SettlementRow>,
    pub(crate) loans: Vec<LoanRow>,
    pub(crate) repayments: Vec<LoanRow>,
    pub(crate) owed: BTreeMap<NumberPair, u64>,
    /// The amounts of bills, by levy year.
    pub(crate) billed: [u128; YEARS],
    /// The amounts of settlements, by the year in which they count.
    pub(crate) settled: [u128; YEARS],
    pub(crate) acts: u32,
}

impl Model for Revenue {
    ghost use Rattle.cf_revenue.specs.Register.{Register};

    ghost Value = { Register };

    ghost use Rattle.cf_revenue.specs.RegisterView.{register_of, IsSound};

    ghost view = { register_of };

    ghost invariant = { IsSound };
}

/// A bill as it stands.
#[derive(Clone, Copy)]
pub struct BillNow {
    pub source: u16,
    pub levy_year: u16,
    /// The amount, less what was collected and written off, in cents.
    pub left: u64,
}

impl Revenue {
    /// A register with no bills and no loans. It takes no memory.
    pub fn new(alloc: Global) -> Revenue
        ensures receivables { result.receivables ≡ no_receivables }
        ensures acts { result.acts ≡ 0 }
    {
        Revenue {
            bills: Vec::new(alloc),
            settlements: Vec::new(alloc),
            loans: Vec::new(alloc),
            repayments: Vec::new(alloc),
            owed: BTreeMap::new(alloc),
            billed: [0; YEARS],
            settled: [0; YEARS],
            acts: 0,
        }
    }

    /// The row of a bill.
    pub(crate) fn row(&self, number: u32) -> Option<BillRow>
        ensures { MatchOption result (bill_at number self.now.receivables.bills ≡ None)
            (ShowsBill number self.now.receivables) }
    {
        if number == 0 || number as usize > self.bills.len() {
            return None;
        }
        Some(self.bills[number as usize - 1])
    }

    /// A bill as it stands: `None` exactly where there is no bill of this number.
    pub fn bill(&self, bill: u32) -> Option<BillNow>
        ensures { result ≡ bill_now_at self.now.receivables bill }
    {
        match self.row(bill) {
            None => None,
            Some(row) => Some(BillNow {
                source: row.source,
                levy_year: row.levy_year,
                left: row.left,
            }),
        }
    }

    /// The fiscal year that a collection of this day on a bill is revenue of: `None` exactly where
    /// there is no bill of this number.
    pub fn collected_year(&self, chart: &Chart, on: Day, bill: u32) -> Option<u16>
        requires { is_day on ≡ true }
        ensures { result ≡ option_map (spec.collected_year chart.now on)
            (bill_at bill self.now.receivables.bills) }
    {
        match self.row(bill) {
            None => None,
            Some(row) => {
                let window = window_of(chart, row.source);
                Some(revenue_year(window, chart.first_month(), row.levy_year, on))
            }
        }
    }

    /// What a debtor fund owes a creditor fund, in cents: what that one lent it, less what it
    /// repaid.
    pub fn owed(&self, debtor: u16, creditor: u16) -> u64
        ensures { result ≡ spec.owed self.now.receivables debtor creditor }
    {
        amount_at(&self.owed, owed_key(debtor, creditor))
    }

    /// Unavailable revenue through a fiscal year, in cents (GASB Statement 65: deferred inflows of
    /// resources).
    pub fn unavailable(&self, year: u16) -> i128
        ensures { result ≡ spec.unavailable self.now.receivables year }
    {
        let billed = total_through(&self.billed, year);
        let settled = total_through(&self.settled, year);
        difference(billed, settled)
    }

    /// The change of unavailable revenue in a fiscal year, in cents: the bills of that levy year,
    /// less what was collected and written off in it. It reads as much for an earlier year.
    pub fn unavailable_change(&self, year: u16) -> i128
        requires { 1 ≤ year }
        ensures { result ≡ deferred_in year self.now.receivables }
    {
        let billed = total_through(&self.billed, year);
        let billed_before = total_through(&self.billed, year - 1);
        let settled = total_through(&self.settled, year);
        let settled_before = total_through(&self.settled, year - 1);
        difference(billed + settled_before, settled + billed_before)
    }

    /// The numbers that an act draws: the next bill's, from 1.
    pub fn draws(&self, act: &Act) -> Drawn
        ensures { result ≡ bill_draws self.now.receivables act.now }
    {
        let number = match act {
            Act::Bill(_) => self.bills.len() as u32 + 1,
            Act::Adopt(_)
            | Act::Amend(_)
            | Act::Transfer(_)
            | Act::Requisition(_)
            | Act::Withdraw(_)
            | Act::Order(_)
            | Act::ChangeOrder(_)
            | Act::CancelOrder(_)
            | Act::Voucher(_)
            | Act::VoidVoucher(_)
            | Act::Pay(_)
            | Act::Collect(_)
            | Act::Receive(_)
            | Act::WriteOff(_)
            | Act::Asset(_)
            | Act::Issue(_)
            | Act::PayDue(_)
            | Act::Leave(_)
            | Act::Interfund(_)
            | Act::Close(_)
            | Act::Lease(_) => 0,
        };
        Drawn { number, second: 0 }
    }

    /// What a look at a bill shows: `None` exactly where there is no such bill, and at other looks.
    /// It takes no memory and never fails.
    pub fn look(
        &self,
        _alloc: Global,
        _chart: &Chart,
        read: &Read,
    ) -> Result<Option<Shown>, AllocError>
        ensures { result ≡ Ok (receivable_shown self.now.receivables read.now) }
    {
        match read {
            Read::Bill { bill } => Ok(self.look_bill(*bill)),
            Read::Line { .. }
            | Read::Requisition { .. }
            | Read::Order { .. }
            | Read::Voucher { .. }
            | Read::Asset { .. }
            | Read::Bond { .. }
            | Read::Leave { .. }
            | Read::Account { .. }
            | Read::Reconcile { .. }
            | Read::Report { .. } => Ok(None),
        }
    }

    fn look_bill(&self, number: u32) -> Option<Shown>
        ensures { result ≡ receivable_shown self.now.receivables (Read.Bill number) }
    {
        match self.bill(number) {
            None => None,
            Some(bill) => Some(Shown::Bill {
                left: bill.left,
                levy_year: bill.levy_year,
                source: bill.source,
            }),
        }
    }
}

/// What the amount that a debtor fund owes a creditor fund stands under.
pub(crate) fn owed_key(debtor: u16, creditor: u16) -> NumberPair
    ensures { result ≡ record { first = debtor; second = creditor } }
{
    NumberPair {
        first: debtor,
        second: creditor,
    }
}
