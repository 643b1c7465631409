//! The register of bonds and of leave.

ghost use Rattle.std.specs.Prelude.{◌≡◌, ◌<◌, ◌≤◌, List, length, sum_by, is_some, MatchOption, None};
ghost use Rattle.cf_base.specs.Common.{most_entries};
ghost use Rattle.cf_debt.specs.Register.{debt_draws, debts_of, due_now};
ghost use Rattle.cf_debt.specs.Register.{due_of as spec_due_of};
ghost use Rattle.cf_debt.specs.RegisterView.{HasBonds, most_interest};
ghost use Rattle.cf_debt.specs.Rows.{IsSmallDue, view_bond, view_bonds, view_payment, view_payments};
ghost use Rattle.cf_model.specs.Common.{leave_of, Due as Dues, interest_charge, due_day as spec_due_day, no_registers, bond_at, payment_number};
ghost use Rattle.cf_debt.specs.Steps.{ShowsBond};

use crate::interest::{bond_charge, coupon};
use crate::rows::{BondRow, LeaveRow, Payment};
use crate::schedule::next_of;
use cf_base::Day;
use cf_calls::{Act, Drawn};
use cf_chart::Chart;
use cf_register_parts::{NumberPair, YEARS, amount_at, month_at, year_at};
use std::alloc::Global;
use std::collections::BTreeMap;
use std::marker::Model;

/// Bonds and leases with their payments, and the leave of departments' people. Bonds have the
/// numbers 1, 2, 3 ..; the leave left, the bonds with payments to come and the sums by fiscal year
/// are kept as they run.
#[derive(Drop)]
pub struct Debt {
    pub(crate) bonds: Vec<BondRow>,
    /// The payments of all bonds, bond by bond.
    pub(crate) payments: Vec<Payment>,
    /// The numbers of the bonds of which a payment is due in a month that isn't closed.
    pub(crate) live: Vec<u32>,
    pub(crate) leave: Vec<LeaveRow>,
    pub(crate) left: BTreeMap<NumberPair, u64>,
    /// How many months are closed.
    pub(crate) closed: u16,
    /// The amounts of bonds and of leases, by the fiscal year of their issue, from 1970.
    pub(crate) issued: [u128; YEARS],
    /// Those of leases alone.
    pub(crate) leased: [u128; YEARS],
    /// The principal of paid payments, by the fiscal year in which they were due, from the chart's
    /// first.
    pub(crate) repaid: [u128; YEARS],
    /// That of leases alone.
    pub(crate) leases_repaid: [u128; YEARS],
    /// The interest of paid payments, by the same year.
    pub(crate) coupons: [u128; YEARS],
    /// The interest charged, by the fiscal year of the closed month, from the chart's first.
    pub(crate) charged: [u128; YEARS],
    /// The leave earned, by the fiscal year of the day, from 1970.
    pub(crate) earned: [u128; YEARS],
    /// The leave used or paid, by the same year.
    pub(crate) taken: [u128; YEARS],
    pub(crate) acts: u32,
}

impl Model for Debt {
    ghost use Rattle.cf_debt.specs.Register.{Register};

    ghost Value = { Register };

    ghost use Rattle.cf_debt.specs.RegisterView.{register_of, IsSound};

    ghost view = { register_of };

    ghost invariant = { IsSound };
}

/// What is due next of a bond.
#[derive(Clone, Copy)]
pub struct Due {
    pub is_lease: bool,
    /// The payment's number, from 1.
    pub payment: u16,
    pub day: Day,
    /// The fiscal year of the day.
    pub year: u16,
    /// In cents.
    pub principal: u64,
    /// The coupon: the interest of the principal before the payment, in cents.
    pub interest: u64,
}

/// A bond as it stands, with its next payment.
#[derive(Clone, Copy)]
pub struct BondNow {
    pub row: BondRow,
    pub next: Option<Payment>,
}

impl Debt {
    /// A register with no bonds and no leave. It takes no memory.
    pub fn new(alloc: Global) -> Debt
        ensures debts { result.debts ≡ debts_of no_registers }
        ensures acts { result.acts ≡ 0 }
    {
        Debt {
            bonds: Vec::new(alloc),
            payments: Vec::new(alloc),
            live: Vec::new(alloc),
            leave: Vec::new(alloc),
            left: BTreeMap::new(alloc),
            closed: 0,
            issued: [0; YEARS],
            leased: [0; YEARS],
            repaid: [0; YEARS],
            leases_repaid: [0; YEARS],
            coupons: [0; YEARS],
            charged: [0; YEARS],
            earned: [0; YEARS],
            taken: [0; YEARS],
            acts: 0,
        }
    }

    /// How many months are closed, from the chart's first.
    pub fn closed(&self) -> u16
        ensures value { result ≡ self.now.debts.closed }
        ensures most { result ≤ 2760 }
    {
        self.closed
    }

    /// A bond as it stands: `None` exactly where there is no bond of this number.
    pub(crate) fn bond(&self, number: u32) -> Option<BondNow>
        ensures { MatchOption result (bond_at number self.now.debts.bonds ≡ None)
            (ShowsBond number self.now.debts) }
    {
        if number == 0 || number as usize > self.bonds.len() {
            return None;
        }
        let row = self.bonds[number as usize - 1];
        let next = next_of(&self.payments, &row);
        Some(BondNow { row, next })
    }

    /// Whether there is a bond of this number.
    pub fn has_bond(&self, bond: u32) -> bool
        ensures { result ≡ is_some (bond_at bond self.now.debts.bonds) }
    {
        self.bond(bond).is_some()
    }

    /// What is due next of a bond: `None` exactly where there is no bond of this number, or all its
    /// payments are paid.
    pub fn due(&self, chart: &Chart, bond: u32) -> Option<Due>
        ensures { result ≡ due_now chart.now (bond_at bond self.now.debts.bonds) }
    {
        match self.bond(bond) {
            None => None,
            Some(bond) => match bond.next {
                None => None,
                Some(payment) => Some(due_of(chart, &bond.row, &payment)),
            },
        }
    }

    /// The interest that the close of the next month charges for all bonds, in cents: of each bond
    /// that has a payment to come.
    pub fn month_interest(&self) -> u128
        ensures value { result
            ≡ sum_by (interest_charge self.now.debts.closed) self.now.debts.bonds }
        ensures most { result ≤ most_interest }
    {
        interest_of(&self.payments, &self.bonds, &self.live, self.closed)
    }

    /// The leave left of a fund's department, in cents.
    pub fn leave_of(&self, fund: u16, dept: u16) -> u64
        ensures { result ≡ leave_of fund dept self.now.debts.leave }
    {
        amount_at(&self.left, leave_key(fund, dept))
    }

    /// The numbers that an act draws: the next bond's, from 1, which is a lease's second number, or
    /// that of the next payment of the bond that is paid, and 0 where nothing is left to pay.
    pub fn draws(&self, act: &Act) -> Drawn
        ensures { result ≡ debt_draws self.now.debts.bonds act.now }
    {
        match act {
            Act::Issue(_) => drawn(self.bonds.len() as u32 + 1, 0),
            Act::Lease(_) => drawn(0, self.bonds.len() as u32 + 1),
            Act::PayDue(payment) => drawn(self.payment_number(payment.bond), 0),
            Act::Adopt(_)
            | Act::Amend(_)
            | Act::Transfer(_)
            | Act::Requisition(_)
            | Act::Withdraw(_)
            | Act::Order(_)
            | Act::ChangeOrder(_)
            | Act::CancelOrder(_)
            | Act::Voucher(_)
            | Act::VoidVoucher(_)
            | Act::Pay(_)
            | Act::Bill(_)
            | Act::Collect(_)
            | Act::Receive(_)
            | Act::WriteOff(_)
            | Act::Asset(_)
            | Act::Leave(_)
            | Act::Interfund(_)
            | Act::Close(_) => drawn(0, 0),
        }
    }

    fn payment_number(&self, bond: u32) -> u32
        ensures { result ≡ payment_number (bond_at bond self.now.debts.bonds) }
    {
        match self.bond(bond) {
            None => 0,
            Some(bond) => match bond.next {
                None => 0,
                Some(_) => u32::from(bond.row.paid) + 1,
            },
        }
    }
}

fn drawn(number: u32, second: u32) -> Drawn
    ensures { result ≡ record { number = number; second = second } }
{
    Drawn { number, second }
}

/// What the leave left of a fund's department stands under.
pub(crate) fn leave_key(fund: u16, dept: u16) -> NumberPair
    ensures { result ≡ record { first = fund; second = dept } }
{
    NumberPair {
        first: fund,
        second: dept,
    }
}

/// The day on which a payment of a bond is due.
pub(crate) fn due_day(chart: &Chart, bond: &BondRow, payment: &Payment) -> Day
    requires { payment.now.month ≤ 2759 }
    ensures { (all : List Dues)
        → result ≡ spec_due_day chart.now (view_bond all bond.now) (view_payment payment.now) }
{
    let month = month_at(chart, payment.month);
    Day {
        year: month.year,
        month: month.month,
        day: bond.terms.day,
    }
}

fn due_of(chart: &Chart, bond: &BondRow, payment: &Payment) -> Due
    requires small { IsSmallDue (view_payment payment.now) }
    requires every { bond.now.terms.every ≤ 12 }
    requires rate { bond.now.terms.rate_bp ≤ 10000 }
    requires paid { bond.now.paid < 65535 }
    ensures { (all : List Dues)
        → result ≡ spec_due_of chart.now (view_bond all bond.now) (view_payment payment.now) }
{
    Due {
        is_lease: bond.is_lease,
        payment: bond.paid + 1,
        day: due_day(chart, bond, payment),
        year: year_at(chart, payment.month),
        principal: payment.principal,
        interest: coupon(bond.terms, payment),
    }
}

/// What the close of the next month charges for the live bonds.
pub(crate) fn interest_of(
    payments: &[Payment],
    bonds: &[BondRow],
    live: &[u32],
    closed: u16,
) -> u128
    requires bonds { HasBonds closed (view_payments payments.now) bonds.now live.now }
    requires few { length bonds.now ≤ most_entries }
    requires months { closed < 65535 }
    ensures value { result
        ≡ sum_by (interest_charge closed) (view_bonds (view_payments payments.now) bonds.now) }
    ensures most { result ≤ most_interest }
{
    let mut interest = 0;
    for number in live {
        let bond = &bonds[*number as usize - 1];
        interest += u128::from(bond_charge(payments, bond, closed));
    }
    interest
}
