//! What each act makes of bonds and leave.

ghost use Rattle.std.specs.Prelude.{◌≡◌, ◌≤◌, ◌<◌, ◌+◌, ◌∷◌, ◌++◌, ℕ, [], length, None, true, false, map, slice_index_or, slice_set};
ghost use Rattle.std.specs.Vec.{vec_capacity};
ghost use Rattle.cf_base.specs.Common.{is_day, last_fiscal_year, most_entries, most_cents};
ghost use Rattle.cf_calls.specs.Common.{IsCallMonth, IsTermsForm};
ghost use Rattle.cf_calls.specs.declared.acts.Act.TheVariants as act;
ghost use Rattle.cf_debt.specs.Register.{HasRoomToIssue, HasRoomForLeave, unpaid_of};
ghost use Rattle.cf_debt.specs.RegisterView.{live_of};
ghost use Rattle.cf_debt.specs.Rows.{view_leave};
ghost use Rattle.cf_debt.specs.Rows.{lease_part as spec_lease_part};
ghost use Rattle.cf_debt.specs.Steps.{AreNumbered, CanPay, bond_row, issue_of, paid_row};
ghost use Rattle.cf_debt.specs.declared.rows.BondRow.{BondRow as Row};
ghost use Rattle.cf_model.specs.Common.{bond_step, bonds_by, new_bond as spec_new_bond, leave_of, number_of_day, month_at, first_refusal};

use crate::debt::{Debt, interest_of, leave_key};
use crate::interest::coupon;
use crate::rows::{BondRow, LeaveRow, NewDebt, RowTerms};
use crate::schedule::add_schedule;
use cf_base::{Day, Month};
use cf_calls::acts::{BondIssue, DebtPayment, NewLease, Terms};
use cf_chart::Chart;
use cf_register_parts::{
    add_at, amount_at, number_of_day, number_of_month, put_in, raise, year_of_day,
};

impl Debt {
    /// Counts an act that is none of the register's own.
    pub(crate) fn count_act(&mut self)
        requires few { self.old.acts < most_entries }
        ensures debts { self.new.debts ≡ self.old.debts }
        ensures acts { self.new.acts ≡ self.old.acts + 1 }
    {
        self.acts += 1;
    }

    /// Enters bonds that are issued.
    pub(crate) fn enter_issue(&mut self, chart: &Chart, on: Day, number: u32, issue: &BondIssue)
        requires day { is_day on ≡ true }
        requires form { IsTermsForm on issue.now.amount issue.now.terms }
        requires number { number ≡ length self.old.debts.bonds + 1 }
        requires amount { issue.now.amount ≤ most_cents }
        requires early { self.old.debts.closed ≤ number_of_day chart.now on }
        requires room { HasRoomToIssue (length issue.now.terms.principals) self.old }
        requires few { self.old.acts < most_entries }
        ensures debts { self.new.debts ≡ record self.old.debts {
          bonds = self.old.debts.bonds
              ++ bonds_by chart.now on (act.Issue issue.now) (record { number = number; second = 0 });
        } }
        ensures acts { self.new.acts ≡ self.old.acts + 1 }
    {
        let debt = NewDebt {
            is_lease: false,
            fund: issue.fund,
            amount: issue.amount,
        };
        self.enter_debt(chart, on, number, debt, &issue.terms);
    }

    /// Enters what is owed for a lease (GASB Statement 87).
    pub(crate) fn enter_lease(&mut self, chart: &Chart, on: Day, number: u32, lease: &NewLease)
        requires day { is_day on ≡ true }
        requires form { IsTermsForm on lease.now.account.amount lease.now.terms }
        requires number { number ≡ length self.old.debts.bonds + 1 }
        requires amount { lease.now.account.amount ≤ most_cents }
        requires early { self.old.debts.closed ≤ number_of_day chart.now on }
        requires room { HasRoomToIssue (length lease.now.terms.principals) self.old }
        requires few { self.old.acts < most_entries }
        ensures debts { self.new.debts ≡ record self.old.debts {
          bonds = self.old.debts.bonds
              ++ bonds_by chart.now on (act.Lease lease.now) (record { number = 0; second = number });
        } }
        ensures acts { self.new.acts ≡ self.old.acts + 1 }
    {
        let debt = NewDebt {
            is_lease: true,
            fund: lease.account.fund,
            amount: lease.account.amount,
        };
        self.enter_debt(chart, on, number, debt, &lease.terms);
    }

    /// Enters a bond or a lease with its payments.
    fn enter_debt(&mut self, chart: &Chart, on: Day, number: u32, debt: NewDebt, terms: &Terms)
        requires day { is_day on ≡ true }
        requires form { IsTermsForm on debt.amount terms.now }
        requires number { number ≡ length self.old.debts.bonds + 1 }
        requires amount { debt.amount ≤ most_cents }
        requires early { self.old.debts.closed ≤ number_of_day chart.now on }
        requires room { HasRoomToIssue (length terms.now.principals) self.old }
        requires few { self.old.acts < most_entries }
        ensures debts { self.new.debts ≡ record self.old.debts {
          bonds = self.old.debts.bonds
              ++ spec_new_bond chart.now on number debt.is_lease (issue_of debt terms.now) ∷ [];
        } }
        ensures acts { self.new.acts ≡ self.old.acts + 1 }
    {
        let row = new_bond(chart, on, number, debt, terms, self.payments.len());
        add_schedule(
            &mut self.payments,
            terms.every,
            row.month,
            row.amount,
            terms.principals.as_slice(),
        );
        self.bonds.push_reserved(row);
        self.live.push_reserved(number);
        let year = row.year - 1970;
        let leased = lease_part(debt.is_lease, debt.amount);
        add_at(&mut self.issued, year, u128::from(row.amount));
        add_at(&mut self.leased, year, leased);
        self.acts += 1;
    }

    /// Pays the next payment of a bond.
    pub(crate) fn pay(&mut self, debt_payment: &DebtPayment)
        requires left { CanPay debt_payment.now.bond self.old.debts }
        requires few { self.old.acts < most_entries }
        ensures debts { self.new.debts ≡ record self.old.debts {
          bonds = map (bond_step (act.PayDue debt_payment.now)) self.old.debts.bonds;
        } }
        ensures acts { self.new.acts ≡ self.old.acts + 1 }
    {
        let _ = &self.bonds;
        let place = debt_payment.bond as usize - 1;
        let row = self.bonds[place];
        let payment = self.payments[row.start + usize::from(row.paid)];
        let interest = coupon(row.terms, &payment);
        let year = payment.month / 12;
        let of_lease = lease_part(row.is_lease, payment.principal);
        add_at(&mut self.repaid, year, u128::from(payment.principal));
        add_at(&mut self.leases_repaid, year, of_lease);
        add_at(&mut self.coupons, year, u128::from(interest));
        count_payment(&mut self.bonds, place);
        self.acts += 1;
    }

    /// Closes the next month: charges its interest.
    pub(crate) fn close_month(&mut self, chart: &Chart, month: Month)
        requires form { IsCallMonth month }
        requires next { month ≡ month_at chart.now self.old.debts.closed }
        requires paid { first_refusal
            (unpaid_of chart.now self.old.debts.closed) self.old.debts.bonds ≡ None }
        requires few { self.old.acts < most_entries }
        ensures debts { self.new.debts
            ≡ record self.old.debts { closed = self.old.debts.closed + 1 } }
        ensures acts { self.new.acts ≡ self.old.acts + 1 }
    {
        let number = number_of_month(chart, month);
        let interest = interest_of(&self.payments, &self.bonds, &self.live, self.closed);
        add_at(&mut self.charged, number / 12, interest);
        keep_live(&mut self.live, &self.bonds, number + 1);
        self.closed = number + 1;
        self.acts += 1;
    }

    /// Takes in leave that was earned.
    pub(crate) fn earn(&mut self, row: LeaveRow)
        requires earned { row.is_earned ≡ true }
        requires from { 1970 ≤ row.year }
        requires to { row.year ≤ last_fiscal_year }
        requires amount { row.amount ≤ most_cents }
        requires room { HasRoomForLeave row.fund row.dept self.old }
        requires few { self.old.acts < most_entries }
        ensures debts { self.new.debts
            ≡ record self.old.debts { leave = self.old.debts.leave ++ view_leave row ∷ [] } }
        ensures acts { self.new.acts ≡ self.old.acts + 1 }
    {
        let key = leave_key(row.fund, row.dept);
        let left = amount_at(&self.left, key) + row.amount;
        put_in(&mut self.left, key, left);
        raise(&mut self.earned, row.year, row.amount);
        self.leave.push_reserved(row);
        self.acts += 1;
    }

    /// Takes in leave that was used or paid.
    pub(crate) fn take(&mut self, row: LeaveRow)
        requires taken { row.is_earned ≡ false }
        requires from { 1970 ≤ row.year }
        requires to { row.year ≤ last_fiscal_year }
        requires left { row.amount ≤ leave_of row.fund row.dept self.old.debts.leave }
        requires amount { row.amount ≤ most_cents }
        requires room { HasRoomForLeave row.fund row.dept self.old }
        requires few { self.old.acts < most_entries }
        ensures debts { self.new.debts
            ≡ record self.old.debts { leave = self.old.debts.leave ++ view_leave row ∷ [] } }
        ensures acts { self.new.acts ≡ self.old.acts + 1 }
    {
        let key = leave_key(row.fund, row.dept);
        let left = amount_at(&self.left, key) - row.amount;
        put_in(&mut self.left, key, left);
        raise(&mut self.taken, row.year, row.amount);
        self.leave.push_reserved(row);
        self.acts += 1;
    }
}

/// The row of a new bond or lease, whose payments begin at a place.
fn new_bond(
    chart: &Chart,
    on: Day,
    number: u32,
    debt: NewDebt,
    terms: &Terms,
    start: usize,
) -> BondRow
    requires day { is_day on ≡ true }
    requires form { IsTermsForm on debt.amount terms.now }
    ensures row { result
        ≡ bond_row chart.now on number debt.is_lease (issue_of debt terms.now) start }
    ensures last { result.last ≤ 2759 }
{
    let month = number_of_day(chart, on);
    let count = terms.principals.as_slice().len() as u16;
    BondRow {
        number,
        is_lease: debt.is_lease,
        fund: debt.fund,
        amount: debt.amount,
        year: year_of_day(chart, on),
        month,
        terms: RowTerms {
            every: terms.every,
            day: on.day,
            rate_bp: terms.rate_bp,
        },
        start,
        count,
        last: month + terms.every * count,
        paid: 0,
    }
}

/// Counts a payment of the bond at a place.
fn count_payment(bonds: &mut Vec<BondRow>, place: usize)
    requires within { place < length bonds.old.items }
    requires fits { (d : Row) → (slice_index_or bonds.old.items place d).paid < 65535 }
    ensures { (d : Row)
        → bonds.new.items ≡ slice_set bonds.old.items place
        (paid_row (slice_index_or bonds.old.items place d)) }
{
    let mut row = bonds[place];
    row.paid += 1;
    bonds[place] = row;
}

/// Leaves the numbers of the bonds whose last payment is due in none of the first so many months.
fn keep_live(live: &mut Vec<u32>, bonds: &[BondRow], closed: u16)
    requires from { (was : ℕ) × (was ≤ closed) × (live.old.items ≡ live_of was bonds.now) }
    requires numbered { AreNumbered bonds.now }
    ensures items { live.new.items ≡ live_of closed bonds.now }
    ensures room { vec_capacity live.new ≡ vec_capacity live.old }
{
    let mut kept = 0;
    for k in 0..live.len() {
        let number = live[k];
        if closed <= bonds[number as usize - 1].last {
            live[kept] = number;
            kept += 1;
        }
    }
    live.truncate(kept);
}

/// An amount where it is of a lease, and else nothing.
fn lease_part(is_lease: bool, amount: u64) -> u128
    ensures { result ≡ spec_lease_part is_lease amount }
{
    if is_lease { u128::from(amount) } else { 0 }
}
