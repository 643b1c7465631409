//! What looks at bonds and at leave show.

ghost use Rattle.std.specs.Prelude.{◌≡◌, ◌≤◌, ◌*◌, length, sum_by, Ok};
ghost use Rattle.cf_debt.specs.Charges.{bond_of};
ghost use Rattle.cf_debt.specs.DebtNow.{debt_shown, show_bond};
ghost use Rattle.cf_debt.specs.Rows.{AreSmallDues, IsBond, view_bond, view_payments};
ghost use Rattle.cf_model.specs.Bonds as spec;
ghost use Rattle.cf_model.specs.Common.{bond_shown};
ghost use Rattle.cf_base.specs.Common.{most_cents};

use crate::debt::{Debt, due_day};
use crate::interest::{coupon, earned_by};
use crate::rows::{BondRow, Payment, RowTerms};
use crate::schedule::next_of;
use cf_calls::{Read, Shown};
use cf_chart::Chart;
use cf_register_parts::difference;
use std::alloc::{AllocError, Global};

impl Debt {
    /// What a look at a bond or at the leave of a fund's department shows: `None` exactly where
    /// there is no such bond, and at other looks. A look at a bond reads its own payments, at most
    /// 120. It takes no memory and never fails.
    pub fn look(
        &self,
        _alloc: Global,
        chart: &Chart,
        read: &Read,
    ) -> Result<Option<Shown>, AllocError>
        ensures { result ≡ Ok (debt_shown chart.now self.now.debts read.now) }
    {
        match read {
            Read::Bond { bond } => Ok(self.look_bond(chart, *bond)),
            Read::Leave { fund, dept } => Ok(Some(Shown::Leave {
                left: self.leave_of(*fund, *dept),
            })),
            Read::Line { .. }
            | Read::Requisition { .. }
            | Read::Order { .. }
            | Read::Voucher { .. }
            | Read::Bill { .. }
            | Read::Asset { .. }
            | Read::Account { .. }
            | Read::Reconcile { .. }
            | Read::Report { .. } => Ok(None),
        }
    }

    fn look_bond(&self, chart: &Chart, number: u32) -> Option<Shown>
        ensures { result ≡ bond_shown chart.now number self.now.debts.closed self.now.debts.bonds }
    {
        if number == 0 || number as usize > self.bonds.len() {
            return None;
        }
        let bond = &self.bonds[number as usize - 1];
        Some(shown_of(chart, &self.payments, bond, self.closed))
    }
}

fn shown_of(chart: &Chart, payments: &[Payment], bond: &BondRow, closed: u16) -> Shown
    requires small { AreSmallDues (view_payments payments.now) }
    requires bond { IsBond (view_payments payments.now) bond.now }
    ensures { result ≡ show_bond chart.now closed
        (view_bond (view_payments payments.now) bond.now) }
{
    let own = &payments[bond.start..bond.start + usize::from(bond.count)];
    let paid = &own[..usize::from(bond.paid)];
    let next = match next_of(payments, bond) {
        None => None,
        Some(payment) => Some(due_day(chart, bond, &payment)),
    };
    Shown::Bond {
        accrued: difference(
            earned_of(bond.terms, own, closed),
            coupons_of(bond.terms, paid),
        ),
        next,
        outstanding: bond.amount.saturating_sub(principal_of(paid)),
    }
}

/// The interest that payments have earned by the end of the first so many months.
fn earned_of(terms: RowTerms, payments: &[Payment], closed: u16) -> u128
    requires every { terms.every ≤ 12 }
    requires rate { terms.rate_bp ≤ 10000 }
    requires small { AreSmallDues (view_payments payments.now) }
    requires few { length payments.now ≤ 120 }
    ensures value { result
        ≡ sum_by (λ p. spec.interest_for (bond_of terms) p (spec.days_by closed (bond_of terms) p))
        (view_payments payments.now) }
    ensures small { result ≤ 120 * most_cents }
{
    let mut earned = 0;
    for payment in payments {
        earned += u128::from(earned_by(terms, payment, closed));
    }
    earned
}

/// The coupons of payments.
fn coupons_of(terms: RowTerms, payments: &[Payment]) -> u128
    requires every { terms.every ≤ 12 }
    requires rate { terms.rate_bp ≤ 10000 }
    requires small { AreSmallDues (view_payments payments.now) }
    requires few { length payments.now ≤ 120 }
    ensures value { result ≡ sum_by (spec.coupon (bond_of terms)) (view_payments payments.now) }
    ensures small { result ≤ 120 * most_cents }
{
    let mut coupons = 0;
    for payment in payments {
        coupons += u128::from(coupon(terms, payment));
    }
    coupons
}

/// The principal of payments.
fn principal_of(payments: &[Payment]) -> u64
    requires small { AreSmallDues (view_payments payments.now) }
    requires few { length payments.now ≤ 120 }
    ensures { result ≡ sum_by (λ p. p.principal) (view_payments payments.now) }
{
    let mut principal = 0;
    for payment in payments {
        principal += payment.principal;
    }
    principal
}
