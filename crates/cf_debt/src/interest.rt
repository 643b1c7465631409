//! The interest that bonds earn, by months of 30 days (own rule).

ghost use Rattle.std.specs.Prelude.{◌≡◌, ◌≤◌, ◌<◌, ◌+◌, ◌-◌, ◌*◌, ◌/◌, min};
ghost use Rattle.cf_debt.specs.Charges.{bond_of, running_charge};
ghost use Rattle.cf_debt.specs.Rows.{AreSmallDues, IsBond, view_bond, view_payment, view_payments};
ghost use Rattle.cf_model.specs.Bonds as spec;
ghost use Rattle.cf_base.specs.Common.{most_cents};

use crate::rows::{BondRow, Payment, RowTerms};

/// The interest of a principal for so many days, at a rate in basis points a year of 360 days, in
/// cents.
#[tactic(auto, using(crate::proofs::Earning::interest_fits, crate::proofs::Earning::interest_small))]
pub fn interest_for(owed: u64, rate_bp: u16, days: u64) -> u64
    requires owed { owed ≤ most_cents }
    requires rate { rate_bp ≤ 10000 }
    requires days { days ≤ 360 }
    ensures value { result ≡ owed * rate_bp * days / 3600000 }
    ensures small { result ≤ most_cents }
{
    (u128::from(owed) * u128::from(rate_bp) * u128::from(days) / 3_600_000) as u64
}

/// The days of a period by the end of the first so many months.
pub fn days_by(terms: RowTerms, from: u16, months: u16) -> u64
    requires { terms.every ≤ 12 }
    ensures value { result ≡ min (30 * terms.every) (30 * (months - from) + 1 - terms.day) }
    ensures small { result ≤ 360 }
{
    let whole = 30 * u64::from(terms.every);
    let begun = 30 * u64::from(months.saturating_sub(from)) + 1;
    begun.saturating_sub(u64::from(terms.day)).min(whole)
}

/// The interest of a payment's period by the end of the first so many months.
pub fn earned_by(terms: RowTerms, payment: &Payment, months: u16) -> u64
    requires every { terms.every ≤ 12 }
    requires rate { terms.rate_bp ≤ 10000 }
    requires owed { payment.now.owed ≤ most_cents }
    ensures value { result
        ≡ spec.interest_for (bond_of terms) (view_payment payment.now)
        (spec.days_by months (bond_of terms) (view_payment payment.now)) }
    ensures small { result ≤ most_cents }
{
    interest_for(
        payment.owed,
        terms.rate_bp,
        days_by(terms, payment.from, months),
    )
}

/// The interest of a payment's whole period.
pub fn coupon(terms: RowTerms, payment: &Payment) -> u64
    requires every { terms.every ≤ 12 }
    requires rate { terms.rate_bp ≤ 10000 }
    requires owed { payment.now.owed ≤ most_cents }
    ensures value { result ≡ spec.coupon (bond_of terms) (view_payment payment.now) }
    ensures small { result ≤ most_cents }
{
    interest_for(payment.owed, terms.rate_bp, 30 * u64::from(terms.every))
}

/// What the close of the next month charges of a bond, given its payments from the first on that
/// isn't due before that month.
fn charge_of(terms: RowTerms, running: &[Payment], closed: u16) -> u64
    requires every { terms.every ≤ 12 }
    requires rate { terms.rate_bp ≤ 10000 }
    requires small { AreSmallDues (view_payments running.now) }
    requires months { closed < 65535 }
    ensures value { result ≡ running_charge (bond_of terms) closed (view_payments running.now) }
    ensures small { result ≤ 2 * most_cents }
{
    if running.is_empty() {
        return 0;
    }
    let before = earned_by(terms, &running[0], closed);
    let after = earned_by(terms, &running[0], closed + 1);
    if running[0].month == closed && running.len() > 1 {
        after - before + earned_by(terms, &running[1], closed + 1)
    } else {
        after - before
    }
}

/// What the close of the next month charges of a bond, in cents.
pub fn bond_charge(payments: &[Payment], bond: &BondRow, closed: u16) -> u64
    requires small { AreSmallDues (view_payments payments.now) }
    requires bond { IsBond (view_payments payments.now) bond.now }
    requires months { closed < 65535 }
    ensures value { result
        ≡ spec.interest_charge closed (view_bond (view_payments payments.now) bond.now) }
    ensures small { result ≤ 2 * most_cents }
{
    let due_before = closed.saturating_sub(bond.month + 1) / bond.terms.every;
    let begun = usize::from(due_before.min(bond.count));
    let end = bond.start + usize::from(bond.count);
    charge_of(bond.terms, &payments[bond.start + begun..end], closed)
}
