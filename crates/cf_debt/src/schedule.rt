//! The payments of bonds.

ghost use Rattle.std.specs.Prelude.{◌≡◌, ◌≤◌, ◌<◌, ◌+◌, ◌*◌, ◌++◌, length, option_map, vec_len, IfSome};
ghost use Rattle.std.specs.Vec.{vec_capacity};
ghost use Rattle.cf_debt.specs.Rows.{AreSmallDues, IsBond, IsSmallDue, view_bond, view_payment, view_payments};
ghost use Rattle.cf_model.specs.Common.{dues_from, next_due};

use crate::rows::{BondRow, Payment};

/// Appends the payments of a bond of this month and amount, within the room that was reserved.
pub fn add_schedule(
    payments: &mut Vec<Payment>,
    every: u16,
    month: u16,
    amount: u64,
    principals: &[u64],
)
    requires room { vec_len payments.old + length principals.now ≤ vec_capacity payments.old }
    requires within { month + every * length principals.now ≤ 2759 }
    ensures { view_payments payments.new.items
        ≡ view_payments payments.old.items ++ dues_from every month amount principals.now }
{
    let mut from = month;
    let mut owed = amount;
    for principal in principals {
        let payment = Payment {
            from,
            month: from + every,
            owed,
            principal: *principal,
        };
        payments.push_reserved(payment);
        from = payment.month;
        owed = owed.saturating_sub(*principal);
    }
}

/// The next payment of a bond: `None` exactly where all are paid.
pub fn next_of(payments: &[Payment], bond: &BondRow) -> Option<Payment>
    requires small { AreSmallDues (view_payments payments.now) }
    requires bond { IsBond (view_payments payments.now) bond.now }
    ensures value { option_map view_payment result
        ≡ next_due (view_bond (view_payments payments.now) bond.now) }
    ensures small { IfSome result (λ p. IsSmallDue (view_payment p)) }
    ensures some { IfSome result (λ p. bond.now.paid < bond.now.count) }
    ensures month { IfSome result
        (λ p. p.month ≡ bond.now.month + bond.now.terms.every * (bond.now.paid + 1)) }
{
    if bond.paid < bond.count {
        Some(payments[bond.start + usize::from(bond.paid)])
    } else {
        None
    }
}
