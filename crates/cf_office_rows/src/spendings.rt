//! What debt payments, leave that is paid out and leases spend.

ghost use Rattle.std.specs.Prelude.{◌≡◌, ◌++◌, ◌∷◌, [], OnOk};
ghost use Rattle.cf_registers.specs.Numbered.{AreNumberedBonds};
ghost use Rattle.cf_model.specs.Common.{spending_move};
ghost use Rattle.cf_office_rows.specs.Entries as spec;
ghost use Rattle.cf_office_rows.specs.Rows.{kept, on_move};

use crate::rows::{LedgerRow, NOTHING, Origin, on_account, put};
use cf_calls::acts::{DebtPayment, LeaveAct, NewLease};
use cf_calls::items::AccountItem;
use cf_chart::Chart;
use cf_debt::Debt;
use std::alloc::AllocError;

/// Adds the row of an amount that an account spends in a fiscal year.
fn put_spent(
    out: &mut Vec<LedgerRow>,
    chart: &Chart,
    of: Origin,
    account: AccountItem,
    year: u16,
) -> Result<(), AllocError>
    ensures { OnOk result (out.new.items ≡ out.old.items
        ++ kept (on_move chart.now of (spending_move (record { account = account; year = year }))
        ∷ [])) }
{
    let mut by = NOTHING;
    by.spent = i128::from(account.amount);
    put(out, on_account(chart, of, account, year, by))
}

/// Adds the rows of a debt payment: its principal and its interest, in the fiscal year in which it
/// is due.
pub fn put_payment(
    out: &mut Vec<LedgerRow>,
    chart: &Chart,
    debt: &Debt,
    place: u64,
    number: u32,
    payment: &DebtPayment,
) -> Result<(), AllocError>
    requires { AreNumberedBonds debt.now.debts.bonds }
    ensures { OnOk result (out.new.items ≡ out.old.items
        ++ kept (spec.payment_rows chart.now debt.now.debts.bonds place number payment.now)) }
{
    let Some(due) = debt.due(chart, payment.bond) else {
        return Ok(());
    };
    let of = Origin {
        place,
        document: payment.bond,
        item: number,
    };
    let principal = AccountItem {
        fund: payment.fund,
        dept: payment.dept,
        object: payment.principal,
        amount: due.principal,
    };
    let interest = AccountItem {
        fund: payment.fund,
        dept: payment.dept,
        object: payment.interest,
        amount: due.interest,
    };
    put_spent(out, chart, of, principal, due.year)?;
    put_spent(out, chart, of, interest, due.year)
}

/// Adds the row of leave that is paid out in a fiscal year.
pub fn put_leave(
    out: &mut Vec<LedgerRow>,
    chart: &Chart,
    place: u64,
    year: u16,
    leave: &LeaveAct,
) -> Result<(), AllocError>
    ensures { OnOk result (out.new.items
        ≡ out.old.items ++ kept (spec.leave_rows chart.now place year leave.now)) }
{
    match leave {
        LeaveAct::Mature(leave) => {
            let of = Origin {
                place,
                document: 0,
                item: 0,
            };
            let account = AccountItem {
                fund: leave.fund,
                dept: leave.dept,
                object: leave.object,
                amount: leave.amount,
            };
            put_spent(out, chart, of, account, year)
        }
        LeaveAct::Earn(_) | LeaveAct::Use(_) => Ok(()),
    }
}

/// Adds the row of a lease by its bond, which is spent in the fiscal year in which it begins.
pub fn put_lease(
    out: &mut Vec<LedgerRow>,
    chart: &Chart,
    place: u64,
    bond: u32,
    year: u16,
    lease: &NewLease,
) -> Result<(), AllocError>
    ensures { OnOk result (out.new.items
        ≡ out.old.items ++ kept (spec.lease_rows chart.now place bond year lease.now)) }
{
    let of = Origin {
        place,
        document: bond,
        item: 0,
    };
    put_spent(out, chart, of, lease.account, year)
}
