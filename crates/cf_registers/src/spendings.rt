//! What an act spends of control lines besides documents: a debt payment, in the fiscal year in
//! which it is due, leave that is paid out, and a lease.

ghost use Rattle.std.specs.Prelude.{◌≡◌, ◌≤◌, length, map, slice_get, option_map, IfSome, true};
ghost use Rattle.cf_base.specs.Common.{is_day};
ghost use Rattle.cf_model.specs.Common.{Day as OnDay, spendings_by};
ghost use Rattle.cf_model.specs.Moves as model;
ghost use Rattle.cf_orders.specs.Register.{line_move, IsSmall};
ghost use Rattle.cf_registers.specs.Numbered.{AreNumberedBonds};
ghost use Rattle.cf_registers.specs.Dues.{spent_now, paid_leave, leased};

use crate::registers::Registers;
use cf_base::Day;
use cf_calls::Act;
use cf_calls::acts::{DebtPayment, LeaveAct, LeaveMaturity, NewLease};
use cf_calls::items::AccountItem;
use cf_chart::Chart;
use cf_debt::Due;
use cf_orders::LineMove;
use cf_register_parts::year_of_day;

/// An amount is expended of its account's line in a fiscal year.
fn expend(account: AccountItem, year: u16) -> LineMove
    ensures value { result
        ≡ line_move (model.spending_move (record { account = account; year = year })) }
    ensures small { IsSmall result }
{
    LineMove {
        account,
        year,
        held: 0,
        encumbered: 0,
        expended: i128::from(account.amount),
    }
}

/// What a payment spends of an object's line.
fn pay(payment: &DebtPayment, due: &Due, object: u16, amount: u64) -> LineMove
    ensures value { result ≡ line_move (model.spending_move (record {
      account = record {
        fund = payment.now.fund;
        dept = payment.now.dept;
        object = object;
        amount = amount;
      };
      year = due.now.year;
    })) }
    ensures small { IsSmall result }
{
    let account = AccountItem {
        fund: payment.fund,
        dept: payment.dept,
        object,
        amount,
    };
    expend(account, due.year)
}

/// What a payment spends: its principal, and then its interest.
fn payment_at(payment: &DebtPayment, due: &Due, nth: usize) -> Option<LineMove>
    ensures value { result
        ≡ option_map line_move
        (slice_get (map model.spending_move (spent_now payment.now due.now)) nth) }
    ensures small { IfSome result IsSmall }
{
    match nth {
        0 => Some(pay(payment, due, payment.principal, due.principal)),
        1 => Some(pay(payment, due, payment.interest, due.interest)),
        _ => None,
    }
}

/// What leave that is paid out spends.
fn maturity_at(leave: &LeaveMaturity, year: u16, nth: usize) -> Option<LineMove>
    ensures value { result
        ≡ option_map line_move
        (slice_get (map model.spending_move (paid_leave leave.now year)) nth) }
    ensures small { IfSome result IsSmall }
{
    let account = AccountItem {
        fund: leave.fund,
        dept: leave.dept,
        object: leave.object,
        amount: leave.amount,
    };
    if nth == 0 {
        Some(expend(account, year))
    } else {
        None
    }
}

/// What a lease spends as it begins (GASB Statement 87: in a governmental fund it is an
/// expenditure).
fn lease_at(lease: &NewLease, year: u16, nth: usize) -> Option<LineMove>
    ensures value { result
        ≡ option_map line_move (slice_get (map model.spending_move (leased lease.now year)) nth) }
    ensures small { IfSome result IsSmall }
{
    if nth == 0 {
        Some(expend(lease.account, year))
    } else {
        None
    }
}

/// How many amounts an act spends besides documents.
pub fn spendings(chart: &Chart, registers: &Registers, act: &Act) -> usize
    requires { AreNumberedBonds registers.now.registers.bonds }
    ensures value { (on : OnDay)
        → result ≡ length (spendings_by chart.now registers.now.registers on act.now) }
    ensures few { result ≤ 2 }
{
    match act {
        Act::PayDue(payment) => match registers.debt().due(chart, payment.bond) {
            Some(_) => 2,
            None => 0,
        },
        Act::Leave(LeaveAct::Mature(_)) | Act::Lease(_) => 1,
        Act::Adopt(_)
        | Act::Amend(_)
        | Act::Transfer(_)
        | Act::Requisition(_)
        | Act::Withdraw(_)
        | Act::Order(_)
        | Act::ChangeOrder(_)
        | Act::CancelOrder(_)
        | Act::Voucher(_)
        | Act::VoidVoucher(_)
        | Act::Pay(_)
        | Act::Bill(_)
        | Act::Collect(_)
        | Act::Receive(_)
        | Act::WriteOff(_)
        | Act::Asset(_)
        | Act::Issue(_)
        | Act::Leave(LeaveAct::Earn(_) | LeaveAct::Use(_))
        | Act::Interfund(_)
        | Act::Close(_) => 0,
    }
}

/// What an act spends besides documents, at a place from 0. `None` past the last.
pub fn spending_at(
    chart: &Chart,
    registers: &Registers,
    on: Day,
    act: &Act,
    nth: usize,
) -> Option<LineMove>
    requires day { is_day on ≡ true }
    requires numbered { AreNumberedBonds registers.now.registers.bonds }
    ensures value { result
        ≡ option_map line_move
        (slice_get (map model.spending_move
        (spendings_by chart.now registers.now.registers on act.now)) nth) }
    ensures small { IfSome result IsSmall }
{
    match act {
        Act::PayDue(payment) => match registers.debt().due(chart, payment.bond) {
            Some(due) => payment_at(payment, &due, nth),
            None => None,
        },
        Act::Leave(LeaveAct::Mature(leave)) => maturity_at(leave, year_of_day(chart, on), nth),
        Act::Lease(lease) => lease_at(lease, year_of_day(chart, on), nth),
        Act::Adopt(_)
        | Act::Amend(_)
        | Act::Transfer(_)
        | Act::Requisition(_)
        | Act::Withdraw(_)
        | Act::Order(_)
        | Act::ChangeOrder(_)
        | Act::CancelOrder(_)
        | Act::Voucher(_)
        | Act::VoidVoucher(_)
        | Act::Pay(_)
        | Act::Bill(_)
        | Act::Collect(_)
        | Act::Receive(_)
        | Act::WriteOff(_)
        | Act::Asset(_)
        | Act::Issue(_)
        | Act::Leave(LeaveAct::Earn(_) | LeaveAct::Use(_))
        | Act::Interfund(_)
        | Act::Close(_) => None,
    }
}
