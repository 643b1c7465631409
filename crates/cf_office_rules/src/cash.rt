//! The rule on cash.

ghost use Rattle.std.specs.Prelude.{◌≡◌, ◌<◌, ◌^◌, None, sum_by};
ghost use Rattle.cf_model.specs.Cash as cash;
ghost use Rattle.cf_model.specs.Common.{cash_short, fund_sum, documents_of, spent_by, cash_of, register_name_refusal, registers_of, name_refusal};

use cf_base::{Day, LAST_FISCAL_YEAR};
use cf_calls::acts::{DebtPayment, LeaveAct};
use cf_calls::{Act, Basis, Refusal};
use cf_office_history::History;
use cf_orders::Orders;
use cf_post::accounts::CASH;

/// More cash is taken of a fund than it has, over all years.
fn fund_cash_refusal(history: &History, fund: u16, taken: u128) -> Option<Refusal>
    requires { taken < 2 ^ 127 }
    ensures { result ≡ cash_short fund (cash_of history.now.plan fund history.now.entries) taken }
{
    if taken == 0 {
        return None;
    }
    let cash = history.balance(Basis::Fund, LAST_FISCAL_YEAR, fund, CASH);
    let asked = taken as i128;
    if cash < asked {
        Some(Refusal::CashShort { fund, cash, asked })
    } else {
        None
    }
}

/// What the payment of vouchers takes of a fund, in cents.
fn paid_of(orders: &Orders, fund: u16, vouchers: &[u32]) -> u128
    ensures value { result
        ≡ sum_by (λ n. fund_sum fund (spent_by n orders.now.documents.expenditures)) vouchers.now }
    ensures small { result < 2 ^ 127 }
{
    let mut taken = 0;
    for voucher in vouchers {
        taken += u128::from(orders.fund_amount(*voucher, fund));
    }
    taken
}

/// The least fund of which the payment of vouchers takes more cash than it has.
fn paid_refusal(history: &History, vouchers: &[u32]) -> Option<Refusal>
    ensures { result ≡ cash.cash_refusal history.now.plan history.now.entries
        (Act.Pay (record { vouchers = vouchers.now })) }
{
    for fund in history.chart().funds() {
        let taken = paid_of(history.orders(), fund.id, vouchers);
        if let Some(refusal) = fund_cash_refusal(history, fund.id, taken) {
            return Some(refusal);
        }
    }
    None
}

/// The fund that makes a debt payment has less cash than its principal and interest.
fn payment_refusal(history: &History, on: Day, payment: &DebtPayment) -> Option<Refusal>
    requires { register_name_refusal history.now.plan
        (registers_of history.now.plan history.now.entries) on (Act.PayDue payment.now) ≡ None }
    ensures { result ≡ cash.cash_refusal history.now.plan history.now.entries
        (Act.PayDue payment.now) }
{
    match history.debt().due(history.chart(), payment.bond) {
        Some(due) => {
            let taken = u128::from(due.principal) + u128::from(due.interest);
            fund_cash_refusal(history, payment.fund, taken)
        }
        None => None,
    }
}

/// The fund that pays leave out has less cash than that.
#[tactic(auto, using(crate::proofs::Short::nothing_short))]
fn leave_refusal(history: &History, on: Day, act: &LeaveAct) -> Option<Refusal>
    requires { register_name_refusal history.now.plan
        (registers_of history.now.plan history.now.entries) on (Act.Leave act.now) ≡ None }
    ensures { result ≡ cash.cash_refusal history.now.plan history.now.entries (Act.Leave act.now) }
{
    match act {
        LeaveAct::Mature(leave) => fund_cash_refusal(history, leave.fund, u128::from(leave.amount)),
        LeaveAct::Earn(_) => None,
        LeaveAct::Use(_) => None,
    }
}

/// The least fund of which a change takes more cash than it has.
#[tactic(auto, using(crate::proofs::Short::nothing_short))]
pub fn cash_refusal(history: &History, on: Day, act: &Act) -> Option<Refusal>
    requires names { name_refusal history.now.plan
        (documents_of history.now.plan history.now.entries) on act.now ≡ None }
    requires register_names { register_name_refusal history.now.plan
        (registers_of history.now.plan history.now.entries) on act.now ≡ None }
    ensures { result ≡ cash.cash_refusal history.now.plan history.now.entries act.now }
{
    match act {
        Act::Interfund(moved) => fund_cash_refusal(history, moved.from, u128::from(moved.amount)),
        Act::Leave(leave) => leave_refusal(history, on, leave),
        Act::Pay(payment) => paid_refusal(history, payment.vouchers.as_slice()),
        Act::PayDue(payment) => payment_refusal(history, on, payment),
        Act::Adopt(_)
        | Act::Amend(_)
        | Act::Transfer(_)
        | Act::Requisition(_)
        | Act::Withdraw(_)
        | Act::Order(_)
        | Act::ChangeOrder(_)
        | Act::CancelOrder(_)
        | Act::Voucher(_)
        | Act::VoidVoucher(_)
        | Act::Bill(_)
        | Act::Collect(_)
        | Act::Receive(_)
        | Act::WriteOff(_)
        | Act::Asset(_)
        | Act::Issue(_)
        | Act::Close(_)
        | Act::Lease(_) => None,
    }
}
