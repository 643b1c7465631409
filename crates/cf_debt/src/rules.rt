//! The rules on due dates, on leave, and on the order in which months are closed.

ghost use Rattle.std.specs.Prelude.{◌≡◌, ◌≤◌, List, option_map};
ghost use Rattle.cf_calls.specs.declared.acts.Act.TheVariants as act;
ghost use Rattle.cf_calls.specs.declared.acts.Period.TheVariants as period;
ghost use Rattle.cf_debt.specs.Register.{registers_with, debt_due, debt_due_of, unpaid_of};
ghost use Rattle.cf_debt.specs.RegisterView.{HasBonds};
ghost use Rattle.cf_debt.specs.Rows.{AreSmallDues, IsBond, view_bond, view_bonds, view_payment, view_payments};
ghost use Rattle.cf_model.specs.Common.{Due, next_due, debt_refusal, first_refusal};
ghost use Rattle.cf_model.specs.RegisterRules as rules;

use crate::debt::{Debt, due_day};
use crate::rows::{BondRow, Payment};
use crate::schedule::next_of;
use cf_base::{Day, Month};
use cf_calls::acts::{DebtPayment, LeaveAct, Period};
use cf_calls::{Act, DocumentKind, DocumentState, Refusal};
use cf_chart::Chart;
use cf_register_parts::{is_before, month_at};

impl Debt {
    /// The first rule of the register that an act breaks: a bond with nothing left to pay, a
    /// payment that isn't due yet, more leave than is left, a month that isn't the next one to
    /// close, or one with a payment due that isn't paid. `None` at other acts than payments of
    /// debt, leave that is used or paid, and the close of a month.
    pub fn check(&self, chart: &Chart, on: Day, _desk: u16, act: &Act) -> Option<Refusal>
        ensures { result ≡ debt_refusal chart.now (registers_with self.now.debts) on act.now }
    {
        match act {
            Act::PayDue(payment) => self.payment_refusal(chart, on, payment),
            Act::Leave(leave) => self.leave_refusal(leave),
            Act::Close(Period::Month(month)) => self.close_refusal(chart, on, *month),
            Act::Adopt(_)
            | Act::Amend(_)
            | Act::Transfer(_)
            | Act::Requisition(_)
            | Act::Withdraw(_)
            | Act::Order(_)
            | Act::ChangeOrder(_)
            | Act::CancelOrder(_)
            | Act::Voucher(_)
            | Act::VoidVoucher(_)
            | Act::Pay(_)
            | Act::Bill(_)
            | Act::Collect(_)
            | Act::Receive(_)
            | Act::WriteOff(_)
            | Act::Asset(_)
            | Act::Issue(_)
            | Act::Interfund(_)
            | Act::Close(Period::Year(_))
            | Act::Lease(_) => None,
        }
    }

    fn payment_refusal(&self, chart: &Chart, on: Day, payment: &DebtPayment) -> Option<Refusal>
        ensures { result ≡ debt_refusal chart.now (registers_with self.now.debts) on
            (act.PayDue payment.now) }
    {
        match self.bond(payment.bond) {
            None => None,
            Some(bond) => match bond.next {
                None => Some(Refusal::DocState {
                    kind: DocumentKind::Bond,
                    number: bond.row.number,
                    state: DocumentState::Paid,
                }),
                Some(next) => not_due(chart, on, &bond.row, &next),
            },
        }
    }

    fn leave_refusal(&self, leave: &LeaveAct) -> Option<Refusal>
        ensures { result ≡ rules.leave_refusal (registers_with self.now.debts)
            (act.Leave leave.now) }
    {
        match leave {
            LeaveAct::Earn(_) => None,
            LeaveAct::Use(part) => over_leave(part.amount, self.leave_of(part.fund, part.dept)),
            LeaveAct::Mature(part) => over_leave(part.amount, self.leave_of(part.fund, part.dept)),
        }
    }

    fn close_refusal(&self, chart: &Chart, on: Day, month: Month) -> Option<Refusal>
        ensures { result ≡ debt_refusal chart.now (registers_with self.now.debts) on
            (act.Close (period.Month month)) }
    {
        let next = self.next_month(chart);
        if month != next {
            return Some(Refusal::MonthOrder { next });
        }
        match self.first_unpaid(chart) {
            None => None,
            Some((bond, day)) => Some(Refusal::DebtDue { bond, day }),
        }
    }

    /// The next month to close.
    pub fn next_month(&self, chart: &Chart) -> Month
        ensures { result ≡ rules.month_at chart.now self.now.debts.closed }
    {
        month_at(chart, self.closed)
    }

    /// The least bond of which a payment is due by the end of the next month to close and isn't
    /// paid, and the day on which it is due.
    pub fn first_unpaid(&self, chart: &Chart) -> Option<(u32, Day)>
        ensures { option_map debt_due result
            ≡ first_refusal (λ b. rules.unpaid chart.now self.now.debts.closed b (next_due b))
            self.now.debts.bonds }
    {
        unpaid_among(chart, &self.payments, &self.bonds, &self.live, self.closed)
    }
}

/// The least of the live bonds of which a payment is due in so many months and isn't paid.
fn unpaid_among(
    chart: &Chart,
    payments: &[Payment],
    bonds: &[BondRow],
    live: &[u32],
    closed: u16,
) -> Option<(u32, Day)>
    requires bonds { HasBonds closed (view_payments payments.now) bonds.now live.now }
    ensures { option_map debt_due result
        ≡ first_refusal (λ b. rules.unpaid chart.now closed b (next_due b))
        (view_bonds (view_payments payments.now) bonds.now) }
{
    for number in live {
        let bond = &bonds[*number as usize - 1];
        if let Some(day) = unpaid_day(chart, payments, bond, closed) {
            return Some((*number, day));
        }
    }
    None
}

/// The day on which a bond's next payment is due, where that is in so many months.
fn unpaid_day(chart: &Chart, payments: &[Payment], bond: &BondRow, closed: u16) -> Option<Day>
    requires small { AreSmallDues (view_payments payments.now) }
    requires bond { IsBond (view_payments payments.now) bond.now }
    ensures { option_map (debt_due_of bond.now.number) result
        ≡ unpaid_of chart.now closed (view_bond (view_payments payments.now) bond.now) }
{
    match next_of(payments, bond) {
        None => None,
        Some(payment) => {
            if payment.month <= closed {
                Some(due_day(chart, bond, &payment))
            } else {
                None
            }
        }
    }
}

fn not_due(chart: &Chart, on: Day, bond: &BondRow, payment: &Payment) -> Option<Refusal>
    requires { payment.now.month ≤ 2759 }
    ensures { (all : List Due)
        → result ≡ rules.not_due chart.now on (view_bond all bond.now)
        (Some (view_payment payment.now)) }
{
    let next = due_day(chart, bond, payment);
    if is_before(on, next) {
        Some(Refusal::NotDue { next })
    } else {
        None
    }
}

fn over_leave(amount: u64, left: u64) -> Option<Refusal>
    ensures { result ≡ rules.over_leave amount left }
{
    if left < amount {
        Some(Refusal::LeaveShort { left })
    } else {
        None
    }
}
