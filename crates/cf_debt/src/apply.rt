//! How the register takes in an act.

ghost use Rattle.std.specs.Prelude.{◌≡◌, ◌<◌, ◌+◌, ◌++◌, None, true, OnOk};
ghost use Rattle.cf_base.specs.Common.{is_day, most_entries};
ghost use Rattle.cf_calls.specs.Common.{IsActInForm, IsPeriodForm};
ghost use Rattle.cf_calls.specs.declared.acts.Act.TheVariants as act;
ghost use Rattle.cf_debt.specs.Register.{HasRoomFor, HasRoomForLeave, HasRoomToChange, HasRoomToIssue, IsEarlyIssue, IsNext, IsThere, debts_of, registers_with};
ghost use Rattle.cf_model.specs.Common.{leave_by, debt_refusal, leave_refusal, order_refusal, unpaid_refusal, closed_after, registers_step, amount_refusal};

use crate::debt::{Debt, leave_key};
use crate::rows::LeaveRow;
use cf_base::Day;
use cf_calls::acts::{LeaveAct, Period};
use cf_calls::{Act, Entry};
use cf_chart::Chart;
use cf_register_parts::{reserve_in, year_of_day};
use std::alloc::AllocError;

impl Debt {
    /// Takes all the memory that `apply` needs for an act. No bond and no leave changes, whatever
    /// the answer.
    pub fn reserve(&mut self, act: &Act) -> Result<(), AllocError>
        ensures ok { OnOk result (HasRoomFor act.now self.new) }
        ensures debts { self.new.debts ≡ self.old.debts }
        ensures acts { self.new.acts ≡ self.old.acts }
    {
        match act {
            Act::Issue(issue) => self.reserve_bond(issue.terms.principals.as_slice().len()),
            Act::Lease(lease) => self.reserve_bond(lease.terms.principals.as_slice().len()),
            Act::Leave(leave) => match leave {
                LeaveAct::Earn(part) => self.reserve_leave(part.fund, part.dept),
                LeaveAct::Use(part) => self.reserve_leave(part.fund, part.dept),
                LeaveAct::Mature(part) => self.reserve_leave(part.fund, part.dept),
            },
            Act::Adopt(_)
            | Act::Amend(_)
            | Act::Transfer(_)
            | Act::Requisition(_)
            | Act::Withdraw(_)
            | Act::Order(_)
            | Act::ChangeOrder(_)
            | Act::CancelOrder(_)
            | Act::Voucher(_)
            | Act::VoidVoucher(_)
            | Act::Pay(_)
            | Act::Bill(_)
            | Act::Collect(_)
            | Act::Receive(_)
            | Act::WriteOff(_)
            | Act::Asset(_)
            | Act::PayDue(_)
            | Act::Interfund(_)
            | Act::Close(_) => Ok(()),
        }
    }

    fn reserve_bond(&mut self, count: usize) -> Result<(), AllocError>
        ensures ok { OnOk result (HasRoomToIssue count self.new) }
        ensures debts { self.new.debts ≡ self.old.debts }
        ensures acts { self.new.acts ≡ self.old.acts }
    {
        self.payments.reserve(count)?;
        self.live.reserve(1)?;
        self.bonds.reserve(1)
    }

    fn reserve_leave(&mut self, fund: u16, dept: u16) -> Result<(), AllocError>
        ensures ok { OnOk result (HasRoomForLeave fund dept self.new) }
        ensures debts { self.new.debts ≡ self.old.debts }
        ensures acts { self.new.acts ≡ self.old.acts }
    {
        self.leave.reserve(1)?;
        reserve_in(&mut self.left, leave_key(fund, dept), 0)
    }

    /// Takes in an entry whose act the rules allow and whose numbers are the next. It takes no
    /// memory, as that was reserved. Another act than the register's own is only counted.
    pub fn apply(&mut self, chart: &Chart, entry: &Entry)
        requires reserved { HasRoomFor entry.now.change.act self.old }
        requires day { is_day entry.now.change.on ≡ true }
        requires form { IsActInForm entry.now.change.on entry.now.change.act }
        requires amounts { amount_refusal entry.now.change.act ≡ None }
        requires there { IsThere self.old.debts.bonds entry.now.change.act }
        requires early { IsEarlyIssue chart.now self.old.debts
            entry.now.change.on entry.now.change.act }
        requires allowed { debt_refusal chart.now (registers_with self.old.debts)
            entry.now.change.on entry.now.change.act ≡ None }
        requires drawn { IsNext entry.now.change.act entry.now.drawn self.old }
        requires few { self.old.acts < most_entries }
        ensures debts { self.new.debts
            ≡ debts_of (registers_step chart.now (registers_with self.old.debts) entry.now) }
        ensures acts { self.new.acts ≡ self.old.acts + 1 }
    {
        let on = entry.change.on;
        match &entry.change.act {
            Act::Issue(issue) => self.enter_issue(chart, on, entry.drawn.number, issue),
            Act::Lease(lease) => self.enter_lease(chart, on, entry.drawn.second, lease),
            Act::PayDue(payment) => self.pay(payment),
            Act::Leave(leave) => self.change_leave(chart, on, leave),
            Act::Close(period) => self.close(chart, period),
            Act::Adopt(_)
            | Act::Amend(_)
            | Act::Transfer(_)
            | Act::Requisition(_)
            | Act::Withdraw(_)
            | Act::Order(_)
            | Act::ChangeOrder(_)
            | Act::CancelOrder(_)
            | Act::Voucher(_)
            | Act::VoidVoucher(_)
            | Act::Pay(_)
            | Act::Bill(_)
            | Act::Collect(_)
            | Act::Receive(_)
            | Act::WriteOff(_)
            | Act::Asset(_)
            | Act::Interfund(_) => self.count_act(),
        }
    }

    fn close(&mut self, chart: &Chart, period: &Period)
        requires form { IsPeriodForm period.now }
        requires next { order_refusal chart.now (registers_with self.old.debts)
            (act.Close period.now) ≡ None }
        requires paid { unpaid_refusal chart.now (registers_with self.old.debts)
            (act.Close period.now) ≡ None }
        requires few { self.old.acts < most_entries }
        ensures debts { self.new.debts
            ≡ record self.old.debts
            { closed = closed_after (act.Close period.now) self.old.debts.closed } }
        ensures acts { self.new.acts ≡ self.old.acts + 1 }
    {
        match period {
            Period::Month(month) => self.close_month(chart, *month),
            Period::Year(_) => self.count_act(),
        }
    }

    fn change_leave(&mut self, chart: &Chart, on: Day, leave: &LeaveAct)
        requires reserved { HasRoomToChange leave.now self.old }
        requires day { is_day on ≡ true }
        requires amounts { amount_refusal (act.Leave leave.now) ≡ None }
        requires allowed { leave_refusal (registers_with self.old.debts) (act.Leave leave.now)
            ≡ None }
        requires few { self.old.acts < most_entries }
        ensures debts { self.new.debts ≡ record self.old.debts {
          leave = self.old.debts.leave ++ leave_by chart.now on (act.Leave leave.now);
        } }
        ensures acts { self.new.acts ≡ self.old.acts + 1 }
    {
        let year = year_of_day(chart, on);
        match leave {
            LeaveAct::Earn(part) => self.earn(LeaveRow {
                fund: part.fund,
                dept: part.dept,
                year,
                amount: part.amount,
                is_earned: true,
            }),
            LeaveAct::Use(part) => self.take(LeaveRow {
                fund: part.fund,
                dept: part.dept,
                year,
                amount: part.amount,
                is_earned: false,
            }),
            LeaveAct::Mature(part) => self.take(LeaveRow {
                fund: part.fund,
                dept: part.dept,
                year,
                amount: part.amount,
                is_earned: false,
            }),
        }
    }
}
