//! What an act names of bills, assets, bonds and leave, and of the chart's rows for them.

ghost use Rattle.std.specs.Prelude.{◌≡◌, not, is_some, true};
ghost use Rattle.cf_base.specs.Common.{is_day};
ghost use Rattle.cf_model.specs.Common.{Day as OnDay, bond_at, bill_at};
ghost use Rattle.cf_chart.specs.Common.{object_at};
ghost use Rattle.cf_model.specs.Calendar as calendar;
ghost use Rattle.cf_model.specs.Charted as charted;
ghost use Rattle.cf_model.specs.RegisterRules as spec;
ghost use Rattle.cf_model.specs.Rules as rules;

use crate::names::{account_refusal_if, fund_refusal, undrawn, unknown};
use cf_assets::Assets;
use cf_base::Day;
use cf_calls::acts::{AssetAct, DebtPayment, LeaveAct};
use cf_calls::items::AccountItem;
use cf_calls::{Act, NameKind, Refusal};
use cf_chart::Chart;
use cf_debt::Debt;
use cf_register_parts::{is_capital, is_current, is_interest, is_principal, year_of_day};
use cf_registers::Registers;
use cf_revenue::Revenue;

/// Refuses a department that isn't in the chart.
pub fn dept_refusal(chart: &Chart, dept: u16) -> Option<Refusal>
    ensures { result ≡ spec.unknown_dept chart.now dept }
{
    match chart.dept(dept) {
        Some(_) => None,
        None => Some(unknown(NameKind::Dept, dept)),
    }
}

fn capital_refusal(chart: &Chart, object: u16) -> Option<Refusal>
    ensures { result ≡ rules.unknown_if
        (not (charted.is_capital (object_at chart.now object))) NameKind.Object object }
{
    if is_capital(chart, object) {
        None
    } else {
        Some(unknown(NameKind::Object, object))
    }
}

fn bill_refusal(revenue: &Revenue, number: u32) -> Option<Refusal>
    ensures { result ≡ rules.unknown_if
        (not (is_some (bill_at number revenue.now.receivables.bills))) NameKind.Bill number }
{
    match revenue.bill(number) {
        Some(_) => None,
        None => Some(undrawn(NameKind::Bill, number)),
    }
}

fn asset_refusal(assets: &Assets, number: u32) -> Option<Refusal>
    ensures { result ≡ spec.unknown_asset assets.now.assets number }
{
    match assets.asset(number) {
        Some(_) => None,
        None => Some(undrawn(NameKind::Asset, number)),
    }
}

fn bond_refusal(debt: &Debt, number: u32) -> Option<Refusal>
    ensures { result ≡ spec.unknown_bond debt.now.debts.bonds number }
{
    if debt.has_bond(number) {
        None
    } else {
        Some(undrawn(NameKind::Bond, number))
    }
}

/// The fiscal year in which a bond's next payment is due; that of the day where none is.
fn payment_year(chart: &Chart, debt: &Debt, on: Day, bond: u32) -> u16
    requires { is_day on ≡ true }
    ensures { result ≡ spec.payment_year chart.now (calendar.year_of_day chart.now on)
        (bond_at bond debt.now.debts.bonds) }
{
    match debt.due(chart, bond) {
        Some(due) => due.year,
        None => year_of_day(chart, on),
    }
}

/// The account of a payment's principal, and then that of its interest, in a fiscal year.
fn payment_refusal(chart: &Chart, year: u16, payment: &DebtPayment) -> Option<Refusal>
    ensures { result ≡ spec.unknown_payment chart.now year payment.now }
{
    let fund = payment.fund;
    let dept = payment.dept;
    let principal = payment.principal;
    let interest = payment.interest;
    let is_fit = is_principal(chart, principal);
    account_refusal_if(chart, is_fit, year, fund, dept, principal).or_else(|| {
        let is_fit = is_interest(chart, interest);
        account_refusal_if(chart, is_fit, year, fund, dept, interest)
    })
}

/// A fund and a department.
pub fn leave_refusal(chart: &Chart, fund: u16, dept: u16) -> Option<Refusal>
    ensures { result ≡ rules.or_else (spec.unknown_fund chart.now fund)
        (spec.unknown_dept chart.now dept) }
{
    fund_refusal(chart, fund).or_else(|| dept_refusal(chart, dept))
}

fn asset_act_refusal(chart: &Chart, registers: &Registers, act: &AssetAct) -> Option<Refusal>
    ensures { (on : OnDay)
        → result ≡ spec.register_name_refusal chart.now registers.now.registers on
        (Act.Asset act.now) }
{
    match act {
        AssetAct::Donate(gift) => {
            dept_refusal(chart, gift.dept).or_else(|| capital_refusal(chart, gift.object))
        }
        AssetAct::Dispose(disposal) => {
            asset_refusal(registers.assets(), disposal.asset).or_else(|| fund_refusal(
                chart,
                disposal.fund,
            ))
        }
    }
}

fn leave_act_refusal(
    chart: &Chart,
    registers: &Registers,
    on: Day,
    act: &LeaveAct,
) -> Option<Refusal>
    requires { is_day on ≡ true }
    ensures { result ≡ spec.register_name_refusal chart.now registers.now.registers on
        (Act.Leave act.now) }
{
    match act {
        LeaveAct::Earn(leave) => leave_refusal(chart, leave.fund, leave.dept),
        LeaveAct::Use(leave) => leave_refusal(chart, leave.fund, leave.dept),
        LeaveAct::Mature(leave) => {
            let is_fit = is_current(chart, leave.object);
            let year = year_of_day(chart, on);
            account_refusal_if(chart, is_fit, year, leave.fund, leave.dept, leave.object)
        }
    }
}

/// The account of a lease in its fiscal year, which is of a capital object.
fn leased_refusal(chart: &Chart, on: Day, account: &AccountItem) -> Option<Refusal>
    requires { is_day on ≡ true }
    ensures { result ≡ rules.unknown_account chart.now charted.is_capital
        (calendar.year_of_day chart.now on) account.now.fund account.now.dept account.now.object }
{
    let is_fit = is_capital(chart, account.object);
    account_refusal_if(
        chart,
        is_fit,
        year_of_day(chart, on),
        account.fund,
        account.dept,
        account.object,
    )
}

/// The first name of an act on bills, assets, debt, leave or leases that there is nothing of.
pub fn register_name_refusal(
    chart: &Chart,
    registers: &Registers,
    on: Day,
    act: &Act,
) -> Option<Refusal>
    requires { is_day on ≡ true }
    ensures { result ≡ spec.register_name_refusal chart.now registers.now.registers on act.now }
{
    match act {
        Act::Collect(part) => bill_refusal(registers.revenue(), part.bill),
        Act::WriteOff(part) => bill_refusal(registers.revenue(), part.bill),
        Act::Asset(asset) => asset_act_refusal(chart, registers, asset),
        Act::Issue(bond) => fund_refusal(chart, bond.fund),
        Act::PayDue(payment) => {
            let debt = registers.debt();
            bond_refusal(debt, payment.bond).or_else(|| {
                payment_refusal(chart, payment_year(chart, debt, on, payment.bond), payment)
            })
        }
        Act::Leave(leave) => leave_act_refusal(chart, registers, on, leave),
        Act::Lease(lease) => leased_refusal(chart, on, &lease.account),
        Act::Adopt(_)
        | Act::Amend(_)
        | Act::Transfer(_)
        | Act::Requisition(_)
        | Act::Withdraw(_)
        | Act::Order(_)
        | Act::ChangeOrder(_)
        | Act::CancelOrder(_)
        | Act::Voucher(_)
        | Act::VoidVoucher(_)
        | Act::Pay(_)
        | Act::Bill(_)
        | Act::Receive(_)
        | Act::Interfund(_)
        | Act::Close(_) => None,
    }
}
