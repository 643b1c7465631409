//! The rules before that of room, but for those on names and adopted budgets, each as the refusal
//! that it gives.

ghost use Rattle.std.specs.Prelude.{◌≡◌, ◌≤◌, ◌+◌, true, nat_lt};
ghost use Rattle.cf_base.specs.Common.{is_day, last_fiscal_year};
ghost use Rattle.cf_calls.specs.Common.{IsActInForm};
ghost use Rattle.cf_model.specs.Common.{bill_at, later_levy, registers_of, first_refusal};
ghost use Rattle.cf_model.specs.RegisterRules as register;
ghost use Rattle.cf_model.specs.Rules as spec;
ghost use Rattle.cf_office_rules.specs.Least.{closed_where};
ghost use Rattle.cf_chart.specs.Common.{desk_at};

use cf_base::{Day, LAST_YEAR, MOST_CENTS, MOST_ENTRIES, Month, fiscal_year, month_of};
use cf_calls::acts::{AssetAct, LeaveAct, Period, Terms};
use cf_calls::items::{AccountItem, LineAmount, SourceAmount, VoucherItem};
use cf_calls::{Act, Refusal, Role, has_role, role_of};
use cf_chart::Chart;
use cf_office_history::History;
use cf_register_parts::{document_year, year_of_day};
use cf_revenue::Revenue;

/// The first of two refusals.
pub fn or(first: Option<Refusal>, second: Option<Refusal>) -> Option<Refusal>
    ensures { result ≡ spec.or_else first second }
{
    match first {
        Some(refusal) => Some(refusal),
        None => second,
    }
}

// ---- desks

/// The chart has no such desk.
pub fn desk_refusal(chart: &Chart, desk: u16) -> Option<Refusal>
    ensures { result ≡ spec.desk_refusal chart.now desk }
{
    match chart.desk(desk) {
        Some(_) => None,
        None => Some(Refusal::DeskUnknown { desk }),
    }
}

/// The caller has seen more than the history has.
pub fn ahead_refusal(after: Option<u64>, length: u64) -> Option<Refusal>
    ensures { result ≡ spec.ahead_refusal after length }
{
    match after {
        Some(after) if length < after => Some(Refusal::Ahead { after, length }),
        Some(_) | None => None,
    }
}

fn desk_has_role(chart: &Chart, desk: u16, role: Role) -> bool
    ensures { result ≡ spec.has_role role (desk_at chart.now desk) }
{
    match chart.desk(desk) {
        Some(row) => has_role(row.roles.as_slice(), role),
        None => false,
    }
}

/// The desk lacks the role that the call needs.
pub fn role_refusal(chart: &Chart, desk: u16, act: &Act) -> Option<Refusal>
    ensures { result ≡ spec.role_refusal chart.now desk act.now }
{
    let role = role_of(act);
    if desk_has_role(chart, desk, role) {
        None
    } else {
        Some(Refusal::NotThisDesk { role })
    }
}

/// The history has as many entries as it may have.
pub fn full_refusal(length: u64) -> Option<Refusal>
    ensures { result ≡ spec.full_refusal length }
{
    if MOST_ENTRIES <= length {
        Some(Refusal::HistoryFull {
            limit: MOST_ENTRIES,
        })
    } else {
        None
    }
}

// ---- amounts

fn one_amount_refusal(amount: u64) -> Option<Refusal>
    ensures { result ≡ spec.bad_amount (spec.amount amount) }
{
    if 1 <= amount && amount <= MOST_CENTS {
        None
    } else {
        Some(Refusal::AmountRange { amount })
    }
}

#[tactic(auto, using(cf_model::proofs::First::firsts))]
fn lines_amount_refusal(rows: &[LineAmount]) -> Option<Refusal>
    ensures { result ≡ first_refusal (λ r. spec.bad_amount (spec.amount r.amount)) rows.now }
{
    for row in rows {
        if let Some(refusal) = one_amount_refusal(row.amount) {
            return Some(refusal);
        }
    }
    None
}

#[tactic(auto, using(cf_model::proofs::First::firsts))]
fn sources_amount_refusal(rows: &[SourceAmount]) -> Option<Refusal>
    ensures { result ≡ first_refusal (λ r. spec.bad_amount (spec.amount r.amount)) rows.now }
{
    for row in rows {
        if let Some(refusal) = one_amount_refusal(row.amount) {
            return Some(refusal);
        }
    }
    None
}

#[tactic(auto, using(cf_model::proofs::First::firsts))]
fn items_amount_refusal(items: &[VoucherItem]) -> Option<Refusal>
    ensures { result ≡ first_refusal
        (λ i. spec.bad_amount (spec.amount i.account.amount)) items.now }
{
    for item in items {
        if let Some(refusal) = one_amount_refusal(item.account.amount) {
            return Some(refusal);
        }
    }
    None
}

#[tactic(auto, using(cf_model::proofs::First::firsts))]
fn accounts_amount_refusal(items: &[AccountItem]) -> Option<Refusal>
    ensures { result ≡ first_refusal (λ i. spec.bad_amount (spec.amount i.amount)) items.now }
{
    for item in items {
        if let Some(refusal) = one_amount_refusal(item.amount) {
            return Some(refusal);
        }
    }
    None
}

/// An amount that may be 0.
fn amount_or_none_refusal(amount: u64) -> Option<Refusal>
    ensures { result ≡ spec.bad_amount (spec.amount_or_none amount) }
{
    if amount <= MOST_CENTS {
        None
    } else {
        Some(Refusal::AmountRange { amount })
    }
}

#[tactic(auto, using(cf_model::proofs::First::firsts))]
fn principals_amount_refusal(principals: &[u64]) -> Option<Refusal>
    ensures { result ≡ first_refusal (λ p. spec.bad_amount (spec.amount_or_none p)) principals.now }
{
    for principal in principals {
        if let Some(refusal) = amount_or_none_refusal(*principal) {
            return Some(refusal);
        }
    }
    None
}

#[tactic(auto, using(cf_model::proofs::First::firsts))]
fn debt_amount_refusal(amount: u64, terms: &Terms) -> Option<Refusal>
    ensures { result ≡ first_refusal spec.bad_amount (spec.debt_amounts amount terms.now) }
{
    one_amount_refusal(amount).or_else(|| principals_amount_refusal(terms.principals.as_slice()))
}

#[tactic(auto, using(cf_model::proofs::First::firsts))]
fn asset_amount_refusal(act: &AssetAct) -> Option<Refusal>
    ensures { result ≡ first_refusal spec.bad_amount (spec.asset_amounts act.now) }
{
    match act {
        AssetAct::Donate(gift) => one_amount_refusal(gift.amount),
        AssetAct::Dispose(disposal) => amount_or_none_refusal(disposal.proceeds),
    }
}

#[tactic(auto, using(cf_model::proofs::First::firsts))]
fn leave_amount_refusal(act: &LeaveAct) -> Option<Refusal>
    ensures { result ≡ first_refusal spec.bad_amount (spec.leave_amounts act.now) }
{
    match act {
        LeaveAct::Earn(leave) => one_amount_refusal(leave.amount),
        LeaveAct::Use(leave) => one_amount_refusal(leave.amount),
        LeaveAct::Mature(leave) => one_amount_refusal(leave.amount),
    }
}

/// The first amount that is out of range.
#[tactic(auto, using(cf_model::proofs::First::firsts))]
pub fn amount_refusal(act: &Act) -> Option<Refusal>
    ensures { result ≡ spec.amount_refusal act.now }
{
    match act {
        Act::Adopt(a) => {
            lines_amount_refusal(a.lines.as_slice()).or_else(|| sources_amount_refusal(
                a.estimates.as_slice(),
            ))
        }
        Act::Amend(a) => one_amount_refusal(a.by.unsigned_abs()),
        Act::Transfer(t) => one_amount_refusal(t.amount),
        Act::Requisition(r) => accounts_amount_refusal(r.items.as_slice()),
        Act::Order(o) => accounts_amount_refusal(o.items.as_slice()),
        Act::ChangeOrder(c) => one_amount_refusal(c.by.unsigned_abs()),
        Act::Voucher(v) => items_amount_refusal(v.items.as_slice()),
        Act::Bill(b) => one_amount_refusal(b.amount),
        Act::Collect(part) => one_amount_refusal(part.amount),
        Act::Receive(r) => one_amount_refusal(r.amount),
        Act::WriteOff(part) => one_amount_refusal(part.amount),
        Act::Asset(asset) => asset_amount_refusal(asset),
        Act::Issue(bond) => debt_amount_refusal(bond.amount, &bond.terms),
        Act::Leave(leave) => leave_amount_refusal(leave),
        Act::Interfund(m) => one_amount_refusal(m.amount),
        Act::Lease(lease) => debt_amount_refusal(lease.account.amount, &lease.terms),
        Act::Withdraw(_)
        | Act::CancelOrder(_)
        | Act::VoidVoucher(_)
        | Act::Pay(_)
        | Act::PayDue(_)
        | Act::Close(_) => None,
    }
}

// ---- months and years

/// The month of the call's day is closed.
pub fn period_refusal(history: &History, on: Day) -> Option<Refusal>
    requires { is_day on ≡ true }
    ensures { result ≡ spec.period_refusal history.now.plan history.now.entries on }
{
    if history.is_closed(on) {
        Some(Refusal::PeriodClosed {
            month: month_of(on),
        })
    } else {
        None
    }
}

fn open_refusal(first_open: u16, year: u16) -> Option<Refusal>
    requires { first_open ≤ last_fiscal_year }
    ensures { result ≡ spec.not_open first_open year }
{
    if first_open + 2 < year || LAST_YEAR < year {
        Some(Refusal::YearNotOpen { year })
    } else {
        None
    }
}

/// The year that the call states is too far ahead.
#[tactic(auto, using(cf_model::proofs::First::firsts))]
fn stated_refusal(first_open: u16, act: &Act) -> Option<Refusal>
    requires { first_open ≤ last_fiscal_year }
    ensures { result ≡ first_refusal (spec.not_open first_open) (spec.stated_years act.now) }
{
    match act {
        Act::Adopt(a) => open_refusal(first_open, a.year),
        Act::Amend(a) => open_refusal(first_open, a.year),
        Act::Transfer(t) => open_refusal(first_open, t.year),
        Act::Bill(b) => open_refusal(first_open, b.levy_year),
        Act::Requisition(_)
        | Act::Withdraw(_)
        | Act::Order(_)
        | Act::ChangeOrder(_)
        | Act::CancelOrder(_)
        | Act::Voucher(_)
        | Act::VoidVoucher(_)
        | Act::Pay(_)
        | Act::Collect(_)
        | Act::Receive(_)
        | Act::WriteOff(_)
        | Act::Asset(_)
        | Act::Issue(_)
        | Act::PayDue(_)
        | Act::Leave(_)
        | Act::Interfund(_)
        | Act::Close(_)
        | Act::Lease(_) => None,
    }
}

/// The year of the call's day, or a year that it states, is too far ahead.
pub fn year_refusal(history: &History, on: Day, act: &Act) -> Option<Refusal>
    requires { is_day on ≡ true }
    ensures { result ≡ spec.year_refusal history.now.plan history.now.entries on act.now }
{
    let first_open = history.open_year();
    let year = year_of_day(history.chart(), on);
    open_refusal(first_open, year).or_else(|| stated_refusal(first_open, act))
}

/// The fiscal year of the month that is closed is too far ahead, or the year isn't the next one to
/// close.
pub fn closing_refusal(history: &History, on: Day, act: &Act) -> Option<Refusal>
    requires { IsActInForm on act.now }
    ensures { result ≡ spec.closing_refusal history.now.plan history.now.entries act.now }
{
    match act {
        Act::Close(Period::Month(month)) => {
            let year = fiscal_year(history.chart().first_month(), *month);
            last_year_refusal(history.open_year() + 2, year)
        }
        Act::Close(Period::Year(year)) => last_year_refusal(history.open_year(), *year),
        Act::Adopt(_)
        | Act::Amend(_)
        | Act::Transfer(_)
        | Act::Requisition(_)
        | Act::Withdraw(_)
        | Act::Order(_)
        | Act::ChangeOrder(_)
        | Act::CancelOrder(_)
        | Act::Voucher(_)
        | Act::VoidVoucher(_)
        | Act::Pay(_)
        | Act::Bill(_)
        | Act::Collect(_)
        | Act::Receive(_)
        | Act::WriteOff(_)
        | Act::Asset(_)
        | Act::Issue(_)
        | Act::PayDue(_)
        | Act::Leave(_)
        | Act::Interfund(_)
        | Act::Lease(_) => None,
    }
}

/// A year is above the last one that it may be.
fn last_year_refusal(last: u16, year: u16) -> Option<Refusal>
    ensures { result ≡ spec.refuse_if (nat_lt last year) (Refusal.YearNotOpen year) }
{
    if last < year {
        Some(Refusal::YearNotOpen { year })
    } else {
        None
    }
}

/// The levy year of a bill is above a year.
fn bill_levy_refusal(revenue: &Revenue, year: u16, bill: u32) -> Option<Refusal>
    ensures { result ≡ later_levy year (bill_at bill revenue.now.receivables.bills) }
{
    match revenue.bill(bill) {
        Some(bill) => last_year_refusal(year, bill.levy_year),
        None => None,
    }
}

/// A bill is collected or written off before its levy year.
pub fn levy_refusal(history: &History, on: Day, act: &Act) -> Option<Refusal>
    requires { is_day on ≡ true }
    ensures { result ≡ register.levy_refusal history.now.plan
        (registers_of history.now.plan history.now.entries) on act.now }
{
    let year = year_of_day(history.chart(), on);
    let revenue = history.revenue();
    match act {
        Act::Collect(part) => bill_levy_refusal(revenue, year, part.bill),
        Act::WriteOff(part) => bill_levy_refusal(revenue, year, part.bill),
        Act::Adopt(_)
        | Act::Amend(_)
        | Act::Transfer(_)
        | Act::Requisition(_)
        | Act::Withdraw(_)
        | Act::Order(_)
        | Act::ChangeOrder(_)
        | Act::CancelOrder(_)
        | Act::Voucher(_)
        | Act::VoidVoucher(_)
        | Act::Pay(_)
        | Act::Bill(_)
        | Act::Receive(_)
        | Act::Asset(_)
        | Act::Issue(_)
        | Act::PayDue(_)
        | Act::Leave(_)
        | Act::Interfund(_)
        | Act::Close(_)
        | Act::Lease(_) => None,
    }
}

fn closed_year_refusal(first_open: u16, year: u16) -> Option<Refusal>
    ensures { result ≡ spec.closed_year first_open year }
{
    if year < first_open {
        Some(Refusal::YearClosed { year })
    } else {
        None
    }
}

fn closed_year_refusal_if(first_open: u16, year: Option<u16>) -> Option<Refusal>
    ensures { result ≡ closed_where first_open year }
{
    match year {
        Some(year) => closed_year_refusal(first_open, year),
        None => None,
    }
}

/// The year that the call posts to is closed.
#[tactic(auto, using(cf_model::proofs::First::firsts))]
pub fn closed_refusal(history: &History, on: Day, act: &Act) -> Option<Refusal>
    requires { is_day on ≡ true }
    ensures { result ≡ spec.closed_refusal history.now.plan history.now.entries on act.now }
{
    let first_open = history.open_year();
    match act {
        Act::Adopt(a) => closed_year_refusal(first_open, a.year),
        Act::Amend(a) => closed_year_refusal(first_open, a.year),
        Act::Transfer(t) => closed_year_refusal(first_open, t.year),
        Act::Bill(b) => closed_year_refusal(first_open, b.levy_year),
        Act::ChangeOrder(c) => closed_year_refusal_if(
            first_open,
            history.orders().item_year(c.order, c.item),
        ),
        Act::Voucher(_) => {
            closed_year_refusal(first_open, document_year(history.chart(), on, act))
        }
        Act::VoidVoucher(number) => closed_year_refusal_if(
            first_open,
            history.orders().voucher_year(*number),
        ),
        Act::Close(Period::Year(year)) => closed_year_refusal(first_open, *year),
        Act::Requisition(_)
        | Act::Withdraw(_)
        | Act::Order(_)
        | Act::CancelOrder(_)
        | Act::Pay(_)
        | Act::Collect(_)
        | Act::Receive(_)
        | Act::WriteOff(_)
        | Act::Asset(_)
        | Act::Issue(_)
        | Act::PayDue(_)
        | Act::Leave(_)
        | Act::Interfund(_)
        | Act::Close(Period::Month(_))
        | Act::Lease(_) => None,
    }
}
