//! What a call names: funds, departments, objects, sources and control lines of the chart, and
//! documents.

ghost use Rattle.std.specs.Prelude.{◌≡◌, not, is_some, true};
ghost use Rattle.cf_model.specs.Rules as spec;
ghost use Rattle.cf_model.specs.Common.{first_refusal, Day as OnDay, is_drawn, item_named};
ghost use Rattle.cf_chart.specs.Common.{fund_at, line_at, source_at};
ghost use Rattle.cf_base.specs.Common.{is_day};
ghost use Rattle.cf_model.specs.Calendar as calendar;

use crate::rules::or;
use cf_base::Day;
use cf_calls::acts::{Adoption, LineTransfer, OrderChange};
use cf_calls::items::{AccountItem, Charge, LineAmount, SourceAmount, VoucherItem};
use cf_calls::{Act, NameKind, Refusal};
use cf_chart::Chart;
use cf_orders::Orders;
use cf_register_parts::{document_year, is_spending, year_of_day};

/// The refusal of a name that isn't in the chart.
pub fn unknown(kind: NameKind, id: u16) -> Refusal
    ensures { result ≡ Refusal.UnknownName kind id }
{
    Refusal::UnknownName {
        kind,
        id: u32::from(id),
    }
}

/// The refusal of a number that no document, asset, bill or bond has.
pub fn undrawn(kind: NameKind, number: u32) -> Refusal
    ensures { result ≡ Refusal.UnknownName kind number }
{
    Refusal::UnknownName { kind, id: number }
}

/// Refuses a fund that isn't in the chart.
pub fn fund_refusal(chart: &Chart, fund: u16) -> Option<Refusal>
    ensures { result ≡ spec.unknown_if (not (is_some (fund_at chart.now fund))) NameKind.Fund fund }
{
    match chart.fund(fund) {
        Some(_) => None,
        None => Some(unknown(NameKind::Fund, fund)),
    }
}

fn is_line_of(chart: &Chart, fund: u16, year: u16, line: u16) -> bool
    ensures { result ≡ spec.is_line_of chart.now fund year (line_at chart.now line) }
{
    match chart.line(line) {
        Some(row) => row.fund == fund && chart.is_of_year(row, year),
        None => false,
    }
}

/// A line of a fund that controls it in a fiscal year.
fn line_refusal(chart: &Chart, fund: u16, year: u16, line: u16) -> Option<Refusal>
    ensures { result ≡ spec.unknown_if
        (not (spec.is_line_of chart.now fund year (line_at chart.now line))) NameKind.Line line }
{
    if is_line_of(chart, fund, year, line) {
        None
    } else {
        Some(unknown(NameKind::Line, line))
    }
}

/// A source of any fund.
fn any_source_refusal(chart: &Chart, source: u16) -> Option<Refusal>
    ensures { result ≡ spec.unknown_if
        (not (is_some (source_at chart.now source))) NameKind.Source source }
{
    match chart.source(source) {
        Some(_) => None,
        None => Some(unknown(NameKind::Source, source)),
    }
}

fn is_source_of(chart: &Chart, fund: u16, source: u16) -> bool
    ensures { result ≡ spec.is_source_of fund (source_at chart.now source) }
{
    match chart.source(source) {
        Some(row) => row.fund == fund,
        None => false,
    }
}

fn source_refusal(chart: &Chart, fund: u16, source: u16) -> Option<Refusal>
    ensures { result ≡ spec.unknown_if
        (not (spec.is_source_of fund (source_at chart.now source))) NameKind.Source source }
{
    if is_source_of(chart, fund, source) {
        None
    } else {
        Some(unknown(NameKind::Source, source))
    }
}

/// The first part of an account that the chart doesn't have: its fund, its department, an object
/// that fits, its control line in a fiscal year.
pub fn account_refusal_if(
    chart: &Chart,
    is_fit: bool,
    year: u16,
    fund: u16,
    dept: u16,
    object: u16,
) -> Option<Refusal>
    ensures { result ≡ spec.unknown_account chart.now (λ o. is_fit) year fund dept object }
{
    if chart.fund(fund).is_none() {
        return Some(unknown(NameKind::Fund, fund));
    }
    if chart.dept(dept).is_none() {
        return Some(unknown(NameKind::Dept, dept));
    }
    if !is_fit {
        return Some(unknown(NameKind::Object, object));
    }
    if chart.line_of(fund, dept, object, year).is_none() {
        return Some(unknown(NameKind::Line, object));
    }
    None
}

/// An account on an object of kind current or capital.
fn account_refusal(chart: &Chart, year: u16, item: &AccountItem) -> Option<Refusal>
    ensures { result ≡ spec.unknown_account chart.now spec.is_spending year item.now.fund
        item.now.dept item.now.object }
{
    let is_fit = is_spending(chart, item.object);
    account_refusal_if(chart, is_fit, year, item.fund, item.dept, item.object)
}

/// An account on an object of any kind.
fn any_account_refusal(
    chart: &Chart,
    year: u16,
    fund: u16,
    dept: u16,
    object: u16,
) -> Option<Refusal>
    ensures { result ≡ spec.unknown_account chart.now (λ o. is_some o) year fund dept object }
{
    let is_fit = chart.object(object).is_some();
    account_refusal_if(chart, is_fit, year, fund, dept, object)
}

fn requisition_refusal(orders: &Orders, number: u32) -> Option<Refusal>
    ensures { result ≡ spec.unknown_if
        (not (is_drawn orders.now.documents.requisitions number)) NameKind.Requisition number }
{
    if orders.holds_requisition(number) {
        None
    } else {
        Some(undrawn(NameKind::Requisition, number))
    }
}

fn order_refusal(orders: &Orders, number: u32) -> Option<Refusal>
    ensures { result ≡ spec.unknown_if
        (not (is_drawn orders.now.documents.orders number)) NameKind.Order number }
{
    if orders.holds_order(number) {
        None
    } else {
        Some(undrawn(NameKind::Order, number))
    }
}

fn voucher_refusal(orders: &Orders, number: u32) -> Option<Refusal>
    ensures { result ≡ spec.unknown_if
        (not (is_drawn orders.now.documents.vouchers number)) NameKind.Voucher number }
{
    if orders.holds_voucher(number) {
        None
    } else {
        Some(undrawn(NameKind::Voucher, number))
    }
}

#[tactic(auto, using(cf_model::proofs::First::firsts))]
fn lines_refusal(chart: &Chart, fund: u16, year: u16, rows: &[LineAmount]) -> Option<Refusal>
    ensures { result ≡ first_refusal
        (λ r. spec.unknown_if
        (not (spec.is_line_of chart.now fund year (line_at chart.now r.line))) NameKind.Line
        r.line) rows.now }
{
    for row in rows {
        if let Some(refusal) = line_refusal(chart, fund, year, row.line) {
            return Some(refusal);
        }
    }
    None
}

#[tactic(auto, using(cf_model::proofs::First::firsts))]
fn sources_refusal(chart: &Chart, fund: u16, rows: &[SourceAmount]) -> Option<Refusal>
    ensures { result ≡ first_refusal
        (λ r. spec.unknown_if
        (not (spec.is_source_of fund (source_at chart.now r.source))) NameKind.Source r.source)
        rows.now }
{
    for row in rows {
        if let Some(refusal) = source_refusal(chart, fund, row.source) {
            return Some(refusal);
        }
    }
    None
}

#[tactic(auto, using(cf_model::proofs::First::firsts))]
fn accounts_refusal(chart: &Chart, year: u16, items: &[AccountItem]) -> Option<Refusal>
    ensures { result ≡ first_refusal
        (λ i. spec.unknown_account chart.now spec.is_spending year i.fund i.dept i.object)
        items.now }
{
    for item in items {
        if let Some(refusal) = account_refusal(chart, year, item) {
            return Some(refusal);
        }
    }
    None
}

#[tactic(auto, using(cf_model::proofs::First::firsts))]
fn charge_refusal(chart: &Chart, orders: &Orders, charge: Charge) -> Option<Refusal>
    ensures { result ≡ first_refusal (spec.unknown chart.now orders.now.documents)
        (spec.charge_names charge) }
{
    match charge {
        Charge::Direct => None,
        Charge::OnOrder { order, .. } => order_refusal(orders, order),
    }
}

/// An item of a voucher of a fiscal year names its account, then the order that it is charged
/// against.
#[tactic(auto, using(cf_model::proofs::First::firsts))]
fn item_refusal(chart: &Chart, orders: &Orders, year: u16, item: &VoucherItem) -> Option<Refusal>
    ensures { result ≡ first_refusal (spec.unknown chart.now orders.now.documents)
        (spec.item_names year item.now) }
{
    account_refusal(chart, year, &item.account).or_else(|| charge_refusal(
        chart,
        orders,
        item.charge,
    ))
}

#[tactic(auto, using(cf_model::proofs::First::firsts))]
fn items_refusal(
    chart: &Chart,
    orders: &Orders,
    year: u16,
    items: &[VoucherItem],
) -> Option<Refusal>
    ensures { result ≡ first_refusal (spec.unknown chart.now orders.now.documents)
        (spec.voucher_names year items.now) }
{
    for item in items {
        if let Some(refusal) = item_refusal(chart, orders, year, item) {
            return Some(refusal);
        }
    }
    None
}

#[tactic(auto, using(cf_model::proofs::First::firsts))]
fn vouchers_refusal(orders: &Orders, vouchers: &[u32]) -> Option<Refusal>
    ensures { result ≡ first_refusal
        (λ n. spec.unknown_if (not (is_drawn orders.now.documents.vouchers n)) NameKind.Voucher n)
        vouchers.now }
{
    for number in vouchers {
        if let Some(refusal) = voucher_refusal(orders, *number) {
            return Some(refusal);
        }
    }
    None
}

#[tactic(auto, using(cf_model::proofs::First::firsts))]
fn taken_up_refusal(chart: &Chart, orders: &Orders, requisition: Option<u32>) -> Option<Refusal>
    ensures { result ≡ first_refusal (spec.unknown chart.now orders.now.documents)
        (spec.requisition_names requisition) }
{
    match requisition {
        Some(number) => requisition_refusal(orders, number),
        None => None,
    }
}

#[tactic(auto, using(cf_model::proofs::First::firsts))]
fn adoption_refusal(chart: &Chart, orders: &Orders, adoption: &Adoption) -> Option<Refusal>
    ensures { (on : OnDay)
        → result ≡ spec.name_refusal chart.now orders.now.documents on (Act.Adopt adoption.now) }
{
    or(
        fund_refusal(chart, adoption.fund),
        or(
            lines_refusal(
                chart,
                adoption.fund,
                adoption.year,
                adoption.lines.as_slice(),
            ),
            sources_refusal(chart, adoption.fund, adoption.estimates.as_slice()),
        ),
    )
}

#[tactic(auto, using(cf_model::proofs::First::firsts))]
fn transfer_refusal(chart: &Chart, orders: &Orders, transfer: &LineTransfer) -> Option<Refusal>
    ensures { (on : OnDay)
        → result ≡ spec.name_refusal chart.now orders.now.documents on (Act.Transfer transfer.now) }
{
    let fund = transfer.fund;
    let year = transfer.year;
    fund_refusal(chart, fund)
        .or_else(|| line_refusal(chart, fund, year, transfer.from))
        .or_else(|| line_refusal(chart, fund, year, transfer.to))
}

/// The fiscal year of an order's item that is changed; that of the day where there is no such item.
fn changed_year(chart: &Chart, orders: &Orders, on: Day, change: &OrderChange) -> u16
    requires { is_day on ≡ true }
    ensures { result ≡ spec.item_year (calendar.year_of_day chart.now on)
        (item_named change.now.order change.now.item orders.now.documents.items) }
{
    match orders.item_year(change.order, change.item) {
        Some(year) => year,
        None => year_of_day(chart, on),
    }
}

/// An order's change names the order, and the account in the item's year.
#[tactic(auto, using(cf_model::proofs::First::firsts))]
fn change_refusal(chart: &Chart, orders: &Orders, on: Day, change: &OrderChange) -> Option<Refusal>
    requires { is_day on ≡ true }
    ensures { result ≡ spec.name_refusal chart.now orders.now.documents on
        (Act.ChangeOrder change.now) }
{
    let year = changed_year(chart, orders, on, change);
    order_refusal(orders, change.order).or_else(|| any_account_refusal(
        chart,
        year,
        change.fund,
        change.dept,
        change.object,
    ))
}

/// The first name of an act that there is nothing of, but for acts on bills, assets, debt and
/// leave. A line is one of the year that the act posts or holds in.
#[tactic(auto, using(cf_model::proofs::First::firsts))]
pub fn name_refusal(chart: &Chart, orders: &Orders, on: Day, act: &Act) -> Option<Refusal>
    requires { is_day on ≡ true }
    ensures { result ≡ spec.name_refusal chart.now orders.now.documents on act.now }
{
    match act {
        Act::Adopt(a) => adoption_refusal(chart, orders, a),
        Act::Amend(a) => {
            fund_refusal(chart, a.fund).or_else(|| line_refusal(chart, a.fund, a.year, a.line))
        }
        Act::Transfer(t) => transfer_refusal(chart, orders, t),
        Act::Requisition(r) => {
            accounts_refusal(chart, document_year(chart, on, act), r.items.as_slice())
        }
        Act::Withdraw(number) => requisition_refusal(orders, *number),
        Act::Order(o) => or(
            taken_up_refusal(chart, orders, o.requisition),
            accounts_refusal(chart, document_year(chart, on, act), o.items.as_slice()),
        ),
        Act::ChangeOrder(c) => change_refusal(chart, orders, on, c),
        Act::CancelOrder(number) => order_refusal(orders, *number),
        Act::Voucher(v) => {
            items_refusal(
                chart,
                orders,
                document_year(chart, on, act),
                v.items.as_slice(),
            )
        }
        Act::VoidVoucher(number) => voucher_refusal(orders, *number),
        Act::Pay(p) => vouchers_refusal(orders, p.vouchers.as_slice()),
        Act::Bill(b) => any_source_refusal(chart, b.source),
        Act::Receive(r) => any_source_refusal(chart, r.source),
        Act::Interfund(m) => { fund_refusal(chart, m.from).or_else(|| fund_refusal(chart, m.to)) }
        Act::Collect(_)
        | Act::WriteOff(_)
        | Act::Asset(_)
        | Act::Issue(_)
        | Act::PayDue(_)
        | Act::Leave(_)
        | Act::Close(_)
        | Act::Lease(_) => None,
    }
}
