//! What an act does to accounts, as deeds of the posting table.

ghost use Rattle.std.specs.Prelude.{◌≡◌, ◌∷◌, ◌++◌, [], true, map, IfOk, OnOk};
ghost use Rattle.cf_base.specs.Common.{is_day};
ghost use Rattle.cf_model.specs.Common.{spent_by, bill_at};
ghost use Rattle.cf_model.specs.Charted as charted;
ghost use Rattle.cf_model.specs.Deeds as spec;
ghost use Rattle.cf_registers.specs.Deeds.{item_account};
ghost use Rattle.cf_registers.specs.Numbered.{AreNumbered};

use crate::closing::close_month;
use crate::long_term::{asset_deeds, issue, lease, leave, pay_due};
use crate::registers::Registers;
use cf_base::Day;
use cf_calls::Act;
use cf_calls::acts::{BillAmount, FundMove, FundMoveKind, NewBill, Period};
use cf_calls::items::{AccountItem, SourceAmount, VoucherItem};
use cf_chart::Chart;
use cf_orders::Orders;
use cf_post::deed::{self, Collection, Deed, FundAmount, FundsAmount, Spent, SpentItem};
use cf_register_parts::{document_year, function_of, fund_of, is_capital, year_of_day};
use cf_revenue::Revenue;
use std::alloc::{AllocError, Global};

/// What an account is charged for: an asset, or its department's function.
fn spent_on(chart: &Chart, account: AccountItem) -> Spent
    ensures { result ≡ spec.spent_on chart.now account }
{
    if is_capital(chart, account.object) {
        Spent::Capital
    } else {
        Spent::Current(function_of(chart, account.dept))
    }
}

fn spent_item(chart: &Chart, voucher_year: u16, account: AccountItem) -> SpentItem
    ensures { result ≡ spec.spent_item chart.now voucher_year account }
{
    SpentItem {
        voucher_year,
        fund: account.fund,
        spent: spent_on(chart, account),
        amount: account.amount,
    }
}

fn account_of(item: cf_orders::ExpendedItem) -> AccountItem
    ensures { result ≡ item_account item }
{
    AccountItem {
        fund: item.fund,
        dept: item.dept,
        object: item.object,
        amount: item.amount,
    }
}

/// What the items of a voucher spend.
fn spend_each(
    alloc: Global,
    chart: &Chart,
    year: u16,
    items: &[VoucherItem],
) -> Result<Vec<Deed>, AllocError>
    ensures { IfOk result
        (λ v. v.items ≡ map
        (λ i. Deed.Voucher (spec.spent_item chart.now year i.account)) items.now) }
{
    let mut deeds = Vec::new(alloc);
    for item in items {
        deeds.push(Deed::Voucher(spent_item(chart, year, item.account)))?;
    }
    Ok(deeds)
}

/// What the void of a voucher takes back.
fn unspend_each(
    alloc: Global,
    chart: &Chart,
    orders: &Orders,
    voucher: u32,
) -> Result<Vec<Deed>, AllocError>
    ensures { IfOk result
        (λ v. v.items ≡ map (λ x. Deed.VoidVoucher (spec.spent_item chart.now x.year x.account))
        (spent_by voucher orders.now.documents.expenditures)) }
{
    let mut deeds = Vec::new(alloc);
    for nth in 0..orders.voucher_items(voucher) {
        if let Some(item) = orders.voucher_item(voucher, nth) {
            let taken_back = spent_item(chart, item.year, account_of(item));
            deeds.push(Deed::VoidVoucher(taken_back))?;
        }
    }
    Ok(deeds)
}

/// Appends what the payment of a voucher takes.
fn pay_voucher(
    deeds: &mut Vec<Deed>,
    orders: &Orders,
    year: u16,
    voucher: u32,
) -> Result<(), AllocError>
    ensures { OnOk result
        (deeds.new.items ≡ deeds.old.items
        ++ map (spec.pay_deed year) (spent_by voucher orders.now.documents.expenditures)) }
{
    for nth in 0..orders.voucher_items(voucher) {
        if let Some(item) = orders.voucher_item(voucher, nth) {
            deeds.push(Deed::Pay(FundAmount {
                year,
                fund: item.fund,
                amount: item.amount,
            }))?;
        }
    }
    Ok(())
}

/// What the payment of vouchers takes.
fn pay_each(
    alloc: Global,
    orders: &Orders,
    year: u16,
    vouchers: &[u32],
) -> Result<Vec<Deed>, AllocError>
    ensures { IfOk result
        (λ v. v.items ≡ spec.pay_items year orders.now.documents.expenditures vouchers.now) }
{
    let mut deeds = Vec::new(alloc);
    for voucher in vouchers {
        pay_voucher(&mut deeds, orders, year, *voucher)?;
    }
    Ok(deeds)
}

fn receive(chart: &Chart, year: u16, receipt: &SourceAmount) -> Deed
    ensures { result ≡ Deed.Receive
        (record {
          year = year;
          fund = charted.fund_of chart.now receipt.now.source;
          source = receipt.now.source;
          amount = receipt.now.amount;
        }) }
{
    Deed::Receive(deed::SourceAmount {
        year,
        fund: fund_of(chart, receipt.source),
        source: receipt.source,
        amount: receipt.amount,
    })
}

fn move_funds(year: u16, moved: &FundMove) -> Deed
    ensures { result ≡ spec.fund_deed moved.now.what
        (record {
          year = year;
          from = moved.now.from;
          to = moved.now.to;
          amount = moved.now.amount;
        }) }
{
    let amount = FundsAmount {
        year,
        from: moved.from,
        to: moved.to,
        amount: moved.amount,
    };
    match moved.what {
        FundMoveKind::Transfer => Deed::Transfer(amount),
        FundMoveKind::Loan => Deed::Loan(amount),
        FundMoveKind::Repay => Deed::Repay(amount),
    }
}

fn enter_bill(chart: &Chart, bill: &NewBill) -> Deed
    ensures { result ≡ Deed.Bill
        (record {
          levy_year = bill.now.levy_year;
          fund = charted.fund_of chart.now bill.now.source;
          source = bill.now.source;
          amount = bill.now.amount;
        }) }
{
    Deed::Bill(deed::NewBill {
        levy_year: bill.levy_year,
        fund: fund_of(chart, bill.source),
        source: bill.source,
        amount: bill.amount,
    })
}

/// What a collection takes of a bill, in the fiscal year that it is revenue of.
fn collect(
    alloc: Global,
    chart: &Chart,
    revenue: &Revenue,
    on: Day,
    part: &BillAmount,
) -> Result<Vec<Deed>, AllocError>
    requires { is_day on ≡ true }
    ensures { IfOk result
        (λ v. v.items ≡ spec.collect_deeds chart.now on part.now
        (bill_at part.now.bill revenue.now.receivables.bills)) }
{
    match (
        revenue.bill(part.bill),
        revenue.collected_year(chart, on, part.bill),
    ) {
        (Some(bill), Some(recognised_year)) => one(
            alloc,
            Deed::Collect(Collection {
                year: year_of_day(chart, on),
                recognised_year,
                fund: fund_of(chart, bill.source),
                source: bill.source,
                amount: part.amount,
            }),
        ),
        (None, _) | (_, None) => Ok(Vec::new(alloc)),
    }
}

/// What a write-off takes of a bill, in the fiscal year of its day.
fn write_off(
    alloc: Global,
    chart: &Chart,
    revenue: &Revenue,
    on: Day,
    part: &BillAmount,
) -> Result<Vec<Deed>, AllocError>
    requires { is_day on ≡ true }
    ensures { IfOk result
        (λ v. v.items ≡ spec.write_off_deeds chart.now on part.now
        (bill_at part.now.bill revenue.now.receivables.bills)) }
{
    match revenue.bill(part.bill) {
        Some(bill) => one(
            alloc,
            Deed::WriteOff(deed::SourceAmount {
                year: year_of_day(chart, on),
                fund: fund_of(chart, bill.source),
                source: bill.source,
                amount: part.amount,
            }),
        ),
        None => Ok(Vec::new(alloc)),
    }
}

/// One deed alone.
pub fn one(alloc: Global, deed: Deed) -> Result<Vec<Deed>, AllocError>
    ensures { IfOk result (λ v. v.items ≡ deed ∷ []) }
{
    let mut deeds = Vec::new(alloc);
    deeds.push(deed)?;
    Ok(deeds)
}

/// What an act does to accounts, over the registers before it.
pub fn deeds(
    alloc: Global,
    chart: &Chart,
    registers: &Registers,
    on: Day,
    act: &Act,
) -> Result<Vec<Deed>, AllocError>
    requires day { is_day on ≡ true }
    requires numbered { AreNumbered registers.now.registers }
    ensures { IfOk result
        (λ v. v.items ≡ spec.deeds_of chart.now registers.now.registers on act.now) }
{
    let orders = registers.orders();
    let revenue = registers.revenue();
    match act {
        Act::Voucher(voucher) => {
            let year = document_year(chart, on, act);
            spend_each(alloc, chart, year, voucher.items.as_slice())
        }
        Act::VoidVoucher(number) => unspend_each(alloc, chart, orders, *number),
        Act::Pay(payment) => {
            let year = year_of_day(chart, on);
            pay_each(alloc, orders, year, payment.vouchers.as_slice())
        }
        Act::Bill(bill) => one(alloc, enter_bill(chart, bill)),
        Act::Collect(part) => collect(alloc, chart, revenue, on, part),
        Act::WriteOff(part) => write_off(alloc, chart, revenue, on, part),
        Act::Receive(receipt) => one(alloc, receive(chart, year_of_day(chart, on), receipt)),
        Act::Asset(asset) => asset_deeds(alloc, chart, registers, on, asset),
        Act::Issue(bond) => one(alloc, issue(year_of_day(chart, on), bond)),
        Act::Lease(contract) => one(alloc, lease(year_of_day(chart, on), contract)),
        Act::PayDue(payment) => pay_due(alloc, chart, registers.debt(), on, payment),
        Act::Leave(what) => leave(alloc, chart, on, what),
        Act::Interfund(moved) => one(alloc, move_funds(year_of_day(chart, on), moved)),
        Act::Close(Period::Month(_)) => close_month(alloc, chart, registers),
        Act::Adopt(_)
        | Act::Amend(_)
        | Act::Transfer(_)
        | Act::Requisition(_)
        | Act::Withdraw(_)
        | Act::Order(_)
        | Act::ChangeOrder(_)
        | Act::CancelOrder(_)
        | Act::Close(Period::Year(_)) => Ok(Vec::new(alloc)),
    }
}
