//! The documents that entries entered, as they stand.

ghost use Rattle.std.specs.Prelude.{◌≡◌, ◌++◌, ◌∷◌, ◌<◌, ◌^◌, [], IfOk, OnOk};
ghost use Rattle.std.specs.Option.{option_copied};
ghost use Rattle.cf_books_documents.specs.Dated.{IsDated};
ghost use Rattle.cf_books_documents.specs.Documents as spec;

use crate::accounts::{alone, common, of_fund, total};
use crate::facts::{Account, Facts};
use crate::standing::{
    Standing, asset_now, bill_now, debt_now, item_now, item_shown, loan_now, requisition_now,
    unseen, voucher_now,
};
use cf_books_words::DocumentKind;
use cf_calls::acts::{
    AssetAct, BondIssue, FundMove, FundMoveKind, NewBill, NewLease, NewOrder, NewRequisition,
    NewVoucher,
};
use cf_calls::items::{AccountItem, VoucherItem};
use cf_calls::{Act, Entry, Read, Shown};
use cf_chart::Chart;
use cf_register_parts::{document_year, fund_of, is_capital};
use cf_registers::Registers;
use std::alloc::{AllocError, Global};

/// What documents stand in: a chart, and the registers of a whole history.
#[derive(Clone, Copy)]
pub struct Office<'a> {
    pub alloc: Global,
    pub chart: &'a Chart,
    pub registers: &'a Registers,
}

/// A document of a number that stands so.
fn facts_of(
    kind: DocumentKind,
    number: u64,
    party: u32,
    account: Account,
    source: Option<u16>,
    now: Standing,
) -> Facts
    ensures { result ≡ spec.facts_of kind number party account source now }
{
    Facts {
        kind,
        number,
        item: 0,
        party,
        account,
        source,
        first: None,
        year: now.year,
        amount: now.amount,
        left: now.left,
        state: now.state,
    }
}

/// The fiscal year of an entry's document.
fn year_of(chart: &Chart, entry: &Entry) -> u16
    requires { IsDated entry.now }
    ensures { result ≡ spec.year_of chart.now entry.now }
{
    document_year(chart, entry.change.on, &entry.change.act)
}

/// Adds a requisition.
fn add_requisition(
    out: &mut Vec<Facts>,
    office: &Office,
    entry: &Entry,
    requisition: &NewRequisition,
) -> Result<(), AllocError>
    ensures { OnOk result (out.new.items ≡ out.old.items ++ spec.requisition office.now.chart.now
        office.now.registers.now.registers entry.now requisition.now ∷ []) }
{
    let number = entry.drawn.number;
    let look = Read::Requisition {
        requisition: number,
    };
    let shown = office.registers.look(office.alloc, office.chart, &look)?;
    let items = requisition.items.as_slice();
    let now = requisition_now(shown.as_ref(), total(items));
    let account = common(items);
    out.push(facts_of(
        DocumentKind::Requisition,
        u64::from(number),
        0,
        account,
        None,
        now,
    ))?;
    Ok(())
}

/// An order's item at a place, from 0.
fn item_of(
    entry: &Entry,
    vendor: u32,
    first: u16,
    nth: usize,
    account: AccountItem,
    shown: Option<&Shown>,
) -> Facts
    requires { nth < 2 ^ 63 }
    ensures { result ≡ spec.item_of entry.now vendor first nth account (option_copied shown.entry) }
{
    let now = item_now(item_shown(shown, nth), account.amount);
    Facts {
        kind: DocumentKind::Order,
        number: u64::from(entry.drawn.number),
        item: nth as u64 + 1,
        party: vendor,
        account: alone(account),
        source: None,
        first: Some(first),
        year: now.year,
        amount: now.amount,
        left: now.left,
        state: now.state,
    }
}

/// Adds the items of an order.
fn add_items(
    out: &mut Vec<Facts>,
    entry: &Entry,
    vendor: u32,
    first: u16,
    items: &[AccountItem],
    shown: Option<&Shown>,
) -> Result<(), AllocError>
    ensures { OnOk result (out.new.items ≡ out.old.items ++ spec.items_from entry.now vendor first
        (option_copied shown.entry) 0 items.now) }
{
    for (nth, item) in items.iter().enumerate() {
        out.push(item_of(entry, vendor, first, nth, *item, shown))?;
    }
    Ok(())
}

/// Adds an order.
fn add_order(
    out: &mut Vec<Facts>,
    office: &Office,
    entry: &Entry,
    order: &NewOrder,
) -> Result<(), AllocError>
    requires { IsDated entry.now }
    ensures { OnOk result (out.new.items ≡ out.old.items ++ spec.order office.now.chart.now
        office.now.registers.now.registers entry.now order.now) }
{
    let look = Read::Order {
        order: entry.drawn.number,
    };
    let shown = office.registers.look(office.alloc, office.chart, &look)?;
    let first = year_of(office.chart, entry);
    let items = order.items.as_slice();
    add_items(out, entry, order.vendor, first, items, shown.as_ref())
}

/// Adds a voucher.
fn add_voucher(
    out: &mut Vec<Facts>,
    office: &Office,
    entry: &Entry,
    voucher: &NewVoucher,
) -> Result<(), AllocError>
    ensures { OnOk result (out.new.items ≡ out.old.items ++ spec.voucher office.now.chart.now
        office.now.registers.now.registers entry.now voucher.now ∷ []) }
{
    let number = entry.drawn.number;
    let look = Read::Voucher { voucher: number };
    let shown = office.registers.look(office.alloc, office.chart, &look)?;
    let now = voucher_now(shown.as_ref());
    let account = common(voucher.items.as_slice());
    out.push(facts_of(
        DocumentKind::Voucher,
        u64::from(number),
        voucher.vendor,
        account,
        None,
        now,
    ))?;
    Ok(())
}

/// Adds a bill.
fn add_bill(
    out: &mut Vec<Facts>,
    office: &Office,
    entry: &Entry,
    bill: &NewBill,
) -> Result<(), AllocError>
    ensures { OnOk result (out.new.items ≡ out.old.items ++ spec.bill office.now.chart.now
        office.now.registers.now.registers entry.now bill.now ∷ []) }
{
    let number = entry.drawn.number;
    let look = Read::Bill { bill: number };
    let shown = office.registers.look(office.alloc, office.chart, &look)?;
    let now = bill_now(shown.as_ref(), bill.amount);
    out.push(facts_of(
        DocumentKind::Bill,
        u64::from(number),
        bill.payer,
        of_fund(fund_of(office.chart, bill.source)),
        Some(bill.source),
        now,
    ))?;
    Ok(())
}

/// How an asset of a fiscal year and an amount stands.
fn asset_standing(
    office: &Office,
    number: u64,
    year: u16,
    amount: u64,
) -> Result<Standing, AllocError>
    ensures { IfOk result (λ now. now ≡ spec.asset_standing office.now.chart.now
        office.now.registers.now.registers number year amount) }
{
    let Ok(asset) = u32::try_from(number) else {
        return Ok(unseen(i128::from(amount)));
    };
    let look = Read::Asset { asset };
    let shown = office.registers.look(office.alloc, office.chart, &look)?;
    Ok(asset_now(shown.as_ref(), year, amount))
}

/// Adds an asset.
fn add_asset(
    out: &mut Vec<Facts>,
    office: &Office,
    number: u64,
    year: u16,
    account: Account,
    amount: u64,
    party: u32,
) -> Result<(), AllocError>
    ensures { OnOk result (out.new.items ≡ out.old.items ++ spec.asset office.now.chart.now
        office.now.registers.now.registers number year account amount party ∷ []) }
{
    let now = asset_standing(office, number, year, amount)?;
    out.push(facts_of(DocumentKind::Asset, number, party, account, None, now))?;
    Ok(())
}

/// Adds the assets that a voucher's items buy, from the number of the first on.
fn add_bought(
    out: &mut Vec<Facts>,
    office: &Office,
    year: u16,
    vendor: u32,
    first: u32,
    items: &[VoucherItem],
) -> Result<(), AllocError>
    ensures { OnOk result (out.new.items ≡ out.old.items ++ spec.bought office.now.chart.now
        office.now.registers.now.registers year vendor first items.now) }
{
    let mut number = u64::from(first);
    for item in items {
        let account = item.account;
        if is_capital(office.chart, account.object) {
            add_asset(
                out,
                office,
                number,
                year,
                alone(account),
                account.amount,
                vendor,
            )?;
            number += 1;
        }
    }
    Ok(())
}

/// Adds the asset of a gift.
fn add_gift(
    out: &mut Vec<Facts>,
    office: &Office,
    entry: &Entry,
    what: &AssetAct,
) -> Result<(), AllocError>
    requires { IsDated entry.now }
    ensures { OnOk result (out.new.items ≡ out.old.items ++ spec.gift office.now.chart.now
        office.now.registers.now.registers entry.now what.now) }
{
    match what {
        AssetAct::Donate(gift) => {
            let account = Account {
                fund: None,
                dept: Some(gift.dept),
                object: Some(gift.object),
            };
            let number = u64::from(entry.drawn.number);
            let year = year_of(office.chart, entry);
            add_asset(out, office, number, year, account, gift.amount, 0)
        }
        AssetAct::Dispose(_) => Ok(()),
    }
}

/// Adds the asset of a lease.
fn add_leased(
    out: &mut Vec<Facts>,
    office: &Office,
    number: u32,
    year: u16,
    lease: &NewLease,
) -> Result<(), AllocError>
    ensures { OnOk result (out.new.items ≡ out.old.items ++ spec.leased office.now.chart.now
        office.now.registers.now.registers number year lease.now ∷ []) }
{
    let account = lease.account;
    let number = u64::from(number);
    add_asset(
        out,
        office,
        number,
        year,
        alone(account),
        account.amount,
        lease.vendor,
    )
}

/// Adds a bond or a lease.
fn add_debt(
    out: &mut Vec<Facts>,
    office: &Office,
    kind: DocumentKind,
    number: u32,
    year: u16,
    account: Account,
    amount: u64,
    party: u32,
) -> Result<(), AllocError>
    ensures { OnOk result (out.new.items ≡ out.old.items ++ spec.debt office.now.chart.now
        office.now.registers.now.registers kind number year account amount party ∷ []) }
{
    let look = Read::Bond { bond: number };
    let shown = office.registers.look(office.alloc, office.chart, &look)?;
    let now = debt_now(shown.as_ref(), year, amount);
    out.push(facts_of(kind, u64::from(number), party, account, None, now))?;
    Ok(())
}

/// Adds a bond.
fn add_bond(
    out: &mut Vec<Facts>,
    office: &Office,
    number: u32,
    year: u16,
    bond: &BondIssue,
) -> Result<(), AllocError>
    ensures { OnOk result (out.new.items ≡ out.old.items ++ spec.bond office.now.chart.now
        office.now.registers.now.registers number year bond.now ∷ []) }
{
    let account = of_fund(bond.fund);
    add_debt(
        out,
        office,
        DocumentKind::Bond,
        number,
        year,
        account,
        bond.amount,
        0,
    )
}

/// Adds a lease.
fn add_lease(
    out: &mut Vec<Facts>,
    office: &Office,
    number: u32,
    year: u16,
    lease: &NewLease,
) -> Result<(), AllocError>
    ensures { OnOk result (out.new.items ≡ out.old.items ++ spec.lease office.now.chart.now
        office.now.registers.now.registers number year lease.now ∷ []) }
{
    let account = alone(lease.account);
    let amount = lease.account.amount;
    add_debt(
        out,
        office,
        DocumentKind::Lease,
        number,
        year,
        account,
        amount,
        lease.vendor,
    )
}

/// Adds the loan of the entry at a place.
fn add_loan(
    out: &mut Vec<Facts>,
    office: &Office,
    place: u64,
    year: u16,
    cash: FundMove,
) -> Result<(), AllocError>
    ensures { OnOk result (out.new.items ≡ out.old.items ++ spec.loan
        office.now.registers.now.registers place year cash cash.what) }
{
    match cash.what {
        FundMoveKind::Loan => {
            let owed = office.registers.revenue().owed(cash.to, cash.from);
            let now = loan_now(year, cash.amount, owed);
            let account = of_fund(cash.from);
            let party = u32::from(cash.to);
            out.push(facts_of(DocumentKind::Loan, place, party, account, None, now))?;
            Ok(())
        }
        FundMoveKind::Transfer | FundMoveKind::Repay => Ok(()),
    }
}

/// Adds what an entry at a place entered of a kind.
pub fn add_documents(
    out: &mut Vec<Facts>,
    office: &Office,
    kind: DocumentKind,
    place: u64,
    entry: &Entry,
) -> Result<(), AllocError>
    requires { IsDated entry.now }
    ensures { OnOk result (out.new.items ≡ out.old.items ++ spec.documents_by office.now.chart.now
        office.now.registers.now.registers kind place entry.now entry.now.change.act) }
{
    let drawn = entry.drawn;
    let year = year_of(office.chart, entry);
    match (kind, &entry.change.act) {
        (DocumentKind::Requisition, Act::Requisition(r)) => add_requisition(out, office, entry, r),
        (DocumentKind::Order, Act::Order(order)) => add_order(out, office, entry, order),
        (DocumentKind::Voucher, Act::Voucher(v)) => add_voucher(out, office, entry, v),
        (DocumentKind::Bill, Act::Bill(bill)) => add_bill(out, office, entry, bill),
        (DocumentKind::Asset, Act::Voucher(v)) => {
            let items = v.items.as_slice();
            add_bought(out, office, year, v.vendor, drawn.second, items)
        }
        (DocumentKind::Asset, Act::Asset(what)) => add_gift(out, office, entry, what),
        (DocumentKind::Asset, Act::Lease(l)) => add_leased(out, office, drawn.number, year, l),
        (DocumentKind::Bond, Act::Issue(i)) => add_bond(out, office, drawn.number, year, i),
        (DocumentKind::Lease, Act::Lease(l)) => add_lease(out, office, drawn.second, year, l),
        (DocumentKind::Loan, Act::Interfund(cash)) => add_loan(out, office, place, year, *cash),
        (
            DocumentKind::Requisition
            | DocumentKind::Order
            | DocumentKind::Voucher
            | DocumentKind::Bill
            | DocumentKind::Asset
            | DocumentKind::Bond
            | DocumentKind::Lease
            | DocumentKind::Loan,
            Act::Adopt(_)
            | Act::Amend(_)
            | Act::Transfer(_)
            | Act::Requisition(_)
            | Act::Withdraw(_)
            | Act::Order(_)
            | Act::ChangeOrder(_)
            | Act::CancelOrder(_)
            | Act::Voucher(_)
            | Act::VoidVoucher(_)
            | Act::Pay(_)
            | Act::Bill(_)
            | Act::Collect(_)
            | Act::Receive(_)
            | Act::WriteOff(_)
            | Act::Asset(_)
            | Act::Issue(_)
            | Act::PayDue(_)
            | Act::Leave(_)
            | Act::Interfund(_)
            | Act::Close(_)
            | Act::Lease(_),
        ) => Ok(()),
    }
}
