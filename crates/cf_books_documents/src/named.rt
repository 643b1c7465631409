//! What the act of an entry does to documents.

ghost use Rattle.std.specs.Prelude.{◌≡◌, ◌++◌, ◌∷◌, [], map, OnOk};
ghost use Rattle.std.specs.Option.{option_copied};
ghost use Rattle.cf_books_documents.specs.Events as spec;
ghost use Rattle.cf_books_documents.specs.Indexed.{KnowsVouchers};
ghost use Rattle.cf_calls.specs.Common.{voucher_items};
ghost use Rattle.cf_register_parts.specs.Pairs.{amount_at};

use crate::event::{Deed, Event, Subject};
use crate::lent::{Lent, loan_between};
use crate::vouchers::{Vouchers, voucher_at};
use cf_calls::acts::{AssetAct, FundMove, FundMoveKind};
use cf_calls::items::{Charge, VoucherItem};
use cf_calls::{Act, Entry};
use cf_chart::Chart;
use cf_register_parts::is_capital;
use std::alloc::AllocError;

/// Adds what an entry does to a whole document.
fn add(
    out: &mut Vec<Event>,
    subject: Subject,
    number: u32,
    deed: Deed,
    place: u64,
) -> Result<(), AllocError>
    ensures { OnOk result (out.new.items ≡ out.old.items ++ spec.whole subject number deed place ∷
        []) }
{
    out.push(Event {
        subject,
        number: u64::from(number),
        item: 0,
        deed,
        place,
    })?;
    Ok(())
}

/// Adds what an entry does to an item of an order.
fn add_item(
    out: &mut Vec<Event>,
    order: u32,
    item: u16,
    deed: Deed,
    place: u64,
) -> Result<(), AllocError>
    ensures { OnOk result (out.new.items ≡ out.old.items
        ++ spec.of_item order item deed place ∷ []) }
{
    out.push(Event {
        subject: Subject::Order,
        number: u64::from(order),
        item: u64::from(item),
        deed,
        place,
    })?;
    Ok(())
}

/// Adds the order item that a voucher's item is charged against.
fn add_charge(
    out: &mut Vec<Event>,
    deed: Deed,
    place: u64,
    charge: Charge,
) -> Result<(), AllocError>
    ensures { OnOk result (out.new.items ≡ out.old.items ++ spec.charged_by deed place charge) }
{
    match charge {
        Charge::Direct => Ok(()),
        Charge::OnOrder {
            item,
            order,
            how: _,
        } => add_item(out, order, item, deed, place),
    }
}

/// Adds the order items that a voucher's items are charged against.
fn add_charges(
    out: &mut Vec<Event>,
    deed: Deed,
    place: u64,
    items: &[VoucherItem],
) -> Result<(), AllocError>
    ensures { OnOk result (out.new.items ≡ out.old.items ++ spec.charged deed place items.now) }
{
    for item in items {
        add_charge(out, deed, place, item.charge)?;
    }
    Ok(())
}

/// Adds the assets that a voucher's items buy, from the number of the first on.
fn add_bought(
    out: &mut Vec<Event>,
    chart: &Chart,
    deed: Deed,
    place: u64,
    first: u32,
    items: &[VoucherItem],
) -> Result<(), AllocError>
    ensures { OnOk result (out.new.items ≡ out.old.items ++ spec.bought chart.now deed place first
        items.now) }
{
    let mut number = u64::from(first);
    for item in items {
        if is_capital(chart, item.account.object) {
            out.push(Event {
                subject: Subject::Asset,
                number,
                item: 0,
                deed,
                place,
            })?;
            number += 1;
        }
    }
    Ok(())
}

/// The items of a voucher, and none of another act.
fn items_of(act: &Act) -> &[VoucherItem]
    ensures { result.now ≡ voucher_items act.now }
{
    match act {
        Act::Voucher(voucher) => voucher.items.as_slice(),
        Act::Adopt(_)
        | Act::Amend(_)
        | Act::Transfer(_)
        | Act::Requisition(_)
        | Act::Withdraw(_)
        | Act::Order(_)
        | Act::ChangeOrder(_)
        | Act::CancelOrder(_)
        | Act::VoidVoucher(_)
        | Act::Pay(_)
        | Act::Bill(_)
        | Act::Collect(_)
        | Act::Receive(_)
        | Act::WriteOff(_)
        | Act::Asset(_)
        | Act::Issue(_)
        | Act::PayDue(_)
        | Act::Leave(_)
        | Act::Interfund(_)
        | Act::Close(_)
        | Act::Lease(_) => &[],
    }
}

/// Adds what a void of a voucher undoes.
fn add_undone(
    out: &mut Vec<Event>,
    chart: &Chart,
    place: u64,
    voucher: Option<&Entry>,
) -> Result<(), AllocError>
    ensures { OnOk result (out.new.items ≡ out.old.items ++ spec.undone chart.now place
        (option_copied voucher.entry)) }
{
    let Some(voucher) = voucher else {
        return Ok(());
    };
    let items = items_of(&voucher.change.act);
    add_charges(out, Deed::Reopened, place, items)?;
    add_bought(out, chart, Deed::Voided, place, voucher.drawn.second, items)
}

/// Adds what an order does.
fn add_order(
    out: &mut Vec<Event>,
    place: u64,
    number: u32,
    requisition: Option<u32>,
) -> Result<(), AllocError>
    ensures { OnOk result (out.new.items ≡ out.old.items ++ (spec.whole Subject.Order number
        Deed.Entered place ∷ spec.ordered place requisition)) }
{
    add(out, Subject::Order, number, Deed::Entered, place)?;
    match requisition {
        Some(n) => add(out, Subject::Requisition, n, Deed::Ordered, place),
        None => Ok(()),
    }
}

/// Adds what a voucher does.
fn add_voucher(
    out: &mut Vec<Event>,
    chart: &Chart,
    place: u64,
    number: u32,
    first: u32,
    items: &[VoucherItem],
) -> Result<(), AllocError>
    ensures { OnOk result (out.new.items ≡ out.old.items ++ (spec.whole Subject.Voucher number
        Deed.Entered place ∷ (spec.charged Deed.Charged place items.now ++ spec.bought chart.now
        Deed.Entered place first items.now))) }
{
    add(out, Subject::Voucher, number, Deed::Entered, place)?;
    add_charges(out, Deed::Charged, place, items)?;
    add_bought(out, chart, Deed::Entered, place, first, items)
}

/// Adds what a void of a voucher does.
fn add_void(
    out: &mut Vec<Event>,
    chart: &Chart,
    place: u64,
    number: u32,
    voucher: Option<&Entry>,
) -> Result<(), AllocError>
    ensures { OnOk result (out.new.items ≡ out.old.items ++ (spec.whole Subject.Voucher number
        Deed.Voided place ∷ spec.undone chart.now place (option_copied voucher.entry))) }
{
    add(out, Subject::Voucher, number, Deed::Voided, place)?;
    add_undone(out, chart, place, voucher)
}

/// Adds the vouchers that a payment pays.
fn add_paid(out: &mut Vec<Event>, place: u64, vouchers: &[u32]) -> Result<(), AllocError>
    ensures { OnOk result (out.new.items ≡ out.old.items ++ map (λ n. spec.whole Subject.Voucher n
        Deed.Paid place) vouchers.now) }
{
    for number in vouchers {
        add(out, Subject::Voucher, *number, Deed::Paid, place)?;
    }
    Ok(())
}

/// Adds what is done with an asset.
fn add_asset(
    out: &mut Vec<Event>,
    place: u64,
    number: u32,
    what: AssetAct,
) -> Result<(), AllocError>
    ensures { OnOk result (out.new.items ≡ out.old.items ++ spec.of_asset place number what) }
{
    match what {
        AssetAct::Donate(_) => add(out, Subject::Asset, number, Deed::Entered, place),
        AssetAct::Dispose(d) => add(out, Subject::Asset, d.asset, Deed::Disposed, place),
    }
}

/// Adds the asset and the debt of a lease.
fn add_lease(out: &mut Vec<Event>, place: u64, asset: u32, debt: u32) -> Result<(), AllocError>
    ensures { OnOk result (out.new.items ≡ out.old.items ++ (spec.whole Subject.Asset asset
        Deed.Entered place ∷ spec.whole Subject.Debt debt Deed.Entered place ∷ [])) }
{
    add(out, Subject::Asset, asset, Deed::Entered, place)?;
    add(out, Subject::Debt, debt, Deed::Entered, place)
}

/// Adds what an entry does to the loan of a place.
fn add_loan(out: &mut Vec<Event>, loan: u64, deed: Deed, place: u64) -> Result<(), AllocError>
    ensures { OnOk result (out.new.items ≡ out.old.items ++ spec.whole Subject.Loan loan deed place
        ∷ []) }
{
    out.push(Event {
        subject: Subject::Loan,
        number: loan,
        item: 0,
        deed,
        place,
    })?;
    Ok(())
}

/// Adds a repayment at the loan of a place, where there is one.
fn add_repaid(out: &mut Vec<Event>, loan: u64, place: u64) -> Result<(), AllocError>
    ensures { OnOk result (out.new.items ≡ out.old.items ++ spec.repaid place loan) }
{
    if loan == 0 {
        return Ok(());
    }
    add_loan(out, loan, Deed::Repaid, place)
}

/// Adds what the entry at a place does to a loan by its number, which is the place of the loan's
/// entry.
fn add_cash(out: &mut Vec<Event>, lent: &Lent, place: u64, cash: FundMove) -> Result<(), AllocError>
    ensures { OnOk result (out.new.items ≡ out.old.items ++ spec.of_cash place (amount_at
        lent.now.entries) cash cash.what) }
{
    match cash.what {
        FundMoveKind::Loan => add_loan(out, place, Deed::Entered, place),
        FundMoveKind::Repay => add_repaid(out, loan_between(lent, cash.to, cash.from), place),
        FundMoveKind::Transfer => Ok(()),
    }
}

/// Adds what the entry at a place does to documents.
pub fn add_events(
    out: &mut Vec<Event>,
    chart: &Chart,
    vouchers: &Vouchers,
    lent: &Lent,
    entries: &[Entry],
    place: u64,
    entry: &Entry,
) -> Result<(), AllocError>
    requires { KnowsVouchers entries.now vouchers.now }
    ensures { OnOk result (out.new.items ≡ out.old.items ++ spec.events_by chart.now
        (spec.voucher_in entries.now) (amount_at lent.now.entries) place entry.now.drawn
        entry.now.change.act) }
{
    let number = entry.drawn.number;
    let second = entry.drawn.second;
    match &entry.change.act {
        Act::Requisition(_) => add(out, Subject::Requisition, number, Deed::Entered, place),
        Act::Withdraw(n) => add(out, Subject::Requisition, *n, Deed::Withdrawn, place),
        Act::Order(order) => add_order(out, place, number, order.requisition),
        Act::ChangeOrder(c) => add_item(out, c.order, c.item, Deed::Changed, place),
        Act::CancelOrder(n) => add(out, Subject::Order, *n, Deed::Cancelled, place),
        Act::Voucher(v) => add_voucher(out, chart, place, number, second, v.items.as_slice()),
        Act::VoidVoucher(n) => {
            add_void(out, chart, place, *n, voucher_at(vouchers, entries, *n))
        }
        Act::Pay(payment) => add_paid(out, place, payment.vouchers.as_slice()),
        Act::Bill(_) => add(out, Subject::Bill, number, Deed::Entered, place),
        Act::Collect(c) => add(out, Subject::Bill, c.bill, Deed::Collected, place),
        Act::WriteOff(w) => add(out, Subject::Bill, w.bill, Deed::WrittenOff, place),
        Act::Asset(what) => add_asset(out, place, number, *what),
        Act::Issue(_) => add(out, Subject::Debt, number, Deed::Entered, place),
        Act::PayDue(p) => add(out, Subject::Debt, p.bond, Deed::Paid, place),
        Act::Lease(_) => add_lease(out, place, number, second),
        Act::Interfund(cash) => add_cash(out, lent, place, *cash),
        Act::Adopt(_)
        | Act::Amend(_)
        | Act::Transfer(_)
        | Act::Receive(_)
        | Act::Leave(_)
        | Act::Close(_) => Ok(()),
    }
}
