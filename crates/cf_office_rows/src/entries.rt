//! What each entry moves.

ghost use Rattle.std.specs.Prelude.{◌≡◌, ◌++◌, ◌≤◌, ◌<◌, ◌^◌, length, unsigned_abs, true, OnOk};
ghost use Rattle.std.specs.List.{All};
ghost use Rattle.cf_base.specs.Common.{is_day};
ghost use Rattle.cf_calls.specs.Common.{IsActInForm};
ghost use Rattle.cf_calls.specs.declared.acts.Act.TheVariants as act;
ghost use Rattle.cf_orders.specs.Register.{IsAllowed};
ghost use Rattle.cf_registers.specs.Moved.{IsCleared};
ghost use Rattle.cf_office_rows.specs.Entries as spec;
ghost use Rattle.cf_office_rows.specs.Entries.{document_rows, order_entry_rows};
ghost use Rattle.cf_office_rows.specs.Rolls.{AreReleased};
ghost use Rattle.cf_office_rows.specs.Rows.{kept};

use crate::council::{put_adopted, put_change, put_transfer};
use crate::documents::{put_held, put_items, put_ordered, put_paired, put_same};
use crate::rolls::put_roll;
use crate::rows::{LedgerRow, Origin};
use crate::sources::{bill_by, put_received};
use crate::spendings::{put_lease, put_leave, put_payment};
use cf_base::Day;
use cf_calls::acts::NewOrder;
use cf_calls::{Act, Drawn, Entry};
use cf_chart::Chart;
use cf_ledger::Post;
use cf_orders::Orders;
use cf_register_parts::{document_year, rolled_year, year_of_day};
use cf_registers::Registers;
use std::alloc::{AllocError, Global};

/// Adds the rows of the items of the requisition that an order takes up, if it takes up one.
fn put_taken(
    out: &mut Vec<LedgerRow>,
    chart: &Chart,
    orders: &Orders,
    on: Day,
    order: &NewOrder,
    place: u64,
) -> Result<(), AllocError>
    requires day { is_day on ≡ true }
    requires allowed { IsAllowed chart.now orders.now.documents on (act.Order order.now) }
    ensures { OnOk result (out.new.items ≡ out.old.items
        ++ kept
        (spec.taken_rows chart.now place order.now.requisition orders.now.documents.holds)) }
{
    match order.requisition {
        None => Ok(()),
        Some(taken) => { put_items(out, chart, orders, on, &Act::Withdraw(taken), place, taken) }
    }
}

/// Adds the rows of an order: of the items of the requisition that it takes up, and of its own.
fn put_order(
    out: &mut Vec<LedgerRow>,
    chart: &Chart,
    orders: &Orders,
    on: Day,
    year: u16,
    order: &NewOrder,
    place: u64,
    number: u32,
) -> Result<(), AllocError>
    requires day { is_day on ≡ true }
    requires few { length order.now.items ≤ 32 }
    requires allowed { IsAllowed chart.now orders.now.documents on (act.Order order.now) }
    ensures { OnOk result (out.new.items
        ≡ out.old.items ++ kept
        (order_entry_rows chart.now orders.now.documents place number year order.now)) }
{
    put_taken(out, chart, orders, on, order, place)?;
    put_ordered(out, chart, place, number, year, order.items.as_slice())
}

/// Adds rows of what an act on documents moves.
fn put_document(
    out: &mut Vec<LedgerRow>,
    chart: &Chart,
    orders: &Orders,
    place: u64,
    drawn: Drawn,
    on: Day,
    act: &Act,
) -> Result<(), AllocError>
    requires day { is_day on ≡ true }
    requires form { IsActInForm on act.now }
    requires allowed { IsAllowed chart.now orders.now.documents on act.now }
    ensures { OnOk result (out.new.items
        ≡ out.old.items ++ kept
        (document_rows chart.now orders.now.documents place drawn on act.now)) }
{
    let year = document_year(chart, on, act);
    let number = drawn.number;
    match act {
        Act::Requisition(requisition) => {
            put_held(
                out,
                chart,
                place,
                number,
                year,
                requisition.items.as_slice(),
            )
        }
        Act::Withdraw(named) => put_items(out, chart, orders, on, act, place, *named),
        Act::Order(order) => put_order(out, chart, orders, on, year, order, place, number),
        Act::ChangeOrder(change) => {
            let of = Origin {
                place,
                document: change.order,
                item: u32::from(change.item),
            };
            put_same(out, chart, orders, on, act, of)
        }
        Act::CancelOrder(named) => put_items(out, chart, orders, on, act, place, *named),
        Act::Voucher(voucher) => {
            let count = voucher.items.as_slice().len() as u32;
            put_paired(out, chart, orders, on, act, place, number, count)
        }
        Act::VoidVoucher(named) => {
            let count = u32::from(orders.voucher_items(*named));
            put_paired(out, chart, orders, on, act, place, *named, count)
        }
        Act::Adopt(_)
        | Act::Amend(_)
        | Act::Transfer(_)
        | Act::Pay(_)
        | Act::Bill(_)
        | Act::Collect(_)
        | Act::Receive(_)
        | Act::WriteOff(_)
        | Act::Asset(_)
        | Act::Issue(_)
        | Act::PayDue(_)
        | Act::Leave(_)
        | Act::Interfund(_)
        | Act::Close(_)
        | Act::Lease(_) => Ok(()),
    }
}

/// Adds rows of what an act moves of control lines.
fn put_act(
    alloc: Global,
    out: &mut Vec<LedgerRow>,
    chart: &Chart,
    before: &Registers,
    place: u64,
    entry: &Entry,
) -> Result<(), AllocError>
    requires cleared { IsCleared chart.now before.now.registers
        entry.now.change.on entry.now.change.act }
    requires released { AreReleased before.now.registers.documents.holds }
    ensures { OnOk result (out.new.items ≡ out.old.items
        ++ kept (spec.act_rows chart.now before.now.registers place entry.now.drawn
        entry.now.change.on entry.now.change.act)) }
{
    let (on, act, drawn) = (entry.change.on, &entry.change.act, entry.drawn);
    match act {
        Act::Adopt(adoption) => {
            put_adopted(out, chart, place, adoption.year, adoption.lines.as_slice())
        }
        Act::Amend(change) => {
            put_change(
                out,
                chart,
                place,
                change.line,
                change.year,
                i128::from(change.by),
            )
        }
        Act::Transfer(transfer) => put_transfer(out, chart, place, transfer),
        Act::PayDue(payment) => {
            put_payment(out, chart, before.debt(), place, drawn.number, payment)
        }
        Act::Leave(leave) => put_leave(out, chart, place, year_of_day(chart, on), leave),
        Act::Lease(lease) => {
            put_lease(
                out,
                chart,
                place,
                drawn.second,
                year_of_day(chart, on),
                lease,
            )
        }
        Act::Close(_) => {
            let year = rolled_year(chart, on, act);
            put_roll(alloc, out, chart, before.orders(), on, year, place)
        }
        Act::Requisition(_)
        | Act::Withdraw(_)
        | Act::Order(_)
        | Act::ChangeOrder(_)
        | Act::CancelOrder(_)
        | Act::Voucher(_)
        | Act::VoidVoucher(_)
        | Act::Pay(_)
        | Act::Bill(_)
        | Act::Collect(_)
        | Act::Receive(_)
        | Act::WriteOff(_)
        | Act::Asset(_)
        | Act::Issue(_)
        | Act::Interfund(_) => put_document(out, chart, before.orders(), place, drawn, on, act),
    }
}

/// Adds rows of what the entry at a place, from 1, moves of control lines and, by its posts on the
/// fund basis, of revenue sources.
pub fn put_entry(
    alloc: Global,
    out: &mut Vec<LedgerRow>,
    chart: &Chart,
    before: &Registers,
    place: u64,
    entry: &Entry,
    fund: &[Post],
) -> Result<(), AllocError>
    requires cleared { IsCleared chart.now before.now.registers
        entry.now.change.on entry.now.change.act }
    requires released { AreReleased before.now.registers.documents.holds }
    requires small { All (λ p. unsigned_abs p.amount < 2 ^ 127) fund.now }
    ensures { OnOk result (out.new.items
        ≡ out.old.items
        ++ spec.entry_rows chart.now before.now.registers place entry.now fund.now) }
{
    put_act(alloc, out, chart, before, place, entry)?;
    put_received(out, place, bill_by(entry.drawn, &entry.change.act), fund)
}
