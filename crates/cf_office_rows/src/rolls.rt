//! What the roll of a fiscal year moves.

ghost use Rattle.std.specs.Prelude.{◌≡◌, ◌++◌, ◌+◌, ◌-◌, ◌<◌, ◌≤◌, flat_map, true, IfSome, OnOk};
ghost use Rattle.std.specs.List.{range_with_len};
ghost use Rattle.cf_base.specs.Common.{is_day, last_fiscal_year};
ghost use Rattle.cf_calls.specs.Common.{IsActInForm};
ghost use Rattle.cf_calls.specs.declared.acts.Act.TheVariants as variant;
ghost use Rattle.cf_orders.specs.Register.{IsAllowed, IsSmall};
ghost use Rattle.cf_office_rows.specs.Rolls as spec;
ghost use Rattle.cf_office_rows.specs.Rolls.{AreReleased, order_rows, requisition_rows};
ghost use Rattle.cf_office_rows.specs.Rows.{kept};

use crate::rows::{Amounts, LedgerRow, NOTHING, Origin, on_account, on_move, put};
use cf_base::Day;
use cf_calls::acts::{NewOrder, NewRequisition};
use cf_calls::{Act, List};
use cf_chart::Chart;
use cf_orders::{LineMove, Orders};
use cf_register_parts::{carries, has_line};
use std::alloc::{AllocError, Global};

/// Adds the row of a move, where it is of this year.
fn put_in_year(
    out: &mut Vec<LedgerRow>,
    chart: &Chart,
    of: Origin,
    year: u16,
    moved: Option<LineMove>,
) -> Result<(), AllocError>
    ensures { OnOk result
        (out.new.items ≡ out.old.items ++ kept (spec.in_year chart.now of year moved)) }
{
    match moved {
        Some(moved) => {
            if moved.year == year {
                put(out, on_move(chart, of, &moved))
            } else {
                Ok(())
            }
        }
        None => Ok(()),
    }
}

/// Adds the rows of what the roll of a year releases of a requisition that is open.
fn put_released(
    out: &mut Vec<LedgerRow>,
    chart: &Chart,
    orders: &Orders,
    on: Day,
    act: &Act,
    year: u16,
    place: u64,
    number: u32,
) -> Result<(), AllocError>
    requires day { is_day on ≡ true }
    requires named { act.now ≡ variant.Withdraw number }
    requires form { IsActInForm on act.now }
    requires allowed { IsAllowed chart.now orders.now.documents on act.now }
    ensures { OnOk result (out.new.items
        ≡ out.old.items ++ kept
        (requisition_rows chart.now place year orders.now.documents.holds number)) }
{
    let count = orders.moves(act) as u32;
    for nth in 0..count {
        let of = Origin {
            place,
            document: number,
            item: nth + 1,
        };
        let moved = orders.move_at(chart, on, act, nth as usize);
        put_in_year(out, chart, of, year, moved)?;
    }
    Ok(())
}

/// Adds the rows of what the roll of a year releases of a requisition.
fn put_requisition(
    out: &mut Vec<LedgerRow>,
    chart: &Chart,
    orders: &Orders,
    on: Day,
    year: u16,
    place: u64,
    number: u32,
) -> Result<(), AllocError>
    requires day { is_day on ≡ true }
    requires released { AreReleased orders.now.documents.holds }
    ensures { OnOk result (out.new.items
        ≡ out.old.items ++ kept
        (requisition_rows chart.now place year orders.now.documents.holds number)) }
{
    let act = Act::Withdraw(number);
    match orders.check(chart, on, 0, &act) {
        Some(_) => Ok(()),
        None => put_released(out, chart, orders, on, &act, year, place, number),
    }
}

/// What is carried into the year after: an encumbrance, and as much appropriation.
fn carried(amount: i128) -> Amounts
    ensures { result ≡ spec.carries_amount amount }
{
    let mut by = NOTHING;
    by.appropriated = amount;
    by.ordered = amount;
    by
}

/// Adds the row of what goes on in the year after, where the fund carries and there is a line for
/// it.
fn put_carried(
    out: &mut Vec<LedgerRow>,
    chart: &Chart,
    of: Origin,
    moved: &LineMove,
) -> Result<(), AllocError>
    requires small { IsSmall moved.now }
    requires year { moved.now.year ≤ last_fiscal_year }
    ensures { OnOk result
        (out.new.items ≡ out.old.items ++ kept (spec.carried_line chart.now of moved.now)) }
{
    let (account, next) = (moved.account, moved.year + 1);
    if carries(chart, account.fund) && has_line(chart, account, next) {
        let by = carried(0 - moved.encumbered);
        put(out, on_account(chart, of, account, next, by))
    } else {
        Ok(())
    }
}

/// Adds the row of what leaves a year, and that of what goes on in the year after.
fn put_rolled(
    out: &mut Vec<LedgerRow>,
    chart: &Chart,
    of: Origin,
    moved: &LineMove,
) -> Result<(), AllocError>
    requires small { IsSmall moved.now }
    requires year { moved.now.year ≤ last_fiscal_year }
    ensures { OnOk result
        (out.new.items ≡ out.old.items ++ kept (spec.rolled_line chart.now of moved.now)) }
{
    put(out, on_move(chart, of, moved))?;
    put_carried(out, chart, of, moved)
}

/// Adds the rows of an item that an order has at its roll, where it is of this year.
fn put_rolled_if(
    out: &mut Vec<LedgerRow>,
    chart: &Chart,
    of: Origin,
    year: u16,
    moved: Option<LineMove>,
) -> Result<(), AllocError>
    requires small { IfSome moved IsSmall }
    requires year { year ≤ last_fiscal_year }
    ensures { OnOk result
        (out.new.items ≡ out.old.items ++ kept (spec.rolled_if chart.now of year moved)) }
{
    match moved {
        Some(moved) => {
            if moved.year == year {
                put_rolled(out, chart, of, &moved)
            } else {
                Ok(())
            }
        }
        None => Ok(()),
    }
}

/// Adds the rows of what the roll of a year makes of an order that has a live item.
fn put_live(
    out: &mut Vec<LedgerRow>,
    chart: &Chart,
    orders: &Orders,
    on: Day,
    act: &Act,
    year: u16,
    place: u64,
    number: u32,
) -> Result<(), AllocError>
    requires day { is_day on ≡ true }
    requires year { year ≤ last_fiscal_year }
    requires named { act.now ≡ variant.CancelOrder number }
    requires form { IsActInForm on act.now }
    requires allowed { IsAllowed chart.now orders.now.documents on act.now }
    ensures { OnOk result (out.new.items
        ≡ out.old.items ++ kept
        (order_rows chart.now place year orders.now.documents.items number)) }
{
    let count = orders.moves(act) as u32;
    for nth in 0..count {
        let of = Origin {
            place,
            document: number,
            item: nth + 1,
        };
        let moved = orders.move_at(chart, on, act, nth as usize);
        put_rolled_if(out, chart, of, year, moved)?;
    }
    Ok(())
}

/// Adds the rows of what the roll of a year makes of an order.
fn put_order(
    out: &mut Vec<LedgerRow>,
    chart: &Chart,
    orders: &Orders,
    on: Day,
    year: u16,
    place: u64,
    number: u32,
) -> Result<(), AllocError>
    requires day { is_day on ≡ true }
    requires year { year ≤ last_fiscal_year }
    ensures { OnOk result (out.new.items
        ≡ out.old.items ++ kept
        (order_rows chart.now place year orders.now.documents.items number)) }
{
    let act = Act::CancelOrder(number);
    match orders.check(chart, on, 0, &act) {
        Some(_) => Ok(()),
        None => put_live(out, chart, orders, on, &act, year, place, number),
    }
}

/// How many requisitions were drawn.
fn requisitions(alloc: Global, orders: &Orders) -> u32
    ensures { result ≡ orders.now.documents.requisitions }
{
    let items = List::new(alloc);
    orders
        .draws(&Act::Requisition(NewRequisition { items }))
        .number
        - 1
}

/// How many orders were drawn.
fn orders_drawn(alloc: Global, orders: &Orders) -> u32
    ensures { result ≡ orders.now.documents.orders }
{
    let order = NewOrder {
        vendor: 0,
        requisition: None,
        items: List::new(alloc),
    };
    orders.draws(&Act::Order(order)).number - 1
}

/// Adds the rows of what the roll of a year releases of requisitions.
fn put_requisitions(
    alloc: Global,
    out: &mut Vec<LedgerRow>,
    chart: &Chart,
    orders: &Orders,
    on: Day,
    year: u16,
    place: u64,
) -> Result<(), AllocError>
    requires day { is_day on ≡ true }
    requires released { AreReleased orders.now.documents.holds }
    ensures { OnOk result (out.new.items ≡ out.old.items
        ++ kept (flat_map (requisition_rows chart.now place year orders.now.documents.holds)
        (range_with_len 1 orders.now.documents.requisitions))) }
{
    for before in 0..requisitions(alloc, orders) {
        put_requisition(out, chart, orders, on, year, place, before + 1)?;
    }
    Ok(())
}

/// Adds the rows of what the roll of a year makes of orders.
fn put_orders(
    alloc: Global,
    out: &mut Vec<LedgerRow>,
    chart: &Chart,
    orders: &Orders,
    on: Day,
    year: u16,
    place: u64,
) -> Result<(), AllocError>
    requires day { is_day on ≡ true }
    requires year { year ≤ last_fiscal_year }
    ensures { OnOk result (out.new.items ≡ out.old.items
        ++ kept (flat_map (order_rows chart.now place year orders.now.documents.items)
        (range_with_len 1 orders.now.documents.orders))) }
{
    for before in 0..orders_drawn(alloc, orders) {
        put_order(out, chart, orders, on, year, place, before + 1)?;
    }
    Ok(())
}

/// Adds the rows of what the roll of a fiscal year moves, or none where no year is rolled.
pub fn put_roll(
    alloc: Global,
    out: &mut Vec<LedgerRow>,
    chart: &Chart,
    orders: &Orders,
    on: Day,
    year: Option<u16>,
    place: u64,
) -> Result<(), AllocError>
    requires day { is_day on ≡ true }
    requires year { IfSome year (λ y. y ≤ last_fiscal_year) }
    requires released { AreReleased orders.now.documents.holds }
    ensures { OnOk result (out.new.items
        ≡ out.old.items ++ kept (spec.roll_rows chart.now orders.now.documents place year)) }
{
    match year {
        None => Ok(()),
        Some(year) => {
            put_requisitions(alloc, out, chart, orders, on, year, place)?;
            put_orders(alloc, out, chart, orders, on, year, place)
        }
    }
}
