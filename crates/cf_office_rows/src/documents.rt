//! What the items of requisitions, orders and vouchers move.

ghost use Rattle.std.specs.Prelude.{◌≡◌, ◌++◌, ◌<◌, ◌≤◌, ◌^◌, ◌+ℤ◌, unsigned_abs, List, length, map, Some, true, IfSome, OnOk};
ghost use Rattle.cf_base.specs.Common.{is_day};
ghost use Rattle.cf_calls.specs.Common.{IsActInForm};
ghost use Rattle.cf_model.specs.Moves as model;
ghost use Rattle.cf_model.specs.Common.{Move, document_moves, document_number};
ghost use Rattle.cf_orders.specs.Register.{IsAllowed, IsSmall, line_move};
ghost use Rattle.cf_office_rows.specs.Items as spec;
ghost use Rattle.cf_office_rows.specs.Items.{item_rows, joined, paired_rows, same_rows};
ghost use Rattle.cf_office_rows.specs.Rows.{kept};

use crate::rows::{LedgerRow, NOTHING, Origin, line_number, on_account, on_move, put};
use cf_base::Day;
use cf_calls::Act;
use cf_calls::items::AccountItem;
use cf_chart::Chart;
use cf_orders::{LineMove, Orders};
use std::alloc::AllocError;

/// Adds rows of the amounts that a requisition's items hold in a fiscal year.
pub fn put_held(
    out: &mut Vec<LedgerRow>,
    chart: &Chart,
    place: u64,
    document: u32,
    year: u16,
    items: &[AccountItem],
) -> Result<(), AllocError>
    requires { length items.now ≤ 32 }
    ensures { OnOk result (out.new.items ≡ out.old.items
        ++ kept (item_rows chart.now place document 1 (map (model.hold_move year) items.now))) }
{
    let mut item: u32 = 1;
    for account in items {
        let mut by = NOTHING;
        by.held = i128::from(account.amount);
        let of = Origin {
            place,
            document,
            item,
        };
        put(out, on_account(chart, of, *account, year, by))?;
        item += 1;
    }
    Ok(())
}

/// Adds rows of the amounts that an order's items encumber in a fiscal year.
pub fn put_ordered(
    out: &mut Vec<LedgerRow>,
    chart: &Chart,
    place: u64,
    document: u32,
    year: u16,
    items: &[AccountItem],
) -> Result<(), AllocError>
    requires { length items.now ≤ 32 }
    ensures { OnOk result (out.new.items ≡ out.old.items
        ++ kept (item_rows chart.now place document 1 (map (model.order_move year) items.now))) }
{
    let mut item: u32 = 1;
    for account in items {
        let mut by = NOTHING;
        by.ordered = i128::from(account.amount);
        let of = Origin {
            place,
            document,
            item,
        };
        put(out, on_account(chart, of, *account, year, by))?;
        item += 1;
    }
    Ok(())
}

/// Adds the row of a move, if there is one.
fn put_move(
    out: &mut Vec<LedgerRow>,
    chart: &Chart,
    of: Origin,
    moved: Option<LineMove>,
) -> Result<(), AllocError>
    ensures { OnOk result
        (out.new.items ≡ out.old.items ++ kept (spec.rows_if chart.now of moved)) }
{
    match moved {
        Some(moved) => put(out, on_move(chart, of, &moved)),
        None => Ok(()),
    }
}

/// Adds rows of what an act that the rules allow moves of a document's items, which are numbered
/// from 1.
pub fn put_items(
    out: &mut Vec<LedgerRow>,
    chart: &Chart,
    orders: &Orders,
    on: Day,
    act: &Act,
    place: u64,
    document: u32,
) -> Result<(), AllocError>
    requires day { is_day on ≡ true }
    requires form { IsActInForm on act.now }
    requires allowed { IsAllowed chart.now orders.now.documents on act.now }
    ensures { OnOk result
        (out.new.items ≡ out.old.items ++ kept (item_rows chart.now place document 1
        (document_moves chart.now orders.now.documents
        (document_number orders.now.documents act.now) on act.now))) }
{
    let count = orders.moves(act) as u32;
    for nth in 0..count {
        let of = Origin {
            place,
            document,
            item: nth + 1,
        };
        put_move(out, chart, of, orders.move_at(chart, on, act, nth as usize))?;
    }
    Ok(())
}

/// Adds rows of what an act that the rules allow moves of one item.
pub fn put_same(
    out: &mut Vec<LedgerRow>,
    chart: &Chart,
    orders: &Orders,
    on: Day,
    act: &Act,
    of: Origin,
) -> Result<(), AllocError>
    requires day { is_day on ≡ true }
    requires form { IsActInForm on act.now }
    requires allowed { IsAllowed chart.now orders.now.documents on act.now }
    ensures { OnOk result (out.new.items ≡ out.old.items ++ kept (same_rows chart.now of
        (document_moves chart.now orders.now.documents
        (document_number orders.now.documents act.now) on act.now))) }
{
    for nth in 0..orders.moves(act) {
        put_move(out, chart, of, orders.move_at(chart, on, act, nth))?;
    }
    Ok(())
}

/// Whether two numbers of lines are one.
fn same_number(a: Option<u16>, b: Option<u16>) -> bool
    ensures { result ≡ spec.same_number a b }
{
    match (a, b) {
        (Some(a), Some(b)) => a == b,
        (None, None) => true,
        (Some(_), None) | (None, Some(_)) => false,
    }
}

/// Whether two moves are of one line and fiscal year.
fn same_place(chart: &Chart, a: &LineMove, b: &LineMove) -> bool
    ensures { result ≡ spec.same_line_place chart.now a.now b.now }
{
    a.year == b.year
        && same_number(
            line_number(chart, a.account, a.year),
            line_number(chart, b.account, b.year),
        )
}

/// What two amounts come to, each below 2^64 in size.
fn sum(a: i128, b: i128) -> i128
    requires first { unsigned_abs a < 2 ^ 64 }
    requires second { unsigned_abs b < 2 ^ 64 }
    ensures { result ≡ a +ℤ b }
{
    a + b
}

/// What two moves come to, on the account of the first.
fn with_both(a: &LineMove, b: &LineMove) -> LineMove
    requires first { IsSmall a.now }
    requires second { IsSmall b.now }
    ensures { result ≡ spec.line_with_both a.now b.now }
{
    LineMove {
        account: a.account,
        year: a.year,
        held: sum(a.held, b.held),
        encumbered: sum(a.encumbered, b.encumbered),
        expended: sum(a.expended, b.expended),
    }
}

/// Adds the row of what two moves come to where they are of one line and fiscal year, or a row for
/// each.
fn put_joined(
    out: &mut Vec<LedgerRow>,
    chart: &Chart,
    of: Origin,
    a: &LineMove,
    b: &LineMove,
) -> Result<(), AllocError>
    requires first { IsSmall a.now }
    requires second { IsSmall b.now }
    ensures { OnOk result
        (out.new.items ≡ out.old.items ++ kept (spec.joined_lines chart.now of a.now b.now)) }
{
    if same_place(chart, a, b) {
        return put(out, on_move(chart, of, &with_both(a, b)));
    }
    put(out, on_move(chart, of, a))?;
    put(out, on_move(chart, of, b))
}

/// Adds rows of two moves, if both are there.
fn put_pair(
    out: &mut Vec<LedgerRow>,
    chart: &Chart,
    of: Origin,
    a: Option<LineMove>,
    b: Option<LineMove>,
) -> Result<(), AllocError>
    requires first { IfSome a IsSmall }
    requires second { IfSome b IsSmall }
    ensures { (m n : Move) → a ≡ Some (line_move m) → b ≡ Some (line_move n)
        → OnOk result (out.new.items ≡ out.old.items ++ kept (joined chart.now of m n)) }
{
    match (a, b) {
        (Some(a), Some(b)) => put_joined(out, chart, of, &a, &b),
        (Some(_), None) | (None, Some(_)) | (None, None) => Ok(()),
    }
}

/// Adds rows of an act on a voucher of so many items that the rules allow: of each item what it
/// spends and what it liquidates.
pub fn put_paired(
    out: &mut Vec<LedgerRow>,
    chart: &Chart,
    orders: &Orders,
    on: Day,
    act: &Act,
    place: u64,
    document: u32,
    count: u32,
) -> Result<(), AllocError>
    requires few { count ≤ 32 }
    requires day { is_day on ≡ true }
    requires form { IsActInForm on act.now }
    requires allowed { IsAllowed chart.now orders.now.documents on act.now }
    ensures { (ms ns : List Move)
        → document_moves chart.now orders.now.documents
        (document_number orders.now.documents act.now) on act.now ≡ ms ++ ns
        → length ms ≡ count → length ns ≡ count
        → OnOk result (out.new.items ≡ out.old.items
        ++ kept (paired_rows chart.now place document 1 ms ns)) }
{
    for nth in 0..count {
        let of = Origin {
            place,
            document,
            item: nth + 1,
        };
        let spent = orders.move_at(chart, on, act, nth as usize);
        let liquidated = orders.move_at(chart, on, act, (count + nth) as usize);
        put_pair(out, chart, of, spent, liquidated)?;
    }
    Ok(())
}
