//! The items of orders.

ghost use Rattle.std.specs.Prelude.{◌≡◌, ◌+◌, ◌<◌, ◌≤◌, ◌++◌, ◌^◌, ◌-◌, unsigned_abs, vec_len, length};
ghost use Rattle.std.specs.Vec.{vec_capacity};
ghost use Rattle.cf_model.specs.Common.{shifted};
ghost use Rattle.cf_orders.specs.Rows.{rows_from};
ghost use Rattle.cf_orders.specs.Steps.{IsChangedIn, cancelled_row};
ghost use Rattle.cf_orders.specs.Steps as spec;

use crate::items::is_going;
use crate::rows::{Header, ItemRow, Stage};
use cf_calls::items::AccountItem;
use cf_register_parts::Extent;

/// Adds the items of a new order.
pub fn add_items(items: &mut Vec<ItemRow>, header: Header, vendor: u32, accounts: &[AccountItem])
    requires room { vec_len items.old + length accounts.now ≤ vec_capacity items.old }
    requires few { length accounts.now < 65535 }
    ensures items { items.new.items
        ≡ items.old.items ++ rows_from header.number vendor header.year 1 accounts.now }
{
    let mut place: u16 = 1;
    for account in accounts {
        items.push_reserved(ItemRow {
            order: header.number,
            place,
            vendor,
            account: *account,
            year: header.year,
            left: account.amount,
            is_finished: false,
            stage: Stage::Going,
        });
        place += 1;
    }
}

/// A live item with a change of its open amount.
pub fn changed_row(row: ItemRow, by: i64) -> ItemRow
    requires most { shifted row.left by < 2 ^ 64 }
    ensures { result ≡ spec.changed_row by row }
{
    let mut row = row;
    if is_going(&row) {
        row.left = shift(row.left, by);
    }
    row
}

/// An amount with a signed change, at least 0.
fn shift(left: u64, by: i64) -> u64
    requires { shifted left by < 2 ^ 64 }
    ensures { result ≡ shifted left by }
{
    if by < 0 {
        left.saturating_sub(by.unsigned_abs())
    } else {
        left + by.unsigned_abs()
    }
}

fn cancelled(row: ItemRow) -> ItemRow
    ensures { result ≡ cancelled_row row }
{
    let mut row = row;
    if is_going(&row) {
        row.stage = Stage::Cancelled;
    }
    row
}

/// Cancels the live items of an order.
pub fn cancel_all(items: &mut Vec<ItemRow>, extent: Extent)
    requires ordered { extent.first ≤ extent.end }
    requires within { extent.end ≤ length items.old.items }
    ensures { IsChangedIn cancelled_row extent items.old.items items.new.items }
{
    for k in extent.first as usize..extent.end as usize {
        items[k] = cancelled(items[k]);
    }
}
