//! What an act on documents moves of line numbers, item by item.

ghost use Rattle.std.specs.Prelude.{◌≡◌, ◌≤◌, ◌<◌, ◌^◌, ℕ, pos, true, map, length, slice_get, option_map, IfSome, unsigned_abs, ◌==◌};
ghost use Rattle.std.specs.List.{filter};
ghost use Rattle.cf_model.specs.Common.{Day, is_number, is_named, document_moves, spent_by};
ghost use Rattle.cf_calls.specs.Common.{IsActInForm};
ghost use Rattle.cf_chart.specs.Common.{Plan};
ghost use Rattle.cf_model.specs.Moves as model;
ghost use Rattle.cf_orders.specs.Register.{line_move, IsSmall};
ghost use Rattle.cf_orders.specs.Rows as spec;
ghost use Rattle.cf_orders.specs.Rows.{view_hold, view_expenditure};

use crate::items::find_row;
use crate::orders::Orders;
use crate::rows::{ExpenditureRow, HoldRow, ItemRow};
use crate::vouchers::is_void;
use cf_calls::Act;
use cf_calls::items::{AccountItem, VoucherItem};
use cf_calls::shown::RequisitionState;
use cf_register_parts::extent_of;

/// What an item of a document moves of its account's line in a fiscal year, in cents.
#[derive(Clone, Copy)]
pub struct LineMove {
    pub account: AccountItem,
    pub year: u16,
    pub held: i128,
    pub encumbered: i128,
    pub expended: i128,
}

/// A move of nothing.
pub fn no_move(account: AccountItem, year: u16) -> LineMove
    ensures value { result
        ≡ record {
          account = account;
          year = year;
          held = pos 0;
          encumbered = pos 0;
          expended = pos 0;
        } }
    ensures small { IsSmall result }
{
    LineMove {
        account,
        year,
        held: 0,
        encumbered: 0,
        expended: 0,
    }
}

/// A requisition's item is held.
pub fn hold_move(year: u16, account: AccountItem) -> LineMove
    ensures value { result ≡ line_move (model.hold_move year account) }
    ensures small { IsSmall result }
{
    let mut made = no_move(account, year);
    made.held = i128::from(account.amount);
    made
}

/// An open requisition's item is released.
pub fn release_move(row: &HoldRow) -> LineMove
    ensures value { result ≡ line_move (model.release_move (view_hold row.now)) }
    ensures small { IsSmall result }
{
    let mut made = no_move(row.account, row.year);
    if is_open(row.state) {
        made.held = -i128::from(row.account.amount);
    }
    made
}

/// Whether a requisition still holds its amounts.
fn is_open(state: RequisitionState) -> bool
    ensures { result ≡ spec.is_open state }
{
    match state {
        RequisitionState::Open => true,
        RequisitionState::Withdrawn | RequisitionState::Ordered | RequisitionState::Lapsed => false,
    }
}

/// An order's item is encumbered.
pub fn order_move(year: u16, account: AccountItem) -> LineMove
    ensures value { result ≡ line_move (model.order_move year account) }
    ensures small { IsSmall result }
{
    let mut made = no_move(account, year);
    made.encumbered = i128::from(account.amount);
    made
}

/// A voucher's item is spent.
pub fn spend_move(year: u16, item: &VoucherItem) -> LineMove
    ensures value { result ≡ line_move (model.spend_move year item.now) }
    ensures small { IsSmall result }
{
    let mut made = no_move(item.account, year);
    made.expended = i128::from(item.account.amount);
    made
}

/// A voucher's item that isn't void is taken back.
pub fn unspend_move(row: &ExpenditureRow) -> LineMove
    ensures value { result ≡ line_move (model.unspend_move (view_expenditure row.now)) }
    ensures small { IsSmall result }
{
    let mut made = no_move(row.account, row.year);
    if !is_void(row.state) {
        made.expended = -i128::from(row.account.amount);
    }
    made
}

/// What is encumbered of an order's item changes by so much.
pub fn item_move(row: &ItemRow, by: i128) -> LineMove
    requires { unsigned_abs by < 2 ^ 64 }
    ensures value { result
        ≡ record {
          account = row.now.account;
          year = row.now.year;
          held = pos 0;
          encumbered = by;
          expended = pos 0;
        } }
    ensures small { IsSmall result }
{
    let mut made = no_move(row.account, row.year);
    made.encumbered = by;
    made
}

/// What a requisition's item of this place holds.
pub fn hold_at(year: u16, items: &[AccountItem], nth: usize) -> Option<LineMove>
    ensures value { result
        ≡ option_map line_move (slice_get (map (model.hold_move year) items.now) nth) }
    ensures small { IfSome result IsSmall }
{
    match items.get(nth) {
        None => None,
        Some(account) => Some(hold_move(year, *account)),
    }
}

/// What an order's item of this place encumbers.
pub fn order_at(year: u16, items: &[AccountItem], nth: usize) -> Option<LineMove>
    ensures value { result
        ≡ option_map line_move (slice_get (map (model.order_move year) items.now) nth) }
    ensures small { IfSome result IsSmall }
{
    match items.get(nth) {
        None => None,
        Some(account) => Some(order_move(year, *account)),
    }
}

/// What a voucher's item of this place expends.
pub fn spend_at(year: u16, items: &[VoucherItem], nth: usize) -> Option<LineMove>
    ensures value { result
        ≡ option_map line_move (slice_get (map (model.spend_move year) items.now) nth) }
    ensures small { IfSome result IsSmall }
{
    match items.get(nth) {
        None => None,
        Some(item) => Some(spend_move(year, item)),
    }
}

impl Orders {
    /// How many moves an act has: at most 64 where it is in form.
    pub fn moves(&self, act: &Act) -> usize
        ensures value { (plan : Plan) (number : ℕ) (on : Day)
            → result ≡ length (document_moves plan self.now.documents number on act.now) }
        ensures few { (on : Day) → IsActInForm on act.now → result ≤ 64 }
    {
        match act {
            Act::Requisition(requisition) => requisition.items.as_slice().len(),
            Act::Withdraw(number) => self.released(Some(*number)),
            Act::Order(order) => self.released(order.requisition) + order.items.as_slice().len(),
            Act::ChangeOrder(change) => self.named(change.order, change.item),
            Act::CancelOrder(number) => self.ordered(*number),
            Act::Voucher(voucher) => 2 * voucher.items.as_slice().len(),
            Act::VoidVoucher(number) => 2 * self.spent(*number),
            Act::Adopt(_)
            | Act::Amend(_)
            | Act::Transfer(_)
            | Act::Pay(_)
            | Act::Bill(_)
            | Act::Collect(_)
            | Act::Receive(_)
            | Act::WriteOff(_)
            | Act::Asset(_)
            | Act::Issue(_)
            | Act::PayDue(_)
            | Act::Leave(_)
            | Act::Interfund(_)
            | Act::Close(_)
            | Act::Lease(_) => 0,
        }
    }

    /// How many items a requisition has, if one is named.
    pub(crate) fn released(&self, requisition: Option<u32>) -> usize
        ensures value { result
            ≡ length (filter (λ h. is_number requisition h.requisition) self.now.documents.holds) }
        ensures few { result ≤ 32 }
    {
        match requisition {
            None => 0,
            Some(number) => {
                let extent = extent_of(&self.requisitions, number);
                (extent.end - extent.first) as usize
            }
        }
    }

    /// How many items an order has at a place: one or none.
    fn named(&self, order: u32, item: u16) -> usize
        ensures value { result ≡ length (filter (is_named order item) self.now.documents.items) }
        ensures few { result ≤ 1 }
    {
        match find_row(&self.items, &self.orders, order, item) {
            None => 0,
            Some(_) => 1,
        }
    }

    /// How many items an order has.
    fn ordered(&self, order: u32) -> usize
        ensures value { result ≡ length (filter (λ i. i.order == order) self.now.documents.items) }
        ensures few { result ≤ 32 }
    {
        let extent = extent_of(&self.orders, order);
        (extent.end - extent.first) as usize
    }

    /// How many items a voucher has.
    pub(crate) fn spent(&self, voucher: u32) -> usize
        ensures value { result ≡ length (spent_by voucher self.now.documents.expenditures) }
        ensures few { result ≤ 32 }
    {
        let extent = extent_of(&self.vouchers, voucher);
        (extent.end - extent.first) as usize
    }
}
