//! What stands in the lists of a call.

use crate::list::List;

/// An amount for a control line.
#[derive(Clone, Copy, PartialEq, Eq)]
pub struct LineAmount {
    /// The number of the line: its place in the chart's list, from 0.
    pub line: u16,
    /// In cents.
    pub amount: u64,
}

/// An amount for a revenue source.
#[derive(Clone, Copy, PartialEq, Eq)]
pub struct SourceAmount {
    pub source: u16,
    /// In cents.
    pub amount: u64,
}

/// An amount on an account: a fund, a department and an object of expenditure.
#[derive(Clone, Copy, PartialEq, Eq)]
pub struct AccountItem {
    pub fund: u16,
    pub dept: u16,
    pub object: u16,
    /// In cents.
    pub amount: u64,
}

/// How much of an order item's open amount a voucher item liquidates.
#[derive(Clone, Copy, PartialEq, Eq)]
pub enum Liquidation {
    /// The lesser of the open amount and the voucher item's own amount.
    Lesser,
    /// This amount, in cents: the recorded encumbrance (GFOA Blue Book).
    Recorded(u64),
    /// The whole open amount, as the last voucher on the item.
    Final,
}

/// What a voucher item is charged against.
#[derive(Clone, Copy, PartialEq, Eq)]
pub enum Charge {
    /// The appropriation itself.
    Direct,
    /// An encumbrance: an item of an order, counted from 1.
    OnOrder {
        item: u16,
        order: u32,
        how: Liquidation,
    },
}

/// An item of a voucher.
#[derive(Clone, Copy, PartialEq, Eq)]
pub struct VoucherItem {
    pub account: AccountItem,
    pub charge: Charge,
}

pub type LineAmounts = List<LineAmount>;

pub type SourceAmounts = List<SourceAmount>;

pub type AccountItems = List<AccountItem>;

pub type VoucherItems = List<VoucherItem>;

pub type Numbers = List<u32>;

pub type Principals = List<u64>;
