//! The answers of looks.

use crate::items::LineAmount;
use crate::list::List;
use crate::reply::Row;
use crate::text::Label;
use cf_base::Day;

/// The numbers of a control line and fiscal year, in cents (GASB Codification 1700: budgetary
/// comparison).
#[derive(Clone, Copy)]
pub struct LineNumbers {
    /// The adopted amount.
    pub original: i128,
    /// The adopted amount with amendments, transfers and amounts carried in.
    pub appropriated: i128,
    /// What open requisitions hold.
    pub held: i128,
    /// What live order items have open.
    pub encumbered: i128,
    /// What was spent: vouchers that aren't void, debt payments and matured leave.
    pub expended: i128,
    /// The available appropriation: what is left to hold, encumber or spend.
    pub room: i128,
}

/// The state of a requisition.
#[derive(Clone, Copy)]
pub enum RequisitionState {
    Open,
    Withdrawn,
    Ordered,
    Lapsed,
}

/// The state of an order item.
#[derive(Clone, Copy)]
pub enum ItemState {
    Live,
    Finished,
    Lapsed,
    Cancelled,
}

/// The state of a voucher.
#[derive(Clone, Copy)]
pub enum VoucherState {
    Open,
    Paid,
    Void,
}

/// The state of a capital asset.
#[derive(Clone, Copy)]
pub enum AssetState {
    Held,
    Disposed,
    Void,
}

/// An order item as a look shows it.
#[derive(Clone, Copy)]
pub struct OrderItemShown {
    pub line: u16,
    pub open_cents: u64,
    pub state: ItemState,
    pub year: u16,
}

/// The items that join fund balances and net position (GASB Statement 34: the summary
/// reconciliation), in cents, each signed as it is added.
#[derive(Clone, Copy)]
pub struct ReconShown {
    pub fund_balances: i128,
    pub capital_assets: i128,
    pub right_to_use: i128,
    pub unavailable: i128,
    pub bonds: i128,
    pub leases: i128,
    pub accrued_interest: i128,
    pub leave: i128,
    pub net_position: i128,
}

/// The answer of a look: one variant for each look. Amounts are in cents.
#[derive(Drop)]
pub enum Shown {
    Line(LineNumbers),
    Requisition {
        items: List<LineAmount>,
        state: RequisitionState,
        year: u16,
    },
    Order {
        items: List<OrderItemShown>,
        vendor: u32,
    },
    Voucher {
        amount: u64,
        state: VoucherState,
        year: u16,
    },
    Bill {
        left: u64,
        levy_year: u16,
        source: u16,
    },
    Asset {
        cost: u64,
        depreciation: u64,
        state: AssetState,
    },
    Bond {
        accrued: i128,
        /// The next due date, where something is left to pay.
        next: Option<Day>,
        outstanding: u64,
    },
    Leave {
        left: u64,
    },
    Account {
        balance: i128,
    },
    Reconcile(ReconShown),
    Report {
        rows: List<Row>,
        title: Label,
    },
}
