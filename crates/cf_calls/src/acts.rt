//! What a changing call does: one variant for each of the 22 calls.

ghost use Rattle.std.specs.Prelude.{◌≡◌};
ghost use Rattle.std.specs.Option.{option_copied};
ghost use Rattle.cf_calls.specs.Acts.{adoption_of, amendment_of, transfer_of, is_back};

use crate::items::{
    AccountItem, AccountItems, LineAmounts, Numbers, Principals, SourceAmount, SourceAmounts,
    VoucherItems,
};
use cf_base::Month;

/// The budget of a fund and fiscal year (GASB Codification 1700: the annual budget is adopted).
#[derive(Drop)]
pub struct Adoption {
    pub fund: u16,
    pub year: u16,
    /// The original amounts. A line that isn't named has 0.
    pub lines: LineAmounts,
    pub estimates: SourceAmounts,
}

/// A change of an appropriation.
#[derive(Clone, Copy, PartialEq, Eq)]
pub struct Amendment {
    pub fund: u16,
    pub year: u16,
    pub line: u16,
    /// In cents; never 0 in an entry.
    pub by: i64,
}

/// A transfer of an appropriation between two lines of a fund.
#[derive(Clone, Copy, PartialEq, Eq)]
pub struct LineTransfer {
    pub fund: u16,
    pub year: u16,
    pub from: u16,
    pub to: u16,
    pub amount: u64,
}

/// A purchase requisition, which holds its amounts.
#[derive(Drop)]
pub struct NewRequisition {
    pub items: AccountItems,
}

/// A purchase order, which encumbers its amounts (GFOA Blue Book).
#[derive(Drop)]
pub struct NewOrder {
    pub vendor: u32,
    /// The requisition that the order takes up.
    pub requisition: Option<u32>,
    pub items: AccountItems,
}

/// A change of an order item's open amount.
#[derive(Clone, Copy, PartialEq, Eq)]
pub struct OrderChange {
    pub order: u32,
    /// Counted from 1.
    pub item: u16,
    pub fund: u16,
    pub dept: u16,
    pub object: u16,
    /// In cents; never 0 in an entry.
    pub by: i64,
}

/// A vendor's claim, which is an expenditure.
#[derive(Drop)]
pub struct NewVoucher {
    pub vendor: u32,
    /// Whether it is an expenditure of the fiscal year before that of its day.
    pub back: bool,
    pub items: VoucherItems,
}

/// The payment of vouchers.
#[derive(Drop)]
pub struct Payment {
    pub vouchers: Numbers,
}

/// A bill of a levy or a charge, which is a receivable.
#[derive(Clone, Copy, PartialEq, Eq)]
pub struct NewBill {
    pub source: u16,
    pub levy_year: u16,
    pub payer: u32,
    pub amount: u64,
}

/// An amount of a bill, collected or written off.
#[derive(Clone, Copy, PartialEq, Eq)]
pub struct BillAmount {
    pub bill: u32,
    pub amount: u64,
}

/// A donated capital asset.
#[derive(Clone, Copy, PartialEq, Eq)]
pub struct Donation {
    pub dept: u16,
    pub object: u16,
    pub amount: u64,
}

/// The disposal of a capital asset. The proceeds, which may be 0, go to a fund's cash.
#[derive(Clone, Copy, PartialEq, Eq)]
pub struct Disposal {
    pub asset: u32,
    pub fund: u16,
    pub proceeds: u64,
}

/// What is done with a capital asset.
#[derive(Clone, Copy, PartialEq, Eq)]
pub enum AssetAct {
    Donate(Donation),
    Dispose(Disposal),
}

/// The terms of a debt, a bond's or a lease's: its rate, and the schedule of its payments.
#[derive(Drop)]
pub struct Terms {
    /// The yearly rate, in basis points, at most 10,000.
    pub rate_bp: u16,
    /// The months between payments: 1, 2, 3, 4, 6 or 12.
    pub every: u16,
    /// The principal of each payment, in order and in cents. Each may be 0.
    pub principals: Principals,
}

/// The issue of a bond.
#[derive(Drop)]
pub struct BondIssue {
    pub fund: u16,
    pub amount: u64,
    pub terms: Terms,
}

/// The payment of a bond's next due payment. The last two are objects of expenditure.
#[derive(Clone, Copy, PartialEq, Eq)]
pub struct DebtPayment {
    pub bond: u32,
    pub fund: u16,
    pub dept: u16,
    pub principal: u16,
    pub interest: u16,
}

/// An amount of leave of a fund's department.
#[derive(Clone, Copy, PartialEq, Eq)]
pub struct LeaveAmount {
    pub fund: u16,
    pub dept: u16,
    pub amount: u64,
}

/// Leave that is paid out, as an expenditure on an object.
#[derive(Clone, Copy, PartialEq, Eq)]
pub struct LeaveMaturity {
    pub fund: u16,
    pub dept: u16,
    pub object: u16,
    pub amount: u64,
}

/// What is done with compensated absences.
#[derive(Clone, Copy, PartialEq, Eq)]
pub enum LeaveAct {
    Earn(LeaveAmount),
    Use(LeaveAmount),
    Mature(LeaveMaturity),
}

/// How cash moves between two funds.
#[derive(Clone, Copy, PartialEq, Eq)]
pub enum FundMoveKind {
    Transfer,
    Loan,
    Repay,
}

/// A movement of cash between two funds.
#[derive(Clone, Copy, PartialEq, Eq)]
pub struct FundMove {
    pub what: FundMoveKind,
    pub from: u16,
    pub to: u16,
    pub amount: u64,
}

/// A lease of a capital asset, which the city holds as lessee (GASB Statement 87; that the amount
/// and the schedule are handed in is an own rule).
#[derive(Drop)]
pub struct NewLease {
    pub vendor: u32,
    /// The account that the lease is an expenditure of, with the amount of the lease, in cents.
    pub account: AccountItem,
    /// The months that the payments are for are more than 12.
    pub terms: Terms,
}

/// What is closed.
#[derive(Clone, Copy, PartialEq, Eq)]
pub enum Period {
    Month(Month),
    Year(u16),
}

/// What a changing call does. Amounts are in cents.
#[derive(Drop)]
pub enum Act {
    Adopt(Adoption),
    Amend(Amendment),
    Transfer(LineTransfer),
    Requisition(NewRequisition),
    /// The number of a requisition.
    Withdraw(u32),
    Order(NewOrder),
    ChangeOrder(OrderChange),
    /// The number of an order.
    CancelOrder(u32),
    Voucher(NewVoucher),
    /// The number of a voucher.
    VoidVoucher(u32),
    Pay(Payment),
    Bill(NewBill),
    Collect(BillAmount),
    Receive(SourceAmount),
    WriteOff(BillAmount),
    Asset(AssetAct),
    Issue(BondIssue),
    PayDue(DebtPayment),
    Leave(LeaveAct),
    Interfund(FundMove),
    Close(Period),
    Lease(NewLease),
}

impl Act {
    /// The adoption that the act is.
    pub fn adoption(&self) -> Option<&Adoption>
        ensures { option_copied result ≡ adoption_of self.now }
    {
        match self {
            Act::Adopt(adoption) => Some(adoption),
            _ => None,
        }
    }

    /// The amendment that the act is.
    pub fn amendment(&self) -> Option<&Amendment>
        ensures { option_copied result ≡ amendment_of self.now }
    {
        match self {
            Act::Amend(amendment) => Some(amendment),
            _ => None,
        }
    }

    /// The transfer between lines that the act is.
    pub fn line_transfer(&self) -> Option<&LineTransfer>
        ensures { option_copied result ≡ transfer_of self.now }
    {
        match self {
            Act::Transfer(transfer) => Some(transfer),
            _ => None,
        }
    }

    /// Whether the act is a voucher of the fiscal year before that of its day.
    pub fn is_back(&self) -> bool
        ensures { result ≡ is_back self.now }
    {
        match self {
            Act::Voucher(voucher) => voucher.back,
            Act::Adopt(_)
            | Act::Amend(_)
            | Act::Transfer(_)
            | Act::Requisition(_)
            | Act::Withdraw(_)
            | Act::Order(_)
            | Act::ChangeOrder(_)
            | Act::CancelOrder(_)
            | Act::VoidVoucher(_)
            | Act::Pay(_)
            | Act::Bill(_)
            | Act::Collect(_)
            | Act::Receive(_)
            | Act::WriteOff(_)
            | Act::Asset(_)
            | Act::Issue(_)
            | Act::PayDue(_)
            | Act::Leave(_)
            | Act::Interfund(_)
            | Act::Close(_)
            | Act::Lease(_) => false,
        }
    }
}
