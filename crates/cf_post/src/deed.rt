//! What an entry did, as the posting table reads it. Amounts are in cents and years are fiscal
//! years.

ghost use Rattle.std.specs.Prelude.{◌≡◌};

use crate::rows::{FundYear, at};

/// What an item of a voucher is spent on.
#[derive(Clone, Copy)]
pub enum Spent {
    /// Current spending of a function.
    Current(u16),
    /// A capital asset.
    Capital,
}

/// An item of a voucher, with the voucher's year.
#[derive(Clone, Copy)]
pub struct SpentItem {
    pub voucher_year: u16,
    pub fund: u16,
    pub spent: Spent,
    pub amount: u64,
}

impl SpentItem {
    pub(crate) fn at(&self) -> FundYear
        ensures { result ≡ record { year = self.now.voucher_year; fund = self.now.fund } }
    {
        at(self.voucher_year, self.fund)
    }
}

/// An amount of a fund.
#[derive(Clone, Copy)]
pub struct FundAmount {
    pub year: u16,
    pub fund: u16,
    pub amount: u64,
}

impl FundAmount {
    pub(crate) fn at(&self) -> FundYear
        ensures { result ≡ record { year = self.now.year; fund = self.now.fund } }
    {
        at(self.year, self.fund)
    }
}

/// An amount of a function.
#[derive(Clone, Copy)]
pub struct FunctionAmount {
    pub year: u16,
    pub function: u16,
    pub amount: u64,
}

/// A bill of a tax or a charge.
#[derive(Clone, Copy)]
pub struct NewBill {
    pub levy_year: u16,
    pub fund: u16,
    pub source: u16,
    pub amount: u64,
}

impl NewBill {
    pub(crate) fn at(&self) -> FundYear
        ensures { result ≡ record { year = self.now.levy_year; fund = self.now.fund } }
    {
        at(self.levy_year, self.fund)
    }
}

/// An amount of a source of revenue.
#[derive(Clone, Copy)]
pub struct SourceAmount {
    pub year: u16,
    pub fund: u16,
    pub source: u16,
    pub amount: u64,
}

impl SourceAmount {
    pub(crate) fn at(&self) -> FundYear
        ensures { result ≡ record { year = self.now.year; fund = self.now.fund } }
    {
        at(self.year, self.fund)
    }
}

/// Cash for a bill, with the year that its revenue is recognised in.
#[derive(Clone, Copy)]
pub struct Collection {
    pub year: u16,
    pub recognised_year: u16,
    pub fund: u16,
    pub source: u16,
    pub amount: u64,
}

/// A capital asset that is disposed of, with the function that acquired it. The proceeds are the
/// fund's.
#[derive(Clone, Copy)]
pub struct Disposal {
    pub year: u16,
    pub fund: u16,
    pub function: u16,
    pub cost: u64,
    pub depreciation: u64,
    pub proceeds: u64,
}

impl Disposal {
    pub(crate) fn at(&self) -> FundYear
        ensures { result ≡ record { year = self.now.year; fund = self.now.fund } }
    {
        at(self.year, self.fund)
    }
}

/// A payment of a bond or of a lease, with the year that it is due in.
#[derive(Clone, Copy)]
pub struct DuePayment {
    pub due_year: u16,
    pub year: u16,
    pub fund: u16,
    pub is_lease: bool,
    pub principal: u64,
    pub interest: u64,
}

/// Leave that is paid out.
#[derive(Clone, Copy)]
pub struct MaturedLeave {
    pub year: u16,
    pub fund: u16,
    pub function: u16,
    pub amount: u64,
}

impl MaturedLeave {
    pub(crate) fn at(&self) -> FundYear
        ensures { result ≡ record { year = self.now.year; fund = self.now.fund } }
    {
        at(self.year, self.fund)
    }
}

/// An amount that goes from one fund to another.
#[derive(Clone, Copy)]
pub struct FundsAmount {
    pub year: u16,
    pub from: u16,
    pub to: u16,
    pub amount: u64,
}

/// What is charged to a function for all assets.
#[derive(Clone, Copy)]
pub struct FunctionTotal {
    pub year: u16,
    pub function: u16,
    pub amount: u128,
}

/// What is charged to the city as a whole for all bonds and leases.
#[derive(Clone, Copy)]
pub struct CityTotal {
    pub year: u16,
    pub amount: u128,
}

/// A row of the posting table. Entries of other kinds have no posts. A voucher, a void and a
/// payment of vouchers have a deed for each item; the closing of a month has two for each function,
/// of depreciation and of amortization, and one for interest. So each deed has at most five posts,
/// and holds no list.
#[derive(Clone, Copy)]
pub enum Deed {
    /// An item of a voucher is entered.
    Voucher(SpentItem),
    /// An item of a voucher is voided.
    VoidVoucher(SpentItem),
    /// An item of a voucher is paid, in the year of the payment.
    Pay(FundAmount),
    /// A tax or a charge is billed.
    Bill(NewBill),
    /// A bill is collected, whole or in part.
    Collect(Collection),
    /// Revenue that was not billed is received in cash.
    Receive(SourceAmount),
    /// A bill is written off, whole or in part.
    WriteOff(SourceAmount),
    /// A capital asset is donated to a function.
    Donate(FunctionAmount),
    /// A capital asset is sold or scrapped.
    Dispose(Disposal),
    /// A bond is issued.
    Issue(FundAmount),
    /// A payment of a bond or of a lease falls due and is paid.
    PayDue(DuePayment),
    /// Leave is earned by a function.
    EarnLeave(FunctionAmount),
    /// Leave is used in a function.
    UseLeave(FunctionAmount),
    /// Leave is paid out in cash.
    MatureLeave(MaturedLeave),
    /// One fund gives to another.
    Transfer(FundsAmount),
    /// One fund lends to another.
    Loan(FundsAmount),
    /// One fund repays another.
    Repay(FundsAmount),
    /// A month's depreciation of a function.
    Depreciate(FunctionTotal),
    /// A month's interest of all bonds and leases.
    AccrueInterest(CityTotal),
    /// A capital asset is leased.
    Lease(FundAmount),
    /// A month's amortization of a function's leased assets.
    Amortize(FunctionTotal),
}
