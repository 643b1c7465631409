//! What the register keeps of bonds, of their payments, and of leave.

/// Of the terms of a bond or a lease, what its interest is reckoned from.
#[derive(Clone, Copy)]
pub struct RowTerms {
    /// The months between payments.
    pub every: u16,
    /// The day of the month on which the bond was issued and its payments are due.
    pub day: u8,
    /// The yearly rate, in basis points.
    pub rate_bp: u16,
}

/// Debt that is entered, its terms aside: bonds that are issued, or a lease.
#[derive(Clone, Copy)]
pub struct NewDebt {
    pub is_lease: bool,
    pub fund: u16,
    /// In cents.
    pub amount: u64,
}

/// A bond, or a lease. They stand by number, from 1.
#[derive(Clone, Copy)]
pub struct BondRow {
    pub number: u32,
    pub is_lease: bool,
    pub fund: u16,
    pub amount: u64,
    /// The fiscal year of its issue.
    pub year: u16,
    /// The month of its issue, from the chart's first.
    pub month: u16,
    pub terms: RowTerms,
    /// Where its payments begin among those of all bonds.
    pub start: usize,
    /// How many payments it has.
    pub count: u16,
    /// The month of its last payment.
    pub last: u16,
    /// How many payments are paid.
    pub paid: u16,
}

/// A payment of a bond, with the period before it.
#[derive(Clone, Copy)]
pub struct Payment {
    /// The month in which its period begins, from the chart's first.
    pub from: u16,
    /// The month in which it is due.
    pub month: u16,
    /// The principal before it, in cents.
    pub owed: u64,
    /// What it pays of that, in cents.
    pub principal: u64,
}

/// Leave that the people of a fund's department earned, used or were paid.
#[derive(Clone, Copy)]
pub struct LeaveRow {
    pub fund: u16,
    pub dept: u16,
    pub year: u16,
    pub amount: u64,
    /// Whether it was earned: else it was used or paid.
    pub is_earned: bool,
}
