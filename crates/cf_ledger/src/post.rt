//! What is added to a ledger.

/// A debit (above 0) or a credit (below 0) of an account of a fund in a fiscal year, in cents. Fund
/// statements are on the modified accrual basis and government-wide statements on the accrual basis
/// (GASB Statement 34); a post of the latter has the fund 0.
#[derive(Clone, Copy)]
pub struct Post {
    pub year: u16,
    pub fund: u16,
    pub account: u32,
    pub amount: i128,
}
