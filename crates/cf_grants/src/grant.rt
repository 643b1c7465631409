//! A grant.

use cf_calls::List;

/// A grant that pays a share of what vouchers spend on some control lines, up to an award.
#[derive(Drop)]
pub struct Grant {
    /// 1 to 9999.
    pub id: u16,
    /// The revenue source that it is billed on: an operating or a capital grant. No other grant of
    /// the document has it.
    pub source: u16,
    /// Who is billed.
    pub payer: u32,
    /// The most that is ever billed, in cents, 1 to 10^13.
    pub award: u64,
    /// The share that the grantor pays, in basis points, 1 to 10,000.
    pub rate_bp: u16,
    /// The control lines whose expenditures are eligible: 1 to 64 that differ, all of the source's
    /// fund.
    pub lines: List<u16>,
}
