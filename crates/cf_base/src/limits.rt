//! The limits that all books keep to.

/// The last year of a day that a call may state (own rule).
pub const LAST_YEAR: u16 = 2199;

/// The last fiscal year: a day of the last year may be of the fiscal year that ends in the next
/// one.
pub const LAST_FISCAL_YEAR: u16 = 2200;

/// The most entries that a history may have (own rule).
pub const MOST_ENTRIES: u64 = 1_500_000;
