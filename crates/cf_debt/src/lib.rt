//! The register of bonds, of leases as debt, and of leave. It keeps a row for each bond or lease,
//! with the range of its payments in one list of all; the bonds with a payment to come; the leave
//! that is left by fund and department; and sums by fiscal year. A payment has the months between
//! which its interest runs and the principal that was owed before it, so no coupon and no charge
//! needs a sum over the schedule. A product of principal, rate and days may pass 64 bits, so it is
//! made in 128.
#![tactic(auto)]

mod apply;
mod debt;
mod interest;
mod look;
mod rows;
mod rules;
mod schedule;
mod steps;
mod sums;

pub use debt::{Debt, Due};
pub use sums::DebtChanges;
