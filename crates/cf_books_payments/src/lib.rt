//! What payments come to, by the entries before them, and what they paid to each vendor in a
//! calendar year.
#![tactic(auto)]

mod amounts;
mod entered;
mod paid;
mod payments;
mod sums;
mod vendors;

pub use amounts::{Amounted, amount_of, total};
pub use entered::{Paid, PaidKind};
pub use paid::paid_in;
pub use payments::{Schedule, Tables};
pub use sums::{Totals, totals_of};
pub use vendors::by_vendor;
