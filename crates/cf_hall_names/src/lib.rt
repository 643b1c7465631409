//! The names of an office that threads share: its table, its chart and its ledgers. And the ties of
//! its stripes to the one list of entries, with the counts that they are held against.
#![tactic(auto)]

mod names;
mod shares;
mod ties;

pub use names::{Accepted, City, Faulted, OfStripe};
pub use shares::{Shares, Totals};
pub use ties::{Counts, Ties, follow_all};
