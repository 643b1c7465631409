//! The ledger: what each entry moved of control lines and of revenue sources, item by item, as
//! records that are asked for by fund, line, source, party, fiscal year and day.
#![tactic(auto)]

mod filter;
mod gather;
mod ledger;
mod parties;

pub use gather::open_with_ledger;
pub use ledger::{Totals, ledger_text};
