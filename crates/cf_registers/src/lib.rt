//! The registers of a history as one, and what an entry makes of them: deeds and their posts,
//! results, and the moves of control lines. Posts are made when an entry is reserved, which takes
//! memory, and added to the ledger's sums when it is applied, which can't fail.
#![tactic(auto)]

mod accounts;
mod closing;
mod deeds;
mod long_term;
mod made;
mod moves;
mod plan;
mod registers;
mod spendings;

pub use accounts::Accounts;
pub use made::made_of;
pub use moves::{entry_changes, merged_moves};
pub use plan::whole;
pub use registers::Registers;
