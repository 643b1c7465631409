//! The reconciliation of fund balances with net position, and of their changes in a year (GASB
//! Statement 34), read from the registers.
#![tactic(auto)]

mod changes;
mod reconcile;
mod rows;

pub use changes::{Changes, change_items};
pub use reconcile::items;
pub use rows::{change_rows, recon_rows};
