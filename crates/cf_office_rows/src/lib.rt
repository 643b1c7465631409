//! What each entry moves, item by item: a row for each control line or revenue source that it
//! moves, with the document and the item that the movement is of.
#![tactic(auto)]

mod council;
mod documents;
mod entries;
mod rolls;
mod rows;
mod sources;
mod spendings;

pub use entries::put_entry;
pub use rows::{Amounts, LedgerRow, Origin};
