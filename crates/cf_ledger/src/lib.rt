//! Balances of accounts on both bases of accounting.
#![tactic(auto)]

mod book;
mod history;
mod ledger;
mod places;
mod post;
mod years;

pub use ledger::Ledger;
pub use post::Post;
