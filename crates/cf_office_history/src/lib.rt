//! A history with what is looked up in it. `Rest` keeps the chart, the entries with their results,
//! the places of keys and of adoptions, the registers and the accounts, but no line numbers.
//! `History` is the read-only view that rules, looks and statements use: it borrows a `Rest`, and
//! the tables of line numbers that its caller holds.
#![tactic(auto)]

mod estimates;
mod history;
mod keys;
mod rest;

pub use history::History;
pub use rest::Rest;
