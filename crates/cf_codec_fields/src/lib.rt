//! The fields of an entry as bytes: numbers, flags, amounts, days, months, keys and kinds, and
//! lists of items.
#![tactic(auto)]

mod fault;
pub mod kind;
pub mod lists;
pub mod put;
pub mod take;

pub use fault::Refused;
