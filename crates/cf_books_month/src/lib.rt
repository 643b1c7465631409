//! A month of a city's books: what each control line spent and each revenue source received in it
//! and in the fiscal year through it, what is left, and the same month a year before.
#![tactic(auto)]

mod amounts;
mod days;
mod month;
mod records;
mod rows;
mod sums;

pub use month::month_text;
