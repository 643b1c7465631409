//! A large run in memory: calls that are drawn by a fixed formula, taken by an office of a fixed
//! city.
#![tactic(auto)]

mod acts;
mod city;
mod office;
mod turn;

pub use city::CITY;
pub use office::generate;
