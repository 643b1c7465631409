//! The movements of funds' cash in a history, gathered while its journal is opened.
#![tactic(auto)]

mod moves;

pub use moves::open_with_moves;
