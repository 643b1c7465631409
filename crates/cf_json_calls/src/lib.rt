//! A change as the line of JSON that a desk sends for it.
#![tactic(auto)]

mod acts;
mod items;
mod line;
mod pieces;

pub use line::{call_word, write_call};
