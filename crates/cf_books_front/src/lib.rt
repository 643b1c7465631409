//! What is whole of a journal, and its fronts: the journal as it was behind its first entries.
#![tactic(auto)]

mod front;
mod whole;

pub use front::{FrontRefused, front_with};
pub use whole::{Whole, read_frames, read_whole};
