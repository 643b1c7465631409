//! The disk under the journal, as a trait with the rules of a crash; its kind in memory and over a
//! real file.
#![tactic(auto)]

mod disk;
mod file;
mod memory;

pub use disk::Disk;
pub use file::{FileDisk, Lock};
pub use memory::{DiskCall, MemDisk};
