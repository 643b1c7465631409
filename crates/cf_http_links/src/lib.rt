//! Links and doors in memory and over TCP.
#![tactic(auto)]

mod fault;
mod memory;
mod tcp;

pub use memory::{Coming, MemDoor, MemLink, Passed};
pub use tcp::{TcpDoor, TcpLink, doors_from};
