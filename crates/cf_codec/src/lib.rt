//! An entry of the history as bytes.
#![tactic(auto)]

mod fault;
mod items;
mod measure;
mod put_acts;
mod read;
mod take_acts;
mod write;

pub use fault::{CodecFault, CodecRefused, NoMemory};
pub use read::read_entry;
pub use write::{payload_len, write_entry};
