//! How a run of the program ends: its status, the disk that it was given, and what of a text was
//! printed.
#![tactic(auto)]

mod notices;
mod printing;
mod ran;
mod status;

pub use notices::tell;
pub use printing::print;
pub use ran::{Ran, unread};
pub use status::{Status, refusal_status};
