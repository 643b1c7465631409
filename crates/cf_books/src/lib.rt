//! The commands that check, read and take out a city's books: its chart and its journal. They read
//! bytes and write text, and change nothing.
#![tactic(auto)]

mod answers;
mod calls;
mod documents;
mod fault_rows;
mod grants;
mod ledger;
mod lines;
mod listing;
mod lists;
mod month;
mod notices;
mod office;
mod refused;
mod room;
mod running;
mod status;
mod summary;
mod through;
mod unknown;

pub use answers::{Answer, answer_of};
pub use running::{run, tell};
pub use status::{RefusedEntry, Status};
pub use unknown::{NameKind, Unknown};
