//! The journal: the chart and the history of an office in a file, as a crash at any moment leaves
//! it.
#![tactic(auto)]

mod founding;
mod journal;
mod opening;
mod refused;
mod steps;

pub use cf_codec::NoMemory;
pub use founding::found;
pub use journal::{Journal, record_len};
pub use opening::{Opened, open};
pub use refused::{Disk_, FoundRefused, OpenRefused};
