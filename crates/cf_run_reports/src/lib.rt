//! The commands that open the journal, print what they make of its history, and write nothing on
//! the disk.
#![tactic(auto)]

mod claim_command;
mod pool_command;
mod report_command;

pub use claim_command::run_claim;
pub use pool_command::run_pool;
pub use report_command::run_report;
