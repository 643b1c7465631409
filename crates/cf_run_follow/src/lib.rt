//! A second office that keeps a copy of the history: the commands that ship a history as a stream,
//! and that follow one.
#![tactic(auto)]

mod copying;
mod follow_command;
mod ship_command;

pub use follow_command::run_follow;
pub use ship_command::run_ship;
