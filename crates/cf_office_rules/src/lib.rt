//! The rules in their order, over what a history keeps: the verdict on a change.
#![tactic(auto)]

mod budgets;
mod cash;
mod exceeds;
mod names;
mod posting;
mod register_names;
mod rules;
mod verdict;
mod windows;

pub use posting::{refusal_reply, repeat_reply};
pub use register_names::leave_refusal;
pub use rules::ahead_refusal;
pub use verdict::judge;
