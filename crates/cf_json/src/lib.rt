//! Calls in JSON: which fields each call has, and the first fault of what isn't one.
#![tactic(auto)]

mod acts;
mod call;
mod items;
mod looks;
mod words;

pub use call::read_call;
pub use cf_json_members::{CallRefused, FormFault};
