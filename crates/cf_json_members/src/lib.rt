//! The members of JSON objects: reading them one by one, each by its kind, lists of them, and
//! writing them.
#![tactic(auto)]

mod fault;
pub mod fields;
pub mod kinds;
pub mod lists;
pub mod parts;

pub use fault::{CallRefused, FormFault};
