//! Replies in JSON: the text of what a call is answered with, and of a fault of its form.
#![tactic(auto)]

mod form;
mod posted;
mod refusals;
mod replies;
mod shown;

pub use form::write_form;
pub use posted::write_posted;
