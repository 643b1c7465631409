//! Reimbursement grants: the document that states them, and its exact reader.
#![tactic(auto)]

mod document;
mod fault;
mod grant;
mod grants;
mod read;

pub use fault::{GrantFault, GrantKey, GrantRefused};
pub use grant::Grant;
pub use grants::Grants;
