//! What the program `books` says of grants: what their document has or its first fault, and how the
//! vouchers of a grant stand.
#![tactic(auto)]

mod document;
mod fault_ids;
mod faults;
mod vouchers;

pub use document::document_text;
pub use fault_ids::{fault_id, id_in, put_id};
pub use faults::put_fault;
pub use vouchers::vouchers_text;
