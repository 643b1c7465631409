//! Statements as bytes: lines of text, or comma-separated records.
#![tactic(auto)]

mod bytes;
mod lines;
mod records;

pub use bytes::statement_bytes;
pub use lines::{put_count, put_row, text_of};
pub use records::records_of;
