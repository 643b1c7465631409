//! What is shown of a history: the answer of a look, and the rows of its statements.
#![tactic(auto)]

mod books;
mod classes;
mod looks;
mod reports;

pub use books::Books;
pub use classes::{class_rows, component_rows, major_rows};
pub use looks::{answer, look_reply};
pub use reports::report_rows;
