//! The doors of a hall, each served by a clerk in a thread of its own: from the book that is opened
//! to the disk that is handed back.
#![tactic(auto)]

mod clerk;
mod desk;
mod end;
mod hall;
mod rooms;
mod serving;

pub use clerk::Clerk;
pub use desk::{Desk, keep_all};
pub use end::{HallServed, ServeEnd};
pub use hall::serve_hall;
