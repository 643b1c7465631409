//! The office that several threads share. Its lines fall into eight stripes, each with a lock of
//! its own; the history with its journal, the book, has one more. A call takes its stripes in
//! rising number, then the book.
#![tactic(auto)]

mod book;
mod closing;
mod gate;
mod hall;
mod opening;
mod pass;
mod places;
mod recording;
mod shared;
mod stripe;
mod taken;

pub use book::HallBook;
pub use closing::Closed;
pub use gate::{Gate, NoGate};
pub use hall::Hall;
pub use opening::{Blanks, Opening};
pub use pass::HallPass;
pub use shared::Shared;
pub use stripe::Stripe;
pub use taken::{Stripes, Taken};
