//! One list of entries that several threads see, each a beginning of it (own rule). The list exists
//! in the proofs alone: what threads share is one word, the list's length. What holds between any
//! two steps on it stands in `specs/Rule.antt`, and what each step tells in `specs/Steps.antt`.
#![tactic(auto)]

mod pass;
mod receipts;
mod recorder;
mod rule;
mod tie;
mod turns;

pub use pass::{Ask, Note, Pass};
pub use receipts::Receipts;
pub use recorder::Recorder;
pub use tie::{Stripe, Tie};
pub use turns::Turns;

#[cfg(test)]
mod tests;
