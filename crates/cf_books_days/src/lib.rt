//! Lists of a city's books as of a day: the statements, the balances and the posts of the entries
//! that are dated through it, as they were entered.
#![tactic(auto)]

mod balances;
mod days;
mod estimates;
mod gathered;
mod ledgers;
mod lines;
mod posts;
mod statement;
mod sums;

pub use balances::balances_through_text;
pub use days::is_through;
pub use gathered::{Dated, DatedChange, DatedPost, open_dated};
pub use posts::posts_through_text;
pub use statement::{DatedKind, statement_through_text};
pub use sums::{DaySums, day_sums};
