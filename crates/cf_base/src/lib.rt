//! What every crate of the office stands on: amounts, civil days and months, and the outside as
//! traits.
#![tactic(auto)]

mod amounts;
mod calendar;
mod limits;
mod memory;
mod money;
mod outside;
mod shares;
mod standard;
mod statement;
mod window;

pub use amounts::money_text;
pub use calendar::{
    Day, Month, day_text, fiscal_year, month_at, month_of, month_text, read_day, read_month,
};
pub use limits::{LAST_FISCAL_YEAR, LAST_YEAR, MOST_ENTRIES};
pub use memory::{MemSink, MemSource};
pub use money::{Cents, MOST_CENTS};
pub use outside::{Failed, Sink, Source};
pub use shares::share_out;
pub use standard::{FileSource, StdSink, StdSource};
pub use statement::Kind;
pub use window::{is_in_window, window_end, year_end};
