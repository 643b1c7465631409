//! What registers are made of: where a document's rows stand, amounts by fiscal year, values by two
//! numbers, and the chart's fiscal years, months of days and readings.
#![tactic(auto)]

mod amounts;
mod calendar;
mod charted;
mod extents;
mod months;
mod pairs;
mod years;

pub use amounts::difference;
pub use calendar::{document_year, is_before, rolled_year, year_of_day};
pub use charted::{
    carries, function_of, fund_of, has_line, is_capital, is_current, is_interest, is_principal,
    is_spending, life_of, window_of,
};
pub use extents::{Extent, count, extent_of};
pub use months::{is_month_closed, month_at, number_of_day, number_of_month, year_at, years_to};
pub use pairs::{NumberPair, amount_at, put_in, reserve_in, value_in};
pub use years::{YEARS, add_at, amount_in, lower, no_years, raise, total_of, total_through};
