//! Lists of one year: what each vendor was paid in a calendar year, and the trial balance of a
//! fiscal year alone.
#![tactic(auto)]

mod balances;
mod paid;
mod sums;

pub use balances::year_balances_text;
pub use paid::paid_text;
