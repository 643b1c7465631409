//! Interest of pooled cash, shared out among a city's funds by average daily balances.
#![tactic(auto)]

mod days;
mod laws;
mod pool;
mod refused;
mod weights;

pub use days::{CashMove, day_sums};
pub use laws::worked_pool;
pub use pool::pool_lines;
pub use refused::PoolRefused;
