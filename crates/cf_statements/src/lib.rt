//! The rows of statements, over the sums that a history comes to.
#![tactic(auto)]

mod activities;
mod activity;
mod amounts;
mod balance;
mod budget;
mod figures;
mod operating;
mod position;
mod rows;
mod tables;
mod titles;

pub use activities::statement_of_activities;
pub use activity::{Activity, RevenueClass};
pub use amounts::{difference, sum};
pub use balance::balance_sheet;
pub use budget::comparison;
pub use figures::{Figures, in_year};
pub use operating::{operating_statement, total_expenditures, total_revenues};
pub use position::net_position;
pub use rows::{put_heading, put_single};
pub use titles::title;
