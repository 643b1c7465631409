//! The classes of fund balances, the components of net position, and major funds.
#![tactic(auto)]

mod classes;
mod elements;
mod laws;
mod major;
mod net;
mod rows;
mod titles;

pub use classes::{Classes, fund_classes};
pub use elements::Elements;
pub use laws::worked_classes;
pub use major::major_funds;
pub use net::components;
pub use titles::{classes_title, components_title, major_title};
