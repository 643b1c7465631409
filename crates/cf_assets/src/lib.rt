//! The register of capital assets and their depreciation. It keeps a row for each asset, the range
//! of each voucher's assets, the places of the assets that may still be charged, and sums by fiscal
//! year. Months are numbers from the chart's first one on. The depreciation by the end of the first
//! so many months is one formula, and a close charges what one month more adds to it, so nothing is
//! rounded twice. A leased asset stands in the same rows; what isn't leased is the difference of
//! two running sums.
#![tactic(auto)]

mod apply;
mod assets;
mod changes;
mod charges;
mod inventory;
mod rows;
mod rules;
mod serving;
mod steps;
mod sums;

pub use assets::{AssetNow, Assets};
pub use changes::AssetChanges;
pub use charges::{MOST_FUNCTIONS, MonthCharges, depreciated};
