//! What the register keeps of assets.

use cf_base::Day;

/// The stage of an asset.
#[derive(Clone, Copy)]
pub enum StageNow {
    Held,
    /// With its voucher.
    Void,
    /// Disposed of in a fiscal year, when so many months were closed.
    Disposed { year: u16, closed: u32 },
}

/// How the city came to an asset.
#[derive(Clone, Copy)]
pub enum Acquired {
    /// By the voucher of this number.
    Bought(u32),
    Given,
    /// It holds the asset as lessee (GASB Statement 87).
    Leased,
}

/// A capital asset, or one that is leased. Assets stand by number, from 1.
#[derive(Clone, Copy)]
pub struct AssetRow {
    /// In cents.
    pub cost: u64,
    pub number: u32,
    pub acquired: Acquired,
    pub function: u16,
    /// In months; land has 0.
    pub life: u16,
    pub on: Day,
    /// The fiscal year of its acquisition.
    pub year: u16,
    /// The month from which it serves, counted from the chart's first.
    pub service: u16,
    pub stage: StageNow,
}
