//! Depreciation of assets, and what the close of a month charges.

ghost use Rattle.std.specs.Prelude.{false, ◌≡◌, ◌≤◌, ◌<◌, ◌+◌, ℕ, map, sum_by, length, slice_index_or, ◌^◌, true, MatchOption, replicate};
ghost use Rattle.cf_base.specs.Common.{most_entries, most_cents};
ghost use Rattle.cf_chart.specs.Common.{is_rising};
ghost use Rattle.cf_model.specs.Assets as spec;
ghost use Rattle.cf_model.specs.Common.{depreciation, charge};
ghost use Rattle.cf_assets.specs.Rows.{view_asset, AreRows};
ghost use Rattle.cf_assets.specs.Serving.{ServeAll};
ghost use Rattle.cf_assets.specs.Charges.{AddsTo, AreCharges, HasNot, StandsAt, charge_in, of_kind};
ghost use Rattle.cf_register_parts.specs.Limits.{most_items, most_total};

use crate::rows::{Acquired, AssetRow, StageNow};
use cf_chart::Function;

/// How many functions a chart may have.
pub const MOST_FUNCTIONS: usize = 64;

/// The depreciation of a cost, in cents, after so many months of service: the straight line by
/// whole months, at most those of its life (own rule). Land, whose life is 0, has none.
#[tactic(auto, using(crate::proofs::Charging::fits, crate::proofs::Charging::land))]
pub fn depreciated(cost: u64, life: u16, months: u32) -> u64
    requires { cost ≤ most_cents }
    ensures { result ≡ spec.depreciated cost life months }
{
    if life == 0 {
        0
    } else {
        cost * u64::from(months.min(u32::from(life))) / u64::from(life)
    }
}

/// The accumulated depreciation of an asset over the first so many months, which are closed.
pub fn depreciation_of(row: &AssetRow, months: u32) -> u64
    requires { row.now.cost ≤ most_cents }
    ensures { result ≡ depreciation months (view_asset row.now) }
{
    let counted = match row.stage {
        StageNow::Held => months,
        StageNow::Void => 0,
        StageNow::Disposed { closed, .. } => months.min(closed),
    };
    depreciated(
        row.cost,
        row.life,
        counted.saturating_sub(u32::from(row.service)),
    )
}

/// What the close of the next month charges for an asset.
pub fn charge_of(row: &AssetRow, closed: u32) -> u64
    requires cost { row.now.cost ≤ most_cents }
    requires few { closed ≤ most_entries }
    ensures value { result ≡ charge closed (view_asset row.now) }
    ensures small { result ≤ most_cents }
{
    depreciation_of(row, closed + 1) - depreciation_of(row, closed)
}

/// Whether an asset is leased.
pub fn is_leased(row: &AssetRow) -> bool
    ensures { result ≡ spec.is_leased (view_asset row.now).origin }
{
    match row.acquired {
        Acquired::Leased => true,
        Acquired::Bought(_) | Acquired::Given => false,
    }
}

/// What the close of the next month charges for an asset that is leased; nothing for another.
fn leased_charge_of(row: &AssetRow, closed: u32) -> u64
    requires cost { row.now.cost ≤ most_cents }
    requires few { closed ≤ most_entries }
    ensures value { result ≡ charge_in true closed (view_asset row.now) }
    ensures small { result ≤ most_cents }
{
    if is_leased(row) {
        charge_of(row, closed)
    } else {
        0
    }
}

/// What the close of a month charges, in cents.
#[derive(Clone, Copy)]
pub struct TotalCharges {
    /// For all assets.
    pub all: u128,
    /// For those that are leased.
    pub leased: u128,
}

/// What the close of the next month charges: one pass over the assets in service, for no other is
/// charged.
pub fn total_charges(rows: &[AssetRow], serving: &[u32], closed: u32) -> TotalCharges
    requires rows { AreRows closed rows.now }
    requires serving { ServeAll closed rows.now serving.now }
    requires count { length rows.now ≤ most_items }
    requires few { closed ≤ most_entries }
    ensures all { result.all ≡ sum_by (charge closed) (map view_asset rows.now) }
    ensures leased { result.leased ≡ sum_by (charge_in true closed) (map view_asset rows.now) }
    ensures most { result.leased ≤ most_total }
{
    let mut all = 0;
    let mut leased = 0;
    for at in serving {
        let row = &rows[*at as usize];
        all += u128::from(charge_of(row, closed));
        leased += u128::from(leased_charge_of(row, closed));
    }
    TotalCharges { all, leased }
}

/// The place of a function in the chart's table, by halving it.
fn place_of(functions: &[Function], id: u16) -> Option<usize>
    requires { is_rising (λ f. f.id) functions.now ≡ true }
    ensures { MatchOption result (HasNot id functions.now) (StandsAt id functions.now) }
{
    let mut low = 0;
    let mut high = functions.len();
    'halving: while low < high {
        let middle = low + (high - low) / 2;
        let found = functions[middle].id;
        if found == id {
            return Some(middle);
        }
        if found < id {
            low = middle + 1;
        } else {
            high = middle;
        }
    }
    None
}

/// What the close of a month charges to each function, in cents, by its place in the chart's table.
#[derive(Drop)]
pub struct MonthCharges {
    /// The depreciation of what the city owns.
    pub owned: [u128; MOST_FUNCTIONS],
    /// The amortization of what it leases (GASB Statement 87).
    pub leased: [u128; MOST_FUNCTIONS],
}

fn no_sums() -> [u128; MOST_FUNCTIONS]
    ensures { result ≡ replicate 64 0 }
{
    [0; MOST_FUNCTIONS]
}

/// Adds an amount to the sum of a function.
fn add_to(sums: &mut [u128; MOST_FUNCTIONS], functions: &[Function], id: u16, amount: u64)
    requires few { length functions.now ≤ 64 }
    requires rising { is_rising (λ f. f.id) functions.now ≡ true }
    requires fits { (k : ℕ) → slice_index_or sums.old k 0 + amount < 2 ^ 128 }
    ensures adds { AddsTo id amount functions.now sums.old sums.new }
    ensures most { (k : ℕ) → slice_index_or sums.new k 0 ≤ slice_index_or sums.old k 0 + amount }
{
    if let Some(place) = place_of(functions, id) {
        sums[place] += u128::from(amount);
    }
}

/// Adds what the close of the next month charges for an asset: to its function's amortization where
/// it is leased, else to the depreciation.
fn charge_row(charges: &mut MonthCharges, functions: &[Function], row: &AssetRow, closed: u32)
    requires cost { row.now.cost ≤ most_cents }
    requires months { closed ≤ most_entries }
    requires few { length functions.now ≤ 64 }
    requires rising { is_rising (λ f. f.id) functions.now ≡ true }
    requires owned_fits { (k : ℕ) → slice_index_or charges.old.owned k 0 + most_cents < 2 ^ 128 }
    requires leased_fits { (k : ℕ) → slice_index_or charges.old.leased k 0 + most_cents < 2 ^ 128 }
    ensures owned { AddsTo row.now.function
        (charge_in false closed (view_asset row.now)) functions.now charges.old.owned
        charges.new.owned }
    ensures leased { AddsTo row.now.function
        (charge_in true closed (view_asset row.now)) functions.now charges.old.leased
        charges.new.leased }
    ensures most_owned { (k : ℕ)
        → slice_index_or charges.new.owned k 0 ≤ slice_index_or charges.old.owned k 0 + most_cents }
    ensures most_leased { (k : ℕ) → slice_index_or charges.new.leased k 0
        ≤ slice_index_or charges.old.leased k 0 + most_cents }
{
    let amount = charge_of(row, closed);
    if is_leased(row) {
        add_to(&mut charges.leased, functions, row.function, amount);
    } else {
        add_to(&mut charges.owned, functions, row.function, amount);
    }
}

/// What the close of the next month charges to each function: one pass over the assets in service.
pub fn function_charges(
    rows: &[AssetRow],
    serving: &[u32],
    closed: u32,
    functions: &[Function],
) -> MonthCharges
    requires rows { AreRows closed rows.now }
    requires serving { ServeAll closed rows.now serving.now }
    requires count { length rows.now ≤ most_items }
    requires months { closed ≤ most_entries }
    requires few { length functions.now ≤ 64 }
    requires rising { is_rising (λ f. f.id) functions.now ≡ true }
    ensures owned { AreCharges closed
        (of_kind false (map view_asset rows.now)) functions.now result.owned }
    ensures leased { AreCharges closed
        (of_kind true (map view_asset rows.now)) functions.now result.leased }
    ensures most_owned { (k : ℕ) → slice_index_or result.owned k 0 ≤ most_total }
    ensures most_leased { (k : ℕ) → slice_index_or result.leased k 0 ≤ most_total }
{
    let mut charges = MonthCharges {
        owned: no_sums(),
        leased: no_sums(),
    };
    for at in serving {
        charge_row(&mut charges, functions, &rows[*at as usize], closed);
    }
    charges
}
