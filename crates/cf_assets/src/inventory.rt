//! Capital assets by number, with their sums by fiscal year.

ghost use Rattle.std.specs.Prelude.{false, ◌≡◌, ◌≤◌, ◌<◌, ◌+◌, ◌^◌, ◌∷◌, ◌++◌, ℕ, [], true, is_some, length, sum, sum_by, slice_index_or, OnOk, IfSome, option_map, option_to_list, ◌==◌};
ghost use Rattle.std.specs.List.{filter};
ghost use Rattle.cf_base.specs.Common.{last_fiscal_year, most_entries, most_cents};
ghost use Rattle.cf_chart.specs.Common.{is_rising};
ghost use Rattle.cf_assets.specs.Charges.{AreCharges, charge_in, of_kind};
ghost use Rattle.cf_assets.specs.Inventory.{AreCheap, AreNumbered, StagesOne, accumulated_at};
ghost use Rattle.cf_assets.specs.Rows.{view_asset, view_origin, IsRow};
ghost use Rattle.cf_assets.specs.Years.{with_cost};
ghost use Rattle.cf_assets.specs.Inventory as spec;
ghost use Rattle.cf_model.specs.Common.{Asset, void, disposed, voucher_of, is_given, is_leased, asset_at};
ghost use Rattle.cf_model.specs.Assets.{held};
ghost use Rattle.cf_register_parts.specs.Limits.{most_items, most_total};

use crate::charges::{MonthCharges, depreciation_of, function_charges, total_charges};
use crate::rows::{Acquired, AssetRow, StageNow};
use crate::serving::{enlist, retire};
use cf_chart::Function;
use cf_register_parts::{YEARS, lower, no_years, raise};
use std::alloc::{AllocError, Global};
use std::marker::Model;

/// Assets by number, from 1. What all of them were depreciated by is kept after each closed month,
/// and what was bought, given, leased and disposed of by fiscal year, so that nothing goes over all assets
/// again.
#[derive(Drop)]
pub struct Inventory {
    pub(crate) rows: Vec<AssetRow>,
    /// The places of the assets that may still be charged.
    pub(crate) serving: Vec<u32>,
    /// The depreciation of all assets after one closed month, after two, and so on, in cents.
    pub(crate) accumulated: Vec<u128>,
    /// The cost of what vouchers bought, in cents, by fiscal year.
    pub(crate) outlay: [u128; YEARS],
    pub(crate) donated: [u128; YEARS],
    pub(crate) leased: [u128; YEARS],
    /// The book value of what was disposed of.
    pub(crate) disposals: [u128; YEARS],
}

impl Model for Inventory {
    ghost use Rattle.cf_assets.specs.Inventory as inventory;

    ghost Value = { inventory.Inventory };

    ghost use Rattle.cf_assets.specs.InventoryView.{inventory_of, IsSound};

    ghost view = { inventory_of };

    ghost invariant = { IsSound };
}

impl Inventory {
    /// No assets, and no closed month. It takes no memory.
    pub fn new(alloc: Global) -> Inventory
        ensures assets { result.assets ≡ [] }
        ensures closed { result.closed ≡ 0 }
    {
        Inventory {
            rows: Vec::new(alloc),
            serving: Vec::new(alloc),
            accumulated: Vec::new(alloc),
            outlay: no_years(),
            donated: no_years(),
            leased: no_years(),
            disposals: no_years(),
        }
    }

    /// How many assets there are.
    pub fn count(&self) -> u32
        ensures value { result ≡ length self.now.assets }
        ensures most { result ≤ most_items }
        ensures numbered { AreNumbered self.now.assets }
        ensures cheap { AreCheap self.now.assets }
    {
        self.rows.len() as u32
    }

    /// How many months are closed.
    pub fn closed(&self) -> u32
        ensures value { result ≡ self.now.closed }
        ensures most { result ≤ most_entries }
    {
        self.accumulated.len() as u32
    }

    /// The asset at a place, from 0.
    pub fn row(&self, at: usize) -> AssetRow
        requires { at < length self.now.assets }
        ensures is { (d : Asset) → view_asset result ≡ slice_index_or self.now.assets at d }
        ensures row { IsRow self.now.closed at result }
    {
        self.rows[at]
    }

    /// The asset of a number.
    pub fn find(&self, number: u32) -> Option<AssetRow>
        ensures value { option_map view_asset result ≡ asset_at number self.now.assets }
        ensures alone { filter (λ a. a.number == number) self.now.assets
            ≡ option_to_list (asset_at number self.now.assets) }
        ensures small { IfSome result (λ r. r.cost ≤ most_cents) }
    {
        if number == 0 || number as usize > self.rows.len() {
            return None;
        }
        Some(self.rows[number as usize - 1])
    }

    /// Takes memory for so many assets more.
    pub fn reserve(&mut self, count: usize) -> Result<(), AllocError>
        ensures ok { OnOk result (count ≤ self.new.room) }
        ensures assets { self.new.assets ≡ self.old.assets }
        ensures closed { self.new.closed ≡ self.old.closed }
    {
        self.rows.reserve(count)?;
        self.serving.reserve(count)
    }

    /// Takes memory for the close of a month.
    pub fn reserve_month(&mut self) -> Result<(), AllocError>
        ensures ok { OnOk result (1 ≤ self.new.months) }
        ensures assets { self.new.assets ≡ self.old.assets }
        ensures closed { self.new.closed ≡ self.old.closed }
    {
        self.accumulated.reserve(1)
    }

    /// Enters an asset. It takes no memory.
    pub fn enter(&mut self, row: AssetRow)
        requires new { spec.IsNew row self.old }
        requires room { 1 ≤ self.old.room }
        requires few { length self.old.assets < most_items }
        ensures assets { self.new.assets ≡ self.old.assets ++ view_asset row ∷ [] }
        ensures closed { self.new.closed ≡ self.old.closed }
        ensures room { self.old.room ≤ self.new.room + 1 }
    {
        let at = self.rows.len() as u32;
        add_cost(&mut self.outlay, &mut self.donated, &mut self.leased, &row);
        enlist(&mut self.serving, at, &row);
        self.rows.push_reserved(row);
    }

    /// Voids an asset that a voucher bought, and that nothing was charged for.
    pub fn void_at(&mut self, at: usize)
        requires within { at < length self.old.assets }
        requires fresh { spec.IsFreshAt at self.old }
        ensures assets { StagesOne at void self.old.assets self.new.assets }
        ensures closed { self.new.closed ≡ self.old.closed }
    {
        let row = self.rows[at];
        lower(&mut self.outlay, row.year, row.cost);
        self.rows[at] = staged(row, StageNow::Void);
    }

    /// Disposes of an asset that is held, in a fiscal year.
    pub fn dispose_at(&mut self, at: usize, year: u16)
        requires within { at < length self.old.assets }
        requires held { spec.IsHeldAt at self.old }
        requires from { 1970 ≤ year }
        requires to { year ≤ last_fiscal_year }
        ensures assets { StagesOne at
            (disposed year self.old.closed) self.old.assets self.new.assets }
        ensures closed { self.new.closed ≡ self.old.closed }
    {
        let row = self.rows[at];
        let closed = self.accumulated.len() as u32;
        let book_value = row.cost - depreciation_of(&row, closed);
        raise(&mut self.disposals, year, book_value);
        self.rows[at] = staged(row, StageNow::Disposed { year, closed });
    }

    /// Closes a month: each asset in service is charged. Gives what is charged for leased assets,
    /// in cents. It takes no memory.
    pub fn close(&mut self) -> u128
        requires few { self.old.closed < most_entries }
        requires room { 1 ≤ self.old.months }
        ensures leased { result ≡ sum_by (charge_in true self.old.closed) self.old.assets }
        ensures most { result ≤ most_total }
        ensures assets { self.new.assets ≡ self.old.assets }
        ensures closed { self.new.closed ≡ self.old.closed + 1 }
    {
        let closed = self.accumulated.len() as u32;
        let before = accumulated_after(&self.accumulated, closed);
        let charges = total_charges(&self.rows, &self.serving, closed);
        self.accumulated.push_reserved(before + charges.all);
        retire(&mut self.serving, &self.rows, closed + 1);
        charges.leased
    }

    /// What the close of the next month charges to each function.
    pub fn month_charges(&self, functions: &[Function]) -> MonthCharges
        requires few { length functions.now ≤ 64 }
        requires rising { is_rising (λ f. f.id) functions.now ≡ true }
        ensures owned { AreCharges self.now.closed
            (of_kind false self.now.assets) functions.now result.owned }
        ensures leased { AreCharges self.now.closed
            (of_kind true self.now.assets) functions.now result.leased }
        ensures most_owned { (k : ℕ) → slice_index_or result.owned k 0 ≤ most_total }
        ensures most_leased { (k : ℕ) → slice_index_or result.leased k 0 ≤ most_total }
    {
        let closed = self.accumulated.len() as u32;
        function_charges(&self.rows, &self.serving, closed, functions)
    }
}

/// What all assets were depreciated by after so many closed months.
pub fn accumulated_after(accumulated: &Vec<u128>, months: u32) -> u128
    requires { months ≤ length accumulated.now.items }
    ensures { result ≡ accumulated_at accumulated.now.items months }
{
    if months == 0 {
        return 0;
    }
    accumulated[months as usize - 1]
}

fn staged(row: AssetRow, stage: StageNow) -> AssetRow
    ensures { result ≡ record row { stage = stage } }
{
    let mut row = row;
    row.stage = stage;
    row
}

/// Adds the cost of a new asset to its fiscal year, among what was bought, given or leased.
fn add_cost(
    outlay: &mut [u128; YEARS],
    donated: &mut [u128; YEARS],
    leased: &mut [u128; YEARS],
    row: &AssetRow,
)
    requires from { 1970 ≤ row.now.year }
    requires to { row.now.year ≤ last_fiscal_year }
    requires outlay_fits { sum outlay.old + row.now.cost < 2 ^ 128 }
    requires donated_fits { sum donated.old + row.now.cost < 2 ^ 128 }
    requires leased_fits { sum leased.old + row.now.cost < 2 ^ 128 }
    ensures outlay { outlay.new
        ≡ with_cost (is_some (voucher_of (view_origin row.now.acquired))) row.now outlay.old }
    ensures donated { donated.new
        ≡ with_cost (is_given (view_origin row.now.acquired)) row.now donated.old }
    ensures leased { leased.new
        ≡ with_cost (is_leased (view_origin row.now.acquired)) row.now leased.old }
{
    match row.acquired {
        Acquired::Bought(_) => raise(outlay, row.year, row.cost),
        Acquired::Given => raise(donated, row.year, row.cost),
        Acquired::Leased => raise(leased, row.year, row.cost),
    }
}
