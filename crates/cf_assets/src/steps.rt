//! What each act makes of assets.

ghost use Rattle.std.specs.Prelude.{◌≡◌, ◌≤◌, ◌<◌, ◌+◌, ◌-◌, ◌∷◌, ◌++◌, ◌==◌, [], ℕ, true, if◌then◌else◌, length, map};
ghost use Rattle.std.specs.List.{filter};
ghost use Rattle.cf_assets.specs.Register.{HasRoomForVoucher, IsNextVoucher};
ghost use Rattle.cf_assets.specs.Steps.{AreMost, IsTitled, CanVoid, voids, disposes};
ghost use Rattle.cf_assets.specs.Extents.{AreExtents};
ghost use Rattle.cf_assets.specs.Rows.{view_asset, view_origin};
ghost use Rattle.cf_assets.specs.declared.rows.Acquired.TheVariants.{Bought};
ghost use Rattle.cf_assets.specs.Inventory.{StagesOne};
ghost use Rattle.cf_base.specs.Common.{is_day, last_fiscal_year, most_entries, most_cents};
ghost use Rattle.cf_model.specs.Assets as spec;
ghost use Rattle.cf_calls.specs.Common.{IsLeaseForm};
ghost use Rattle.cf_model.specs.Common.{void, new_asset, bought, leased_life, voucher_of, year_of_day, is_number, number_of_day, first_refusal, Day};
ghost use Rattle.cf_model.specs.RegisterRules as rules;
ghost use Rattle.cf_register_parts.specs.Limits.{most_items};

use crate::assets::Assets;
use crate::inventory::{Inventory, accumulated_after};
use crate::rows::{Acquired, AssetRow, StageNow};
use cf_base::Day;
use cf_calls::Drawn;
use cf_calls::acts::{Donation, NewLease, NewVoucher};
use cf_calls::items::VoucherItem;
use cf_chart::Chart;
use cf_register_parts::{
    Extent, extent_of, function_of, is_capital, life_of, number_of_day, year_of_day,
};

/// How an asset is acquired: how, for which day and fiscal year, and from which month it serves.
#[derive(Clone, Copy)]
pub struct Title {
    pub acquired: Acquired,
    pub on: Day,
    pub year: u16,
    pub service: u16,
}

impl Assets {
    /// Counts an act that is none of the register's own.
    pub(crate) fn count_act(&mut self)
        requires few { self.old.acts < most_entries }
        ensures assets { self.new.assets ≡ self.old.assets }
        ensures closed { self.new.closed ≡ self.old.closed }
        ensures vouchers { self.new.vouchers ≡ self.old.vouchers }
        ensures acts { self.new.acts ≡ self.old.acts + 1 }
    {
        self.acts += 1;
    }

    /// Enters a voucher: each item on a capital object is an asset.
    pub(crate) fn enter_voucher(
        &mut self,
        chart: &Chart,
        on: Day,
        voucher: &NewVoucher,
        drawn: Drawn,
    )
        requires reserved { HasRoomForVoucher (length voucher.now.items) self.old.room }
        requires day { is_day on ≡ true }
        requires items { length voucher.now.items ≤ 32 }
        requires amounts { AreMost voucher.now.items }
        requires drawn { IsNextVoucher drawn self.old }
        requires early { self.old.closed ≤ number_of_day chart.now on }
        requires year { chart.now.first_year + (if voucher.now.back then 1 else 0)
            ≤ year_of_day chart.now on }
        requires few { self.old.acts < most_entries }
        ensures assets { self.new.assets
            ≡ self.old.assets ++ bought chart.now drawn.number on
            (if voucher.now.back then year_of_day chart.now on - 1 else year_of_day chart.now on)
            drawn.second voucher.now.items }
        ensures closed { self.new.closed ≡ self.old.closed }
        ensures vouchers { self.new.vouchers ≡ self.old.vouchers + 1 }
        ensures acts { self.new.acts ≡ self.old.acts + 1 }
    {
        let day_year = year_of_day(chart, on);
        // so the year before that of the day is kept too
        let _first_year = chart.first_year();
        let title = Title {
            acquired: Acquired::Bought(drawn.number),
            on,
            year: if voucher.back { day_year - 1 } else { day_year },
            service: number_of_day(chart, on),
        };
        let first = self.inventory.count();
        buy_all(&mut self.inventory, chart, title, voucher.items.as_slice());
        let end = self.inventory.count();
        self.vouchers.push_reserved(Extent { first, end });
        self.acts += 1;
    }

    /// Voids the assets of a voucher.
    pub(crate) fn void_voucher(&mut self, voucher: u32)
        requires allowed { first_refusal (rules.voided_asset self.old.closed)
            (filter (λ a. is_number (voucher_of a.origin) voucher) self.old.assets) ≡ None }
        requires few { self.old.acts < most_entries }
        ensures assets { self.new.assets ≡ map (voids voucher) self.old.assets }
        ensures closed { self.new.closed ≡ self.old.closed }
        ensures vouchers { self.new.vouchers ≡ self.old.vouchers }
        ensures acts { self.new.acts ≡ self.old.acts + 1 }
    {
        void_all(&mut self.inventory, &self.vouchers, voucher);
        self.acts += 1;
    }

    /// Enters an asset that is given.
    pub(crate) fn accept_gift(&mut self, chart: &Chart, on: Day, gift: &Donation, number: u32)
        requires room { 1 ≤ self.old.room.assets }
        requires day { is_day on ≡ true }
        requires amount { gift.now.amount ≤ most_cents }
        requires number { number ≡ length self.old.assets + 1 }
        requires early { self.old.closed ≤ number_of_day chart.now on }
        requires few { self.old.acts < most_entries }
        ensures assets { self.new.assets
            ≡ self.old.assets ++ new_asset chart.now spec.gift on
            (year_of_day chart.now on) number gift.now.dept
            (spec.life_of chart.now gift.now.object) gift.now.amount ∷ [] }
        ensures closed { self.new.closed ≡ self.old.closed }
        ensures vouchers { self.new.vouchers ≡ self.old.vouchers }
        ensures acts { self.new.acts ≡ self.old.acts + 1 }
    {
        let title = Title {
            acquired: Acquired::Given,
            on,
            year: year_of_day(chart, on),
            service: number_of_day(chart, on),
        };
        let life = life_of(chart, gift.object);
        let row = new_row(chart, title, number, gift.dept, life, gift.amount);
        self.inventory.enter(row);
        self.acts += 1;
    }

    /// Enters an asset that is leased.
    pub(crate) fn accept_lease(&mut self, chart: &Chart, on: Day, lease: &NewLease, number: u32)
        requires room { 1 ≤ self.old.room.assets }
        requires day { is_day on ≡ true }
        requires form { IsLeaseForm on lease.now }
        requires amount { lease.now.account.amount ≤ most_cents }
        requires number { number ≡ length self.old.assets + 1 }
        requires early { self.old.closed ≤ number_of_day chart.now on }
        requires few { self.old.acts < most_entries }
        ensures assets { self.new.assets
            ≡ self.old.assets ++ new_asset chart.now spec.lease on
            (year_of_day chart.now on) number lease.now.account.dept
            (leased_life chart.now lease.now) lease.now.account.amount ∷ [] }
        ensures closed { self.new.closed ≡ self.old.closed }
        ensures vouchers { self.new.vouchers ≡ self.old.vouchers }
        ensures acts { self.new.acts ≡ self.old.acts + 1 }
    {
        let title = Title {
            acquired: Acquired::Leased,
            on,
            year: year_of_day(chart, on),
            service: number_of_day(chart, on),
        };
        let account = lease.account;
        let life = life_of_lease(chart, lease);
        let row = new_row(chart, title, number, account.dept, life, account.amount);
        self.inventory.enter(row);
        self.acts += 1;
    }

    /// Disposes of an asset.
    pub(crate) fn dispose(&mut self, chart: &Chart, on: Day, number: u32)
        requires day { is_day on ≡ true }
        requires allowed { first_refusal (rules.disposed_asset on)
            (filter (λ a. a.number == number) self.old.assets) ≡ None }
        requires few { self.old.acts < most_entries }
        ensures assets { self.new.assets
            ≡ map (disposes number (year_of_day chart.now on) self.old.closed) self.old.assets }
        ensures closed { self.new.closed ≡ self.old.closed }
        ensures vouchers { self.new.vouchers ≡ self.old.vouchers }
        ensures acts { self.new.acts ≡ self.old.acts + 1 }
    {
        dispose_of(&mut self.inventory, chart, on, number);
        self.acts += 1;
    }

    /// Closes the next month.
    pub(crate) fn close_month(&mut self)
        requires room { 1 ≤ self.old.room.months }
        requires few { self.old.acts < most_entries }
        ensures assets { self.new.assets ≡ self.old.assets }
        ensures closed { self.new.closed ≡ self.old.closed + 1 }
        ensures vouchers { self.new.vouchers ≡ self.old.vouchers }
        ensures acts { self.new.acts ≡ self.old.acts + 1 }
    {
        let _count = self.inventory.count();
        let before = accumulated_after(&self.amortized, self.inventory.closed());
        let leased = self.inventory.close();
        self.amortized.push_reserved(before + leased);
        self.acts += 1;
    }
}

/// A leased asset serves for the lesser of the lease's term and its object's life, and for the term
/// where that is land.
fn life_of_lease(chart: &Chart, lease: &NewLease) -> u16
    requires { (on : Day) × IsLeaseForm on lease.now }
    ensures { result ≡ leased_life chart.now lease.now }
{
    let term = lease.terms.every * lease.terms.principals.as_slice().len() as u16;
    let life = life_of(chart, lease.account.object);
    if life == 0 { term } else { term.min(life) }
}

fn new_row(chart: &Chart, title: Title, number: u32, dept: u16, life: u16, cost: u64) -> AssetRow
    requires { IsTitled chart.now title }
    ensures is { view_asset result
        ≡ new_asset chart.now
        (view_origin title.acquired) title.on title.year number dept life cost }
    ensures stage { result.stage ≡ StageNow.Held }
    ensures year { result.year ≡ title.year }
    ensures service { result.service ≡ title.service }
    ensures acquired { result.acquired ≡ title.acquired }
    ensures number { result.number ≡ number }
    ensures cost { result.cost ≡ cost }
{
    AssetRow {
        cost,
        number,
        acquired: title.acquired,
        function: function_of(chart, dept),
        life,
        on: title.on,
        year: title.year,
        service: title.service,
        stage: StageNow::Held,
    }
}

/// Enters an asset for each item of a voucher on a capital object.
fn buy_all(inventory: &mut Inventory, chart: &Chart, title: Title, items: &[VoucherItem])
    requires titled { IsTitled chart.now title }
    requires from { 1970 ≤ title.year }
    requires to { title.year ≤ last_fiscal_year }
    requires early { inventory.old.closed ≤ title.service }
    requires amounts { AreMost items.now }
    requires room { length items.now ≤ inventory.old.room }
    requires few { length inventory.old.assets + length items.now ≤ most_items }
    ensures assets { (n : ℕ) → title.acquired ≡ Bought n
        → inventory.new.assets
        ≡ inventory.old.assets
        ++ bought chart.now n title.on title.year (length inventory.old.assets + 1) items.now }
    ensures closed { inventory.new.closed ≡ inventory.old.closed }
    ensures most { length inventory.new.assets ≤ length inventory.old.assets + length items.now }
{
    for item in items {
        let account = item.account;
        if is_capital(chart, account.object) {
            let number = inventory.count() + 1;
            let row = new_row(
                chart,
                title,
                number,
                account.dept,
                life_of(chart, account.object),
                account.amount,
            );
            inventory.enter(row);
        }
    }
}

/// Voids the assets of a voucher.
fn void_all(inventory: &mut Inventory, vouchers: &Vec<Extent>, voucher: u32)
    requires extents { AreExtents vouchers.now.items inventory.old.assets }
    requires allowed { first_refusal (rules.voided_asset inventory.old.closed)
        (filter (λ a. is_number (voucher_of a.origin) voucher) inventory.old.assets) ≡ None }
    ensures assets { inventory.new.assets ≡ map (voids voucher) inventory.old.assets }
    ensures closed { inventory.new.closed ≡ inventory.old.closed }
{
    let extent = extent_of(vouchers, voucher);
    for at in extent.first as usize..extent.end as usize {
        void_one(inventory, at);
    }
}

/// Voids an asset of a voucher; one that is void already stays so.
fn void_one(inventory: &mut Inventory, at: usize)
    requires within { at < length inventory.old.assets }
    requires allowed { CanVoid at inventory.old }
    ensures assets { StagesOne at void inventory.old.assets inventory.new.assets }
    ensures closed { inventory.new.closed ≡ inventory.old.closed }
{
    match inventory.row(at).stage {
        StageNow::Held => inventory.void_at(at),
        StageNow::Void | StageNow::Disposed { .. } => (),
    }
}

/// Disposes of the asset of a number, in the fiscal year of the day.
fn dispose_of(inventory: &mut Inventory, chart: &Chart, on: Day, number: u32)
    requires day { is_day on ≡ true }
    requires allowed { first_refusal (rules.disposed_asset on)
        (filter (λ a. a.number == number) inventory.old.assets) ≡ None }
    ensures assets { inventory.new.assets
        ≡ map (disposes number (year_of_day chart.now on) inventory.old.closed)
        inventory.old.assets }
    ensures closed { inventory.new.closed ≡ inventory.old.closed }
{
    let year = year_of_day(chart, on);
    let count = inventory.count();
    if 1 <= number && number <= count {
        inventory.dispose_at(number as usize - 1, year);
    }
}
