//! The rules on assets.

ghost use Rattle.std.specs.Prelude.{◌≡◌, ◌≤◌, ◌==◌};
ghost use Rattle.std.specs.List.{filter};
ghost use Rattle.cf_assets.specs.Extents.{AreExtents};
ghost use Rattle.cf_assets.specs.Register.{IsOf};
ghost use Rattle.cf_assets.specs.Rows.{view_asset};
ghost use Rattle.cf_model.specs.Common.{voucher_of, is_number, Registers, asset_refusal, first_refusal};
ghost use Rattle.cf_model.specs.RegisterRules as spec;
ghost use Rattle.cf_base.specs.Common.{most_cents};

use crate::assets::Assets;
use crate::charges::{depreciation_of, is_leased};
use crate::inventory::Inventory;
use crate::rows::{AssetRow, StageNow};
use cf_base::Day;
use cf_calls::acts::AssetAct;
use cf_calls::{Act, AssetFault, Refusal};
use cf_chart::Chart;
use cf_register_parts::{Extent, extent_of, is_before};

impl Assets {
    /// The rule of the register that an act breaks: an asset that isn't in the needed state. Of a
    /// voucher's assets the one of the least number speaks. `None` at other acts than the void of a
    /// voucher and a disposal.
    pub fn check(&self, _chart: &Chart, on: Day, _desk: u16, act: &Act) -> Option<Refusal>
        ensures { (s : Registers) → IsOf s self.now → result ≡ asset_refusal s on act.now }
    {
        match act {
            Act::VoidVoucher(voucher) => self.void_refusal(*voucher),
            Act::Asset(AssetAct::Dispose(disposal)) => self.disposal_refusal(on, disposal.asset),
            Act::Adopt(_)
            | Act::Amend(_)
            | Act::Transfer(_)
            | Act::Requisition(_)
            | Act::Withdraw(_)
            | Act::Order(_)
            | Act::ChangeOrder(_)
            | Act::CancelOrder(_)
            | Act::Voucher(_)
            | Act::Pay(_)
            | Act::Bill(_)
            | Act::Collect(_)
            | Act::Receive(_)
            | Act::WriteOff(_)
            | Act::Asset(AssetAct::Donate(_))
            | Act::Issue(_)
            | Act::PayDue(_)
            | Act::Leave(_)
            | Act::Interfund(_)
            | Act::Close(_)
            | Act::Lease(_) => None,
        }
    }

    /// An asset of a voucher that can't be voided.
    fn void_refusal(&self, voucher: u32) -> Option<Refusal>
        ensures { result ≡ first_refusal (spec.voided_asset self.now.closed)
            (filter (λ a. is_number (voucher_of a.origin) voucher) self.now.assets) }
    {
        bought_refusal(&self.inventory, &self.vouchers, voucher)
    }

    fn disposal_refusal(&self, on: Day, number: u32) -> Option<Refusal>
        ensures { result ≡ first_refusal (spec.disposed_asset on)
            (filter (λ a. a.number == number) self.now.assets) }
    {
        match self.inventory.find(number) {
            None => None,
            Some(row) => disposed_asset(on, &row),
        }
    }
}

/// The first asset of a voucher that can't be voided.
fn bought_refusal(inventory: &Inventory, vouchers: &Vec<Extent>, voucher: u32) -> Option<Refusal>
    requires { AreExtents vouchers.now.items inventory.now.assets }
    ensures { result ≡ first_refusal (spec.voided_asset inventory.now.closed)
        (filter (λ a. is_number (voucher_of a.origin) voucher) inventory.now.assets) }
{
    let closed = inventory.closed();
    let extent = extent_of(vouchers, voucher);
    for at in extent.first as usize..extent.end as usize {
        let refusal = voided_asset(&inventory.row(at), closed);
        if refusal.is_some() {
            return refusal;
        }
    }
    None
}

/// Nothing was charged for an asset that is voided, and it isn't disposed of.
fn voided_asset(row: &AssetRow, closed: u32) -> Option<Refusal>
    requires { row.now.cost ≤ most_cents }
    ensures { result ≡ spec.voided_asset closed (view_asset row.now) }
{
    if depreciation_of(row, closed) > 0 {
        return Some(asset_state(row.number, AssetFault::Charged));
    }
    match row.stage {
        StageNow::Disposed { .. } => Some(asset_state(row.number, AssetFault::Disposed)),
        StageNow::Held | StageNow::Void => None,
    }
}

/// An asset that is disposed of is held, isn't leased, and was acquired on that day or before.
fn disposed_asset(on: Day, row: &AssetRow) -> Option<Refusal>
    ensures { result ≡ spec.disposed_asset on (view_asset row.now) }
{
    match row.stage {
        StageNow::Void => Some(asset_state(row.number, AssetFault::Void)),
        StageNow::Disposed { .. } => Some(asset_state(row.number, AssetFault::Disposed)),
        StageNow::Held if is_leased(row) => Some(asset_state(row.number, AssetFault::Leased)),
        StageNow::Held if is_before(on, row.on) => {
            Some(asset_state(row.number, AssetFault::Later))
        }
        StageNow::Held => None,
    }
}

fn asset_state(asset: u32, state: AssetFault) -> Refusal
    ensures { result ≡ Refusal.AssetState asset state }
{
    Refusal::AssetState { asset, state }
}
