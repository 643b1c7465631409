//! The register of capital assets.

ghost use Rattle.std.specs.Prelude.{true, false, Ok, ◌≡◌, ◌≤◌, ◌+◌, ℕ, [], length, slice_index_or, option_to_list, ◌==◌};
ghost use Rattle.std.specs.List.{filter};
ghost use Rattle.cf_base.specs.Common.{most_entries};
ghost use Rattle.cf_assets.specs.Readers.{asset_now_at, look_shown};
ghost use Rattle.cf_assets.specs.Rows.{view_stage};
ghost use Rattle.cf_model.specs.AssetsShown as shown;
ghost use Rattle.cf_assets.specs.Charges.{AreCharges, of_kind};
ghost use Rattle.cf_assets.specs.Register.{asset_draws};
ghost use Rattle.cf_model.specs.Common.{asset_at};
ghost use Rattle.cf_register_parts.specs.Limits.{most_items, most_total};

use crate::charges::{MonthCharges, depreciation_of};
use crate::inventory::Inventory;
use crate::rows::StageNow;
use cf_calls::acts::AssetAct;
use cf_calls::shown::AssetState;
use cf_calls::{Act, Drawn, Read, Shown};
use cf_chart::Chart;
use cf_register_parts::Extent;
use std::alloc::{AllocError, Global};
use std::marker::Model;

/// Capital assets with their depreciation, and right-to-use assets with their amortization. Assets
/// have the numbers 1, 2, 3 ..; the assets of each voucher stand one after another, and the sums by
/// fiscal year are kept as they run.
#[derive(Drop)]
pub struct Assets {
    pub(crate) inventory: Inventory,
    /// The assets of each voucher, by its number from 1.
    pub(crate) vouchers: Vec<Extent>,
    /// The amortization of all leased assets after one closed month, after two, and so on, in
    /// cents.
    pub(crate) amortized: Vec<u128>,
    pub(crate) acts: u32,
}

impl Model for Assets {
    ghost use Rattle.cf_assets.specs.Register.{Register};

    ghost Value = { Register };

    ghost use Rattle.cf_assets.specs.RegisterView.{register_of, IsSound};

    ghost view = { register_of };

    ghost invariant = { IsSound };
}

/// An asset as it stands.
#[derive(Clone, Copy)]
pub struct AssetNow {
    /// In cents.
    pub cost: u64,
    /// The accumulated depreciation, in cents; nothing for a void asset.
    pub depreciation: u64,
    /// The function of the department that acquired it.
    pub function: u16,
}

impl Assets {
    /// A register with no assets and no closed month. It takes no memory.
    pub fn new(alloc: Global) -> Assets
        ensures assets { result.assets ≡ [] }
        ensures closed { result.closed ≡ 0 }
        ensures vouchers { result.vouchers ≡ 0 }
        ensures acts { result.acts ≡ 0 }
    {
        Assets {
            inventory: Inventory::new(alloc),
            vouchers: Vec::new(alloc),
            amortized: Vec::new(alloc),
            acts: 0,
        }
    }

    /// How many months are closed.
    pub fn closed(&self) -> u32
        ensures value { result ≡ self.now.closed }
        ensures most { result ≤ most_entries }
    {
        self.inventory.closed()
    }

    /// The number of the next asset, from 1.
    pub fn next_asset(&self) -> u32
        ensures value { result ≡ length self.now.assets + 1 }
        ensures most { result ≤ most_items + 1 }
    {
        self.inventory.count() + 1
    }

    /// The numbers that an act draws of assets: a gift and a lease their own, and a voucher that of
    /// its first asset, or of the next one where it has none.
    pub fn draws(&self, act: &Act) -> Drawn
        ensures { result ≡ asset_draws self.now.assets act.now }
    {
        let next = self.next_asset();
        match act {
            Act::Voucher(_) => Drawn {
                number: 0,
                second: next,
            },
            Act::Asset(AssetAct::Donate(_)) | Act::Lease(_) => Drawn {
                number: next,
                second: 0,
            },
            Act::Adopt(_)
            | Act::Amend(_)
            | Act::Transfer(_)
            | Act::Requisition(_)
            | Act::Withdraw(_)
            | Act::Order(_)
            | Act::ChangeOrder(_)
            | Act::CancelOrder(_)
            | Act::VoidVoucher(_)
            | Act::Pay(_)
            | Act::Bill(_)
            | Act::Collect(_)
            | Act::Receive(_)
            | Act::WriteOff(_)
            | Act::Asset(AssetAct::Dispose(_))
            | Act::Issue(_)
            | Act::PayDue(_)
            | Act::Leave(_)
            | Act::Interfund(_)
            | Act::Close(_) => Drawn {
                number: 0,
                second: 0,
            },
        }
    }

    /// An asset as it stands: `None` exactly where there is no asset of this number.
    pub fn asset(&self, number: u32) -> Option<AssetNow>
        ensures value { result ≡ asset_now_at self.now.closed number self.now.assets }
        ensures alone { filter (λ a. a.number == number) self.now.assets
            ≡ option_to_list (asset_at number self.now.assets) }
    {
        match self.inventory.find(number) {
            None => None,
            Some(row) => Some(AssetNow {
                cost: row.cost,
                depreciation: depreciation_of(&row, self.inventory.closed()),
                function: row.function,
            }),
        }
    }

    /// What a look at an asset shows: `None` exactly where there is no such asset, and at other
    /// looks. It takes no memory, so there is no `Err`.
    pub fn look(
        &self,
        _alloc: Global,
        _chart: &Chart,
        read: &Read,
    ) -> Result<Option<Shown>, AllocError>
        ensures { result ≡ Ok (look_shown self.now.closed self.now.assets read.now) }
    {
        match read {
            Read::Asset { asset } => Ok(self.look_asset(*asset)),
            Read::Line { .. }
            | Read::Requisition { .. }
            | Read::Order { .. }
            | Read::Voucher { .. }
            | Read::Bill { .. }
            | Read::Bond { .. }
            | Read::Leave { .. }
            | Read::Account { .. }
            | Read::Reconcile { .. }
            | Read::Report { .. } => Ok(None),
        }
    }

    fn look_asset(&self, number: u32) -> Option<Shown>
        ensures { result ≡ shown.asset_shown number self.now.closed self.now.assets }
    {
        match self.inventory.find(number) {
            None => None,
            Some(row) => Some(Shown::Asset {
                cost: row.cost,
                depreciation: depreciation_of(&row, self.inventory.closed()),
                state: state_of(row.stage),
            }),
        }
    }

    /// What the close of the next month charges to each function.
    pub fn month_charges(&self, chart: &Chart) -> MonthCharges
        ensures owned { AreCharges self.now.closed
            (of_kind false self.now.assets) chart.now.functions result.owned }
        ensures leased { AreCharges self.now.closed
            (of_kind true self.now.assets) chart.now.functions result.leased }
        ensures most_owned { (k : ℕ) → slice_index_or result.owned k 0 ≤ most_total }
        ensures most_leased { (k : ℕ) → slice_index_or result.leased k 0 ≤ most_total }
    {
        self.inventory.month_charges(chart.functions())
    }
}

fn state_of(stage: StageNow) -> AssetState
    ensures { result ≡ shown.state_of (view_stage stage) }
{
    match stage {
        StageNow::Held => AssetState::Held,
        StageNow::Void => AssetState::Void,
        StageNow::Disposed { .. } => AssetState::Disposed,
    }
}
