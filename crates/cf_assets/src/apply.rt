//! How the register takes in an act.

ghost use Rattle.std.specs.Prelude.{◌≡◌, ◌<◌, ◌≤◌, ◌+◌, ◌++◌, None, true, map, OnOk};
ghost use Rattle.cf_assets.specs.Register.{HasRoomFor, HasRoomForAsset, HasRoomForClose, IsNext, IsNextAsset, IsOf, IsTimely};
ghost use Rattle.cf_base.specs.Common.{is_day, most_entries};
ghost use Rattle.cf_calls.specs.Common.{IsActInForm};
ghost use Rattle.cf_calls.specs.declared.acts.Act.TheVariants as act;
ghost use Rattle.cf_model.specs.Common.{asset_step, assets_by, draws_voucher, number_of_day, asset_refusal, Registers, closed_after, amount_refusal};

use crate::assets::Assets;
use cf_base::Day;
use cf_calls::acts::{AssetAct, Period};
use cf_calls::{Act, Drawn, Entry};
use cf_chart::Chart;
use std::alloc::AllocError;

impl Assets {
    /// Takes all the memory that `apply` needs for an act. No asset changes, whatever the answer.
    pub fn reserve(&mut self, act: &Act) -> Result<(), AllocError>
        ensures ok { OnOk result (HasRoomFor act.now self.new.room) }
        ensures assets { self.new.assets ≡ self.old.assets }
        ensures closed { self.new.closed ≡ self.old.closed }
        ensures vouchers { self.new.vouchers ≡ self.old.vouchers }
        ensures acts { self.new.acts ≡ self.old.acts }
    {
        match act {
            Act::Voucher(voucher) => {
                self.vouchers.reserve(1)?;
                self.inventory.reserve(voucher.items.as_slice().len())
            }
            Act::Asset(AssetAct::Donate(_)) => self.inventory.reserve(1),
            Act::Lease(_) => self.inventory.reserve(1),
            Act::Close(Period::Month(_)) => {
                self.amortized.reserve(1)?;
                self.inventory.reserve_month()
            }
            Act::Adopt(_)
            | Act::Amend(_)
            | Act::Transfer(_)
            | Act::Requisition(_)
            | Act::Withdraw(_)
            | Act::Order(_)
            | Act::ChangeOrder(_)
            | Act::CancelOrder(_)
            | Act::VoidVoucher(_)
            | Act::Pay(_)
            | Act::Bill(_)
            | Act::Collect(_)
            | Act::Receive(_)
            | Act::WriteOff(_)
            | Act::Asset(AssetAct::Dispose(_))
            | Act::Issue(_)
            | Act::PayDue(_)
            | Act::Leave(_)
            | Act::Interfund(_)
            | Act::Close(Period::Year(_)) => Ok(()),
        }
    }

    /// Takes in an entry that the rules allow, with the numbers that its act drew. It takes no
    /// memory, as that was reserved. Another act than the register's own is only counted.
    pub fn apply(&mut self, chart: &Chart, entry: &Entry)
        requires reserved { HasRoomFor entry.now.change.act self.old.room }
        requires day { is_day entry.now.change.on ≡ true }
        requires form { IsActInForm entry.now.change.on entry.now.change.act }
        requires amounts { amount_refusal entry.now.change.act ≡ None }
        requires allowed { (s : Registers) → IsOf s self.old
            → asset_refusal s entry.now.change.on entry.now.change.act ≡ None }
        requires drawn { IsNext entry.now.change.act entry.now.drawn self.old }
        requires timely { IsTimely chart.now self.old.closed
            entry.now.change.on entry.now.change.act }
        requires few { self.old.acts < most_entries }
        ensures assets { self.new.assets
            ≡ map (asset_step chart.now self.old.closed entry.now.change.on entry.now.change.act)
            self.old.assets
            ++ assets_by chart.now entry.now.change.on entry.now.change.act entry.now.drawn }
        ensures closed { self.new.closed ≡ closed_after entry.now.change.act self.old.closed }
        ensures vouchers { self.new.vouchers
            ≡ self.old.vouchers + draws_voucher entry.now.change.act }
        ensures acts { self.new.acts ≡ self.old.acts + 1 }
    {
        let on = entry.change.on;
        let drawn = entry.drawn;
        match &entry.change.act {
            Act::Voucher(voucher) => self.enter_voucher(chart, on, voucher, drawn),
            Act::VoidVoucher(voucher) => self.void_voucher(*voucher),
            Act::Asset(what) => self.take_asset(chart, on, what, drawn),
            Act::Close(period) => self.close(period),
            Act::Lease(lease) => self.accept_lease(chart, on, lease, drawn.number),
            Act::Adopt(_)
            | Act::Amend(_)
            | Act::Transfer(_)
            | Act::Requisition(_)
            | Act::Withdraw(_)
            | Act::Order(_)
            | Act::ChangeOrder(_)
            | Act::CancelOrder(_)
            | Act::Pay(_)
            | Act::Bill(_)
            | Act::Collect(_)
            | Act::Receive(_)
            | Act::WriteOff(_)
            | Act::Issue(_)
            | Act::PayDue(_)
            | Act::Leave(_)
            | Act::Interfund(_) => self.count_act(),
        }
    }

    fn take_asset(&mut self, chart: &Chart, on: Day, what: &AssetAct, drawn: Drawn)
        requires reserved { HasRoomForAsset what.now self.old.room }
        requires day { is_day on ≡ true }
        requires amounts { amount_refusal (act.Asset what.now) ≡ None }
        requires allowed { (s : Registers) → IsOf s self.old
            → asset_refusal s on (act.Asset what.now) ≡ None }
        requires drawn { IsNextAsset what.now drawn self.old }
        requires early { self.old.closed ≤ number_of_day chart.now on }
        requires few { self.old.acts < most_entries }
        ensures assets { self.new.assets
            ≡ map (asset_step chart.now self.old.closed on (act.Asset what.now)) self.old.assets
            ++ assets_by chart.now on (act.Asset what.now) drawn }
        ensures closed { self.new.closed ≡ self.old.closed }
        ensures vouchers { self.new.vouchers ≡ self.old.vouchers }
        ensures acts { self.new.acts ≡ self.old.acts + 1 }
    {
        match what {
            AssetAct::Donate(gift) => self.accept_gift(chart, on, gift, drawn.number),
            AssetAct::Dispose(disposal) => self.dispose(chart, on, disposal.asset),
        }
    }

    /// Closes a month; the close of a year leaves assets as they are.
    fn close(&mut self, period: &Period)
        requires reserved { HasRoomForClose period.now self.old.room }
        requires few { self.old.acts < most_entries }
        ensures assets { self.new.assets ≡ self.old.assets }
        ensures closed { self.new.closed ≡ closed_after (act.Close period.now) self.old.closed }
        ensures vouchers { self.new.vouchers ≡ self.old.vouchers }
        ensures acts { self.new.acts ≡ self.old.acts + 1 }
    {
        match period {
            Period::Month(_) => self.close_month(),
            Period::Year(_) => self.count_act(),
        }
    }
}
