//! The lists of a call.

ghost use Rattle.std.specs.Prelude.{◌≡◌, ◌++◌, false, true, OnOk};
ghost use Rattle.std.specs.List.{All};
ghost use Rattle.serde_json.specs.Data.{Data};
ghost use Rattle.serde_json.specs.Written.{comma_if};
ghost use Rattle.cf_json_members.specs.Objects.{count, list_of, text_of};
ghost use Rattle.cf_json_calls.specs.CallText.{fields_text};
ghost use Rattle.cf_json_calls.specs.Fits.{IsN32, IsN64, LineAmountFits, SourceAmountFits, AccountFits, VoucherItemFits, ChargeFits, LiquidationFits};
ghost use Rattle.cf_json_calls.specs.Values as spec;

use crate::pieces::{put_comma, put_fields};
use cf_calls::items::{AccountItem, Charge, LineAmount, Liquidation, SourceAmount, VoucherItem};
use cf_json_members::parts::Part::{Number, True};
use cf_json_members::parts::{put_number, put_object};
use std::alloc::AllocError;

/// What stands in a list of a call.
pub trait Item {
    /// Its JSON value.
    ghost value: { Self → Data };

    /// That its numbers fit their types.
    ghost fits: { Self → Type 0 };

    fn put(&self, out: &mut Vec<u8>) -> Result<(), AllocError>
        ensures text { OnOk result (out.new.items ≡ out.old.items ++ text_of (value self.now)) }
        ensures fits { OnOk result (fits self.now) };
}

impl Item for LineAmount {
    ghost value = { spec.line_amount_data };

    ghost fits = { LineAmountFits };

    fn put(&self, out: &mut Vec<u8>) -> Result<(), AllocError> {
        let LineAmount { line, amount } = self;
        put_object(
            out,
            &[("line", Number(*line as u64)), ("amount", Number(*amount))],
        )
    }
}

impl Item for SourceAmount {
    ghost value = { spec.source_amount_data };

    ghost fits = { SourceAmountFits };

    fn put(&self, out: &mut Vec<u8>) -> Result<(), AllocError> {
        let SourceAmount { source, amount } = self;
        put_object(
            out,
            &[
                ("source", Number(*source as u64)),
                ("amount", Number(*amount)),
            ],
        )
    }
}

impl Item for AccountItem {
    ghost value = { spec.account_item_data };

    ghost fits = { AccountFits };

    fn put(&self, out: &mut Vec<u8>) -> Result<(), AllocError> {
        let AccountItem {
            fund,
            dept,
            object,
            amount,
        } = self;
        put_object(
            out,
            &[
                ("fund", Number(*fund as u64)),
                ("dept", Number(*dept as u64)),
                ("object", Number(*object as u64)),
                ("amount", Number(*amount)),
            ],
        )
    }
}

/// Appends the fields of an account with its amount, behind a comma where others stand before them
/// in their object.
pub fn put_account(out: &mut Vec<u8>, later: bool, account: &AccountItem) -> Result<(), AllocError>
    ensures text { OnOk result
        (out.new.items ≡ out.old.items ++ fields_text later (spec.account_fields account.now)) }
    ensures fits { OnOk result (AccountFits account.now) }
{
    let AccountItem {
        fund,
        dept,
        object,
        amount,
    } = account;
    put_fields(
        out,
        later,
        &[
            ("fund", Number(*fund as u64)),
            ("dept", Number(*dept as u64)),
            ("object", Number(*object as u64)),
            ("amount", Number(*amount)),
        ],
    )
}

/// Appends how much is liquidated, where it isn't the lesser amount.
fn put_liquidation(out: &mut Vec<u8>, how: Liquidation) -> Result<(), AllocError>
    ensures text { OnOk result
        (out.new.items ≡ out.old.items ++ fields_text true (spec.liquidation_fields how)) }
    ensures fits { OnOk result (LiquidationFits how) }
{
    match how {
        Liquidation::Lesser => Ok(()),
        Liquidation::Recorded(amount) => put_fields(out, true, &[("recorded", Number(amount))]),
        Liquidation::Final => put_fields(out, true, &[("final", True)]),
    }
}

/// Appends the order item that is charged, where one is.
fn put_charge(out: &mut Vec<u8>, charge: Charge) -> Result<(), AllocError>
    ensures text { OnOk result
        (out.new.items ≡ out.old.items ++ fields_text true (spec.charge_fields charge)) }
    ensures fits { OnOk result (ChargeFits charge) }
{
    match charge {
        Charge::Direct => Ok(()),
        Charge::OnOrder { item, order, how } => {
            put_fields(
                out,
                true,
                &[
                    ("order", Number(order as u64)),
                    ("item", Number(item as u64)),
                ],
            )?;
            put_liquidation(out, how)
        }
    }
}

impl Item for VoucherItem {
    ghost value = { spec.voucher_item_data };

    ghost fits = { VoucherItemFits };

    fn put(&self, out: &mut Vec<u8>) -> Result<(), AllocError> {
        out.push(b'{')?;
        put_account(out, false, &self.account)?;
        put_charge(out, self.charge)?;
        out.push(b'}')?;
        Ok(())
    }
}

impl Item for u32 {
    ghost value = { count };

    ghost fits = { IsN32 };

    #[tactic(auto, unfolding(cf_json_members::specs::Objects::text_of))]
    fn put(&self, out: &mut Vec<u8>) -> Result<(), AllocError> {
        put_number(out, *self as u64)
    }
}

impl Item for u64 {
    ghost value = { count };

    ghost fits = { IsN64 };

    #[tactic(auto, unfolding(cf_json_members::specs::Objects::text_of))]
    fn put(&self, out: &mut Vec<u8>) -> Result<(), AllocError> {
        put_number(out, *self)
    }
}

/// Appends an item, after a comma where others stand before it.
fn put_item<T: Item>(out: &mut Vec<u8>, later: bool, item: &T) -> Result<(), AllocError>
    ensures text { OnOk result
        (out.new.items ≡ out.old.items ++ (comma_if later ++ text_of (T.value item.now))) }
    ensures fits { OnOk result (T.fits item.now) }
{
    put_comma(out, later)?;
    item.put(out)
}

/// Appends a list.
#[tactic(auto, unfolding(cf_json_members::specs::Objects::text_of))]
pub fn put_list<T: Item>(out: &mut Vec<u8>, items: &[T]) -> Result<(), AllocError>
    ensures text { OnOk result
        (out.new.items ≡ out.old.items ++ text_of (list_of T.value items.now)) }
    ensures fits { OnOk result (All T.fits items.now) }
{
    out.push(b'[')?;
    let mut later = false;
    for item in items {
        put_item(out, later, item)?;
        later = true;
    }
    out.push(b']')?;
    Ok(())
}
