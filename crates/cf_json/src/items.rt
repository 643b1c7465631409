//! What stands in the lists of a call.

ghost use Rattle.std.specs.Prelude.{◌≡◌, true, Some, None, IfSome, refl};
ghost use Rattle.serde_json.specs.View.{view};
ghost use Rattle.cf_base.specs.Common.{is_amount};
ghost use Rattle.cf_calls.specs.Common.{same_line, same_source, same_number, same_order_item, is_liquidation_form, is_charge_form, charged_item, same_charged};
ghost use Rattle.cf_json_members.specs.Kinds.{as_n32, as_count};
ghost use Rattle.cf_json.specs.Items as spec;
ghost use Rattle.cf_json.specs.Items.{as_line_amount, as_source_amount, as_account, as_account_item, as_voucher_item, never};

use cf_calls::items::{AccountItem, Charge, LineAmount, Liquidation, SourceAmount, VoucherItem};
use cf_json_members::fields::has_only;
use cf_json_members::kinds::{Amount, Count, FieldKind, Flag, N16, N32};
use cf_json_members::lists::Item;
use serde_json::Value;

/// A field of an item.
fn part<K: FieldKind>(value: &Value, name: &str) -> Option<K::Out>
    ensures { result ≡ spec.part K.kind name.now (view value.now) }
{
    match value.get(name) {
        Some(found) => K::read(found),
        None => None,
    }
}

/// A field of an item that may be absent.
fn maybe_part<K: FieldKind>(value: &Value, name: &str) -> Option<Option<K::Out>>
    ensures answer { result ≡ spec.maybe_part K.kind name.now (view value.now) }
    ensures form { IfSome result (λ o. IfSome o K.fits) }
{
    match value.get(name) {
        Some(found) => match K::read(found) {
            Some(out) => Some(Some(out)),
            None => None,
        },
        None => Some(None),
    }
}

/// An amount for a control line.
pub struct LineItem;

impl FieldKind for LineItem {
    type Out = LineAmount;

    ghost kind = { as_line_amount };

    ghost fits = { λ _. Unit {0} };

    fn read(value: &Value) -> Option<LineAmount> {
        let line = part::<N16>(value, "line")?;
        let amount = part::<Count>(value, "amount")?;
        has_only(value, &["line", "amount"]).then_some(LineAmount { line, amount })
    }
}

impl Item for LineItem {
    type Key = u16;

    ghost clash = { same_line };

    ghost key = { λ i. Some i.line };

    ghost clash_by_key = { λ _ _. refl };

    fn key(item: &LineAmount) -> Option<u16> {
        Some(item.line)
    }
}

/// An amount for a revenue source.
pub struct SourceItem;

impl FieldKind for SourceItem {
    type Out = SourceAmount;

    ghost kind = { as_source_amount };

    ghost fits = { λ _. Unit {0} };

    fn read(value: &Value) -> Option<SourceAmount> {
        let source = part::<N16>(value, "source")?;
        let amount = part::<Count>(value, "amount")?;
        has_only(value, &["source", "amount"]).then_some(SourceAmount { source, amount })
    }
}

impl Item for SourceItem {
    type Key = u16;

    ghost clash = { same_source };

    ghost key = { λ i. Some i.source };

    ghost clash_by_key = { λ _ _. refl };

    fn key(item: &SourceAmount) -> Option<u16> {
        Some(item.source)
    }
}

/// An account with its amount, where other fields may stand beside.
fn account(value: &Value) -> Option<AccountItem>
    ensures { result ≡ as_account (view value.now) }
{
    let fund = part::<N16>(value, "fund")?;
    let dept = part::<N16>(value, "dept")?;
    let object = part::<N16>(value, "object")?;
    let amount = part::<Count>(value, "amount")?;
    Some(AccountItem {
        fund,
        dept,
        object,
        amount,
    })
}

/// An amount on an account.
pub struct PlainItem;

impl FieldKind for PlainItem {
    type Out = AccountItem;

    ghost kind = { as_account_item };

    ghost fits = { λ _. Unit {0} };

    fn read(value: &Value) -> Option<AccountItem> {
        let account = account(value)?;
        has_only(value, &["fund", "dept", "object", "amount"]).then_some(account)
    }
}

impl Item for PlainItem {
    type Key = ();

    ghost clash = { never };

    ghost key = { λ _. None };

    ghost clash_by_key = { λ _ _. refl };

    fn key(_item: &AccountItem) -> Option<()> {
        None
    }
}

/// How much of an order item is liquidated: at most one of the two is given.
fn liquidation(recorded: Option<u64>, is_final: bool) -> Option<Liquidation>
    requires { IfSome recorded (λ r. is_amount r ≡ true) }
    ensures answer { result ≡ spec.liquidation_of recorded is_final }
    ensures form { IfSome result (λ l. is_liquidation_form l ≡ true) }
{
    match recorded {
        None => Some(if is_final {
            Liquidation::Final
        } else {
            Liquidation::Lesser
        }),
        Some(cents) => if is_final {
            None
        } else {
            Some(Liquidation::Recorded(cents))
        },
    }
}

/// What a voucher item is charged against: order and item are given together, and the rest only
/// with them.
fn charge_of(
    order: Option<u32>,
    item: Option<u16>,
    recorded: Option<u64>,
    is_final: bool,
) -> Option<Charge>
    requires { IfSome recorded (λ r. is_amount r ≡ true) }
    ensures answer { result ≡ spec.charge_of order item recorded is_final }
    ensures form { IfSome result (λ c. is_charge_form c ≡ true) }
{
    match (order, item) {
        (None, None) => (recorded.is_none() && !is_final).then_some(Charge::Direct),
        (Some(order), Some(item)) => {
            let how = liquidation(recorded, is_final)?;
            Some(Charge::OnOrder { order, item, how })
        }
        _ => None,
    }
}

fn charge(value: &Value) -> Option<Charge>
    ensures answer { result ≡ spec.as_charge (view value.now) }
    ensures form { IfSome result (λ c. is_charge_form c ≡ true) }
{
    let order = maybe_part::<N32>(value, "order")?;
    let item = maybe_part::<N16>(value, "item")?;
    let recorded = maybe_part::<Amount>(value, "recorded")?;
    let is_final = maybe_part::<Flag>(value, "final")?;
    charge_of(order, item, recorded, is_final.unwrap_or(false))
}

/// The fields of a voucher item.
const VOUCHER_ITEM: [&str; 8] = [
    "fund", "dept", "object", "amount", "order", "item", "recorded", "final",
];

/// An item of a voucher.
pub struct ChargedItem;

impl FieldKind for ChargedItem {
    type Out = VoucherItem;

    ghost kind = { as_voucher_item };

    ghost fits = { λ i. is_charge_form i.charge ≡ true };

    fn read(value: &Value) -> Option<VoucherItem> {
        let account = account(value)?;
        let charge = charge(value)?;
        has_only(value, &VOUCHER_ITEM).then_some(VoucherItem { account, charge })
    }
}

impl Item for ChargedItem {
    type Key = (u32, u16);

    ghost clash = { same_order_item };

    ghost key = { λ i. charged_item i.charge };

    ghost clash_by_key = { λ a b. same_charged a.charge b.charge };

    fn key(item: &VoucherItem) -> Option<(u32, u16)> {
        match item.charge {
            Charge::Direct => None,
            Charge::OnOrder { order, item, .. } => Some((order, item)),
        }
    }
}

/// The number of a voucher.
pub struct VoucherNumber;

impl FieldKind for VoucherNumber {
    type Out = u32;

    ghost kind = { as_n32 };

    ghost fits = { λ _. Unit {0} };

    fn read(value: &Value) -> Option<u32> {
        N32::read(value)
    }
}

impl Item for VoucherNumber {
    type Key = u32;

    ghost clash = { same_number };

    ghost key = { λ n. Some n };

    ghost clash_by_key = { λ _ _. refl };

    fn key(item: &u32) -> Option<u32> {
        Some(*item)
    }
}

/// The principal of a bond's payment, in cents.
pub struct Principal;

impl FieldKind for Principal {
    type Out = u64;

    ghost kind = { as_count };

    ghost fits = { λ _. Unit {0} };

    fn read(value: &Value) -> Option<u64> {
        Count::read(value)
    }
}

impl Item for Principal {
    type Key = ();

    ghost clash = { never };

    ghost key = { λ _. None };

    ghost clash_by_key = { λ _ _. refl };

    fn key(_item: &u64) -> Option<()> {
        None
    }
}
