//! What stands in the lists of an entry.

ghost use Rattle.std.specs.Prelude.{◌≡◌, Some, refl};
ghost use Rattle.cf_calls.specs.Common.{same_line, same_source, same_number, same_order_item, charged_item, same_charged};
ghost use Rattle.cf_codec_fields.specs.Readings.{Gives};
ghost use Rattle.cf_codec.specs.Acts as spec;
ghost use Rattle.cf_codec.specs.Acts.{line_amount, source_amount, account_item, voucher_item};
ghost use Rattle.cf_codec_fields.specs.Fields.{word, most_amount};
ghost use Rattle.cf_codec_fields.specs.Puts.{HasRoom, Puts};

use cf_calls::items::{AccountItem, Charge, LineAmount, Liquidation, SourceAmount, VoucherItem};
use cf_codec_fields::Refused;
use cf_codec_fields::lists::{DistinctElement, Element};
use cf_codec_fields::put::{put_byte, put_flag, put_half, put_long, put_word};
use cf_codec_fields::take::{
    take_amount, take_flag, take_half, take_most_amount, take_one_of, take_word,
};

/// An amount for a control line.
pub struct LineElement;

impl Element for LineElement {
    type Value = LineAmount;

    ghost format = { line_amount };

    fn len(_value: LineAmount) -> u8 {
        10
    }

    fn put(out: &mut Vec<u8>, value: LineAmount) {
        put_half(out, value.line);
        put_long(out, value.amount);
    }

    fn take(bytes: &[u8]) -> Result<(LineAmount, &[u8]), Refused> {
        let (line, rest) = take_half(bytes)?;
        let (amount, rest) = take_amount(rest)?;
        Ok((LineAmount { line, amount }, rest))
    }
}

impl DistinctElement for LineElement {
    type Key = u16;

    ghost clash = { same_line };

    ghost key = { λ i. Some i.line };

    ghost clash_by_key = { λ _ _. refl };

    fn key(value: LineAmount) -> Option<u16> {
        Some(value.line)
    }
}

/// An amount for a revenue source.
pub struct SourceElement;

impl Element for SourceElement {
    type Value = SourceAmount;

    ghost format = { source_amount };

    fn len(_value: SourceAmount) -> u8 {
        10
    }

    fn put(out: &mut Vec<u8>, value: SourceAmount) {
        put_half(out, value.source);
        put_long(out, value.amount);
    }

    fn take(bytes: &[u8]) -> Result<(SourceAmount, &[u8]), Refused> {
        let (source, rest) = take_half(bytes)?;
        let (amount, rest) = take_amount(rest)?;
        Ok((SourceAmount { source, amount }, rest))
    }
}

impl DistinctElement for SourceElement {
    type Key = u16;

    ghost clash = { same_source };

    ghost key = { λ i. Some i.source };

    ghost clash_by_key = { λ _ _. refl };

    fn key(value: SourceAmount) -> Option<u16> {
        Some(value.source)
    }
}

/// An amount on an account.
pub struct AccountElement;

impl Element for AccountElement {
    type Value = AccountItem;

    ghost format = { account_item };

    fn len(_value: AccountItem) -> u8 {
        14
    }

    fn put(out: &mut Vec<u8>, value: AccountItem) {
        put_half(out, value.fund);
        put_half(out, value.dept);
        put_half(out, value.object);
        put_long(out, value.amount);
    }

    fn take(bytes: &[u8]) -> Result<(AccountItem, &[u8]), Refused> {
        let (fund, rest) = take_half(bytes)?;
        let (dept, rest) = take_half(rest)?;
        let (object, rest) = take_half(rest)?;
        let (amount, rest) = take_amount(rest)?;
        let account = AccountItem {
            fund,
            dept,
            object,
            amount,
        };
        Ok((account, rest))
    }
}

fn liquidation_len(how: Liquidation) -> u8
    ensures { result ≡ spec.liquidation.size how }
{
    match how {
        Liquidation::Lesser => 1,
        Liquidation::Recorded(_) => 9,
        Liquidation::Final => 1,
    }
}

fn put_liquidation(out: &mut Vec<u8>, how: Liquidation)
    requires { HasRoom spec.liquidation how out.old }
    ensures { Puts spec.liquidation how out.old out.new }
{
    match how {
        Liquidation::Lesser => put_byte(out, 0),
        Liquidation::Recorded(recorded) => {
            put_byte(out, 1);
            put_long(out, recorded);
        }
        Liquidation::Final => put_byte(out, 2),
    }
}

fn take_liquidation(bytes: &[u8]) -> Result<(Liquidation, &[u8]), Refused>
    ensures { Gives (λ x. (x.0, x.1.now)) result (spec.liquidation.read bytes.now) }
{
    let (kind, rest) = take_one_of(3, bytes)?;
    match kind {
        0 => Ok((Liquidation::Lesser, rest)),
        1 => {
            let (recorded, rest) = take_amount(rest)?;
            Ok((Liquidation::Recorded(recorded), rest))
        }
        _ => Ok((Liquidation::Final, rest)),
    }
}

fn charge_len(charge: Charge) -> u8
    ensures { result ≡ spec.charge.size charge }
{
    match charge {
        Charge::Direct => 1,
        Charge::OnOrder { how, .. } => 7 + liquidation_len(how),
    }
}

fn put_charge(out: &mut Vec<u8>, charge: Charge)
    requires { HasRoom spec.charge charge out.old }
    ensures { Puts spec.charge charge out.old out.new }
{
    match charge {
        Charge::Direct => put_flag(out, false),
        Charge::OnOrder { order, item, how } => {
            put_flag(out, true);
            put_word(out, order);
            put_half(out, item);
            put_liquidation(out, how);
        }
    }
}

fn take_charge(bytes: &[u8]) -> Result<(Charge, &[u8]), Refused>
    ensures { Gives (λ x. (x.0, x.1.now)) result (spec.charge.read bytes.now) }
{
    let (on_order, rest) = take_flag(bytes)?;
    if !on_order {
        return Ok((Charge::Direct, rest));
    }
    let (order, rest) = take_word(rest)?;
    let (item, rest) = take_half(rest)?;
    let (how, rest) = take_liquidation(rest)?;
    Ok((Charge::OnOrder { order, item, how }, rest))
}

/// An item of a voucher.
pub struct VoucherElement;

impl Element for VoucherElement {
    type Value = VoucherItem;

    ghost format = { voucher_item };

    fn len(value: VoucherItem) -> u8 {
        14 + charge_len(value.charge)
    }

    fn put(out: &mut Vec<u8>, value: VoucherItem) {
        AccountElement::put(out, value.account);
        put_charge(out, value.charge);
    }

    fn take(bytes: &[u8]) -> Result<(VoucherItem, &[u8]), Refused> {
        let (account, rest) = AccountElement::take(bytes)?;
        let (charge, rest) = take_charge(rest)?;
        Ok((VoucherItem { account, charge }, rest))
    }
}

impl DistinctElement for VoucherElement {
    type Key = (u32, u16);

    ghost clash = { same_order_item };

    ghost key = { λ i. charged_item i.charge };

    ghost clash_by_key = { λ a b. same_charged a.charge b.charge };

    fn key(value: VoucherItem) -> Option<(u32, u16)> {
        match value.charge {
            Charge::Direct => None,
            Charge::OnOrder { order, item, .. } => Some((order, item)),
        }
    }
}

/// The number of a voucher.
pub struct VoucherNumber;

impl Element for VoucherNumber {
    type Value = u32;

    ghost format = { word };

    fn len(_value: u32) -> u8 {
        4
    }

    fn put(out: &mut Vec<u8>, value: u32) {
        put_word(out, value);
    }

    fn take(bytes: &[u8]) -> Result<(u32, &[u8]), Refused> {
        take_word(bytes)
    }
}

impl DistinctElement for VoucherNumber {
    type Key = u32;

    ghost clash = { same_number };

    ghost key = { λ n. Some n };

    ghost clash_by_key = { λ _ _. refl };

    fn key(value: u32) -> Option<u32> {
        Some(value)
    }
}

/// The principal of a bond's payment, in cents.
pub struct Principal;

impl Element for Principal {
    type Value = u64;

    ghost format = { most_amount };

    fn len(_value: u64) -> u8 {
        8
    }

    fn put(out: &mut Vec<u8>, value: u64) {
        put_long(out, value);
    }

    fn take(bytes: &[u8]) -> Result<(u64, &[u8]), Refused> {
        take_most_amount(bytes)
    }
}
