//! The readers of the acts: the fields of each in order, with the rules of form where they speak.
//! Each gives the act and the bytes after it.

ghost use Rattle.std.specs.Prelude.{◌≡◌, ◌+◌, ◌*◌, ◌<◌, nat_le, sum};
ghost use Rattle.cf_base.specs.Common.{last_year};
ghost use Rattle.cf_calls.specs.Common.{is_period, month_number};
ghost use Rattle.cf_calls.specs.declared.acts.Act.TheVariants as act;
ghost use Rattle.cf_codec.specs.Acts as spec;
ghost use Rattle.cf_codec_fields.specs.Readings.{Gives};
ghost use Rattle.cf_codec_fields.specs.Formats.{kept};
ghost use Rattle.cf_codec_fields.specs.Fields.{byte, word};

use crate::items::{
    AccountElement, LineElement, Principal, SourceElement, VoucherElement, VoucherNumber,
};
use cf_base::{Day, LAST_YEAR};
use cf_calls::acts::{
    Adoption, Amendment, AssetAct, BillAmount, BondIssue, DebtPayment, Disposal, Donation,
    FundMove, LeaveAct, LeaveAmount, LeaveMaturity, LineTransfer, NewBill, NewLease, NewOrder,
    NewRequisition, NewVoucher, OrderChange, Payment, Period, Terms,
};
use cf_calls::items::Principals;
use cf_calls::{Act, ActKind};
use cf_codec_fields::Refused;
use cf_codec_fields::lists::{Element, take_distinct, take_list};
use cf_codec_fields::take::{
    faulty, or_faulty, take_amount, take_byte, take_flag, take_half, take_month, take_most_amount,
    take_move_kind, take_one_of, take_signed, take_word, take_year,
};
use std::alloc::Global;

fn take_adoption(alloc: Global, bytes: &[u8]) -> Result<(Act, &[u8]), Refused>
    ensures { Gives (λ x. (x.0, x.1.now)) result
        (spec.made act.Adopt (spec.adoption.read bytes.now)) }
{
    let (fund, rest) = take_half(bytes)?;
    let (year, rest) = take_year(rest)?;
    let (lines, rest) = take_distinct::<LineElement>(alloc, 0, 4096, rest)?;
    let (estimates, rest) = take_distinct::<SourceElement>(alloc, 0, 256, rest)?;
    let adoption = Adoption {
        fund,
        year,
        lines,
        estimates,
    };
    Ok((Act::Adopt(adoption), rest))
}

fn take_amendment(bytes: &[u8]) -> Result<(Act, &[u8]), Refused>
    ensures { Gives (λ x. (x.0, x.1.now)) result
        (spec.made act.Amend (spec.amendment.read bytes.now)) }
{
    let (fund, rest) = take_half(bytes)?;
    let (year, rest) = take_year(rest)?;
    let (line, rest) = take_half(rest)?;
    let (by, rest) = take_signed(rest)?;
    let amendment = Amendment {
        fund,
        year,
        line,
        by,
    };
    Ok((Act::Amend(amendment), rest))
}

/// A number of two bytes other than this one.
fn take_other_than(number: u16, bytes: &[u8]) -> Result<(u16, &[u8]), Refused>
    ensures { Gives (λ x. (x.0, x.1.now)) result ((spec.other_than number).read bytes.now) }
{
    let (n, rest) = take_half(bytes)?;
    or_faulty((number != n).then_some(n), rest, bytes)
}

fn take_transfer(bytes: &[u8]) -> Result<(Act, &[u8]), Refused>
    ensures { Gives (λ x. (x.0, x.1.now)) result
        (spec.made act.Transfer (spec.transfer.read bytes.now)) }
{
    let (fund, rest) = take_half(bytes)?;
    let (year, rest) = take_year(rest)?;
    let (from, rest) = take_half(rest)?;
    let (to, rest) = take_other_than(from, rest)?;
    let (amount, rest) = take_amount(rest)?;
    let transfer = LineTransfer {
        fund,
        year,
        from,
        to,
        amount,
    };
    Ok((Act::Transfer(transfer), rest))
}

fn take_new_requisition(alloc: Global, bytes: &[u8]) -> Result<(Act, &[u8]), Refused>
    ensures { Gives (λ x. (x.0, x.1.now)) result
        (spec.made act.Requisition (spec.new_requisition.read bytes.now)) }
{
    let (items, rest) = take_list::<AccountElement>(alloc, 1, 32, bytes)?;
    Ok((Act::Requisition(NewRequisition { items }), rest))
}

fn take_withdrawal(bytes: &[u8]) -> Result<(Act, &[u8]), Refused>
    ensures { Gives (λ x. (x.0, x.1.now)) result (spec.made act.Withdraw (word.read bytes.now)) }
{
    let (requisition, rest) = take_word(bytes)?;
    Ok((Act::Withdraw(requisition), rest))
}

fn take_optional(bytes: &[u8]) -> Result<(Option<u32>, &[u8]), Refused>
    ensures { Gives (λ x. (x.0, x.1.now)) result (spec.optional.read bytes.now) }
{
    let (is_there, rest) = take_flag(bytes)?;
    if !is_there {
        return Ok((None, rest));
    }
    let (number, rest) = take_word(rest)?;
    Ok((Some(number), rest))
}

fn take_new_order(alloc: Global, bytes: &[u8]) -> Result<(Act, &[u8]), Refused>
    ensures { Gives (λ x. (x.0, x.1.now)) result
        (spec.made act.Order (spec.new_order.read bytes.now)) }
{
    let (vendor, rest) = take_word(bytes)?;
    let (requisition, rest) = take_optional(rest)?;
    let (items, rest) = take_list::<AccountElement>(alloc, 1, 32, rest)?;
    let new_order = NewOrder {
        vendor,
        requisition,
        items,
    };
    Ok((Act::Order(new_order), rest))
}

fn take_order_change(bytes: &[u8]) -> Result<(Act, &[u8]), Refused>
    ensures { Gives (λ x. (x.0, x.1.now)) result
        (spec.made act.ChangeOrder (spec.order_change.read bytes.now)) }
{
    let (order, rest) = take_word(bytes)?;
    let at_item = rest;
    let (item, rest) = take_half(at_item)?;
    let (item, rest) = or_faulty((1 <= item).then_some(item), rest, at_item)?;
    let (fund, rest) = take_half(rest)?;
    let (dept, rest) = take_half(rest)?;
    let (object, rest) = take_half(rest)?;
    let (by, rest) = take_signed(rest)?;
    let change = OrderChange {
        order,
        item,
        fund,
        dept,
        object,
        by,
    };
    Ok((Act::ChangeOrder(change), rest))
}

fn take_cancellation(bytes: &[u8]) -> Result<(Act, &[u8]), Refused>
    ensures { Gives (λ x. (x.0, x.1.now)) result (spec.made act.CancelOrder (word.read bytes.now)) }
{
    let (order, rest) = take_word(bytes)?;
    Ok((Act::CancelOrder(order), rest))
}

fn take_new_voucher(alloc: Global, bytes: &[u8]) -> Result<(Act, &[u8]), Refused>
    ensures { Gives (λ x. (x.0, x.1.now)) result
        (spec.made act.Voucher (spec.new_voucher.read bytes.now)) }
{
    let (vendor, rest) = take_word(bytes)?;
    let (back, rest) = take_flag(rest)?;
    let (items, rest) = take_distinct::<VoucherElement>(alloc, 1, 32, rest)?;
    let new_voucher = NewVoucher {
        vendor,
        back,
        items,
    };
    Ok((Act::Voucher(new_voucher), rest))
}

fn take_voiding(bytes: &[u8]) -> Result<(Act, &[u8]), Refused>
    ensures { Gives (λ x. (x.0, x.1.now)) result (spec.made act.VoidVoucher (word.read bytes.now)) }
{
    let (voucher, rest) = take_word(bytes)?;
    Ok((Act::VoidVoucher(voucher), rest))
}

fn take_payment(alloc: Global, bytes: &[u8]) -> Result<(Act, &[u8]), Refused>
    ensures { Gives (λ x. (x.0, x.1.now)) result (spec.made act.Pay (spec.payment.read bytes.now)) }
{
    let (vouchers, rest) = take_distinct::<VoucherNumber>(alloc, 1, 64, bytes)?;
    Ok((Act::Pay(Payment { vouchers }), rest))
}

fn take_new_bill(bytes: &[u8]) -> Result<(Act, &[u8]), Refused>
    ensures { Gives (λ x. (x.0, x.1.now)) result
        (spec.made act.Bill (spec.new_bill.read bytes.now)) }
{
    let (source, rest) = take_half(bytes)?;
    let (levy_year, rest) = take_year(rest)?;
    let (payer, rest) = take_word(rest)?;
    let (amount, rest) = take_amount(rest)?;
    let new_bill = NewBill {
        source,
        levy_year,
        payer,
        amount,
    };
    Ok((Act::Bill(new_bill), rest))
}

fn take_bill_amount(bytes: &[u8]) -> Result<(BillAmount, &[u8]), Refused>
    ensures { Gives (λ x. (x.0, x.1.now)) result (spec.bill_amount.read bytes.now) }
{
    let (bill, rest) = take_word(bytes)?;
    let (amount, rest) = take_amount(rest)?;
    Ok((BillAmount { bill, amount }, rest))
}

fn take_collection(bytes: &[u8]) -> Result<(Act, &[u8]), Refused>
    ensures { Gives (λ x. (x.0, x.1.now)) result
        (spec.made act.Collect (spec.bill_amount.read bytes.now)) }
{
    let (amount, rest) = take_bill_amount(bytes)?;
    Ok((Act::Collect(amount), rest))
}

fn take_receipt(bytes: &[u8]) -> Result<(Act, &[u8]), Refused>
    ensures { Gives (λ x. (x.0, x.1.now)) result
        (spec.made act.Receive (spec.source_amount.read bytes.now)) }
{
    let (receipt, rest) = SourceElement::take(bytes)?;
    Ok((Act::Receive(receipt), rest))
}

fn take_write_off(bytes: &[u8]) -> Result<(Act, &[u8]), Refused>
    ensures { Gives (λ x. (x.0, x.1.now)) result
        (spec.made act.WriteOff (spec.bill_amount.read bytes.now)) }
{
    let (amount, rest) = take_bill_amount(bytes)?;
    Ok((Act::WriteOff(amount), rest))
}

fn take_donation(bytes: &[u8]) -> Result<(Donation, &[u8]), Refused>
    ensures { Gives (λ x. (x.0, x.1.now)) result (spec.donation.read bytes.now) }
{
    let (dept, rest) = take_half(bytes)?;
    let (object, rest) = take_half(rest)?;
    let (amount, rest) = take_amount(rest)?;
    let donation = Donation {
        dept,
        object,
        amount,
    };
    Ok((donation, rest))
}

fn take_disposal(bytes: &[u8]) -> Result<(Disposal, &[u8]), Refused>
    ensures { Gives (λ x. (x.0, x.1.now)) result (spec.disposal.read bytes.now) }
{
    let (asset, rest) = take_word(bytes)?;
    let (fund, rest) = take_half(rest)?;
    let (proceeds, rest) = take_most_amount(rest)?;
    let disposal = Disposal {
        asset,
        fund,
        proceeds,
    };
    Ok((disposal, rest))
}

fn take_asset_act(bytes: &[u8]) -> Result<(Act, &[u8]), Refused>
    ensures { Gives (λ x. (x.0, x.1.now)) result
        (spec.made act.Asset (spec.asset_act.read bytes.now)) }
{
    let (is_disposal, rest) = take_flag(bytes)?;
    if is_disposal {
        let (disposal, rest) = take_disposal(rest)?;
        Ok((Act::Asset(AssetAct::Dispose(disposal)), rest))
    } else {
        let (donation, rest) = take_donation(rest)?;
        Ok((Act::Asset(AssetAct::Donate(donation)), rest))
    }
}

/// The sum of the principals of payments.
fn total(principals: &[u64]) -> u128
    ensures { result ≡ sum principals.now }
{
    let mut total: u128 = 0;
    for principal in principals {
        total += u128::from(*principal);
    }
    total
}

/// Whether the last of so many payments, `every` months apart, is due by the end of 2199.
fn is_due_in_time(on: Day, every: u16, payments: usize) -> bool
    ensures { result ≡ nat_le (month_number on.year on.month + every * payments)
        (month_number last_year 12) }
{
    let issued = 12 * u128::from(on.year) + u128::from(on.month);
    issued + u128::from(every) * payments as u128 <= 12 * u128::from(LAST_YEAR) + 12
}

/// Whether the principals repay the amount in time, over a term of more than so many months.
fn is_repayment(on: Day, above: u16, amount: u64, every: u16, principals: &[u64]) -> bool
    ensures { result ≡ spec.is_repayment on above amount every principals.now }
{
    let term = u128::from(every) * principals.len() as u128;
    total(principals) == u128::from(amount)
        && u128::from(above) < term
        && is_due_in_time(on, every, principals.len())
}

fn take_principals(
    alloc: Global,
    on: Day,
    above: u16,
    amount: u64,
    every: u16,
    bytes: &[u8],
) -> Result<(Principals, &[u8]), Refused>
    ensures { Gives (λ x. (x.0, x.1.now)) result
        ((spec.principals on above amount every).read bytes.now) }
{
    let (principals, rest) = take_list::<Principal>(alloc, 1, 120, bytes)?;
    if is_repayment(on, above, amount, every, principals.as_slice()) {
        Ok((principals, rest))
    } else {
        Err(faulty(bytes))
    }
}

/// Whether there may be so many months between payments.
fn is_payment_period(n: u8) -> bool
    ensures { result ≡ is_period n }
{
    n == 1 || n == 2 || n == 3 || n == 4 || n == 6 || n == 12
}

/// The months between payments.
fn take_every(bytes: &[u8]) -> Result<(u16, &[u8]), Refused>
    ensures { Gives (λ x. (x.0, x.1.now)) result ((kept is_period byte).read bytes.now) }
{
    let (n, rest) = take_byte(bytes)?;
    or_faulty(is_payment_period(n).then_some(u16::from(n)), rest, bytes)
}

/// The terms of a debt of this amount, whose term is above so many months.
fn take_terms(
    alloc: Global,
    on: Day,
    above: u16,
    amount: u64,
    bytes: &[u8],
) -> Result<(Terms, &[u8]), Refused>
    ensures { Gives (λ x. (x.0, x.1.now)) result ((spec.terms on above amount).read bytes.now) }
{
    let (rate_bp, rest) = take_half(bytes)?;
    let (rate_bp, rest) = or_faulty((rate_bp <= 10_000).then_some(rate_bp), rest, bytes)?;
    let (every, rest) = take_every(rest)?;
    let (principals, rest) = take_principals(alloc, on, above, amount, every, rest)?;
    let terms = Terms {
        rate_bp,
        every,
        principals,
    };
    Ok((terms, rest))
}

fn take_issue(alloc: Global, on: Day, bytes: &[u8]) -> Result<(Act, &[u8]), Refused>
    ensures { Gives (λ x. (x.0, x.1.now)) result
        (spec.made act.Issue ((spec.issue on).read bytes.now)) }
{
    let (fund, rest) = take_half(bytes)?;
    let (amount, rest) = take_amount(rest)?;
    let (terms, rest) = take_terms(alloc, on, 0, amount, rest)?;
    let issue = BondIssue {
        fund,
        amount,
        terms,
    };
    Ok((Act::Issue(issue), rest))
}

fn take_lease(alloc: Global, on: Day, bytes: &[u8]) -> Result<(Act, &[u8]), Refused>
    ensures { Gives (λ x. (x.0, x.1.now)) result
        (spec.made act.Lease ((spec.lease on).read bytes.now)) }
{
    let (vendor, rest) = take_word(bytes)?;
    let (account, rest) = AccountElement::take(rest)?;
    let (terms, rest) = take_terms(alloc, on, 12, account.amount, rest)?;
    let lease = NewLease {
        vendor,
        account,
        terms,
    };
    Ok((Act::Lease(lease), rest))
}

fn take_debt_payment(bytes: &[u8]) -> Result<(Act, &[u8]), Refused>
    ensures { Gives (λ x. (x.0, x.1.now)) result
        (spec.made act.PayDue (spec.debt_payment.read bytes.now)) }
{
    let (bond, rest) = take_word(bytes)?;
    let (fund, rest) = take_half(rest)?;
    let (dept, rest) = take_half(rest)?;
    let (principal, rest) = take_half(rest)?;
    let (interest, rest) = take_half(rest)?;
    let payment = DebtPayment {
        bond,
        fund,
        dept,
        principal,
        interest,
    };
    Ok((Act::PayDue(payment), rest))
}

fn take_leave_amount(bytes: &[u8]) -> Result<(LeaveAmount, &[u8]), Refused>
    ensures { Gives (λ x. (x.0, x.1.now)) result (spec.leave_amount.read bytes.now) }
{
    let (fund, rest) = take_half(bytes)?;
    let (dept, rest) = take_half(rest)?;
    let (amount, rest) = take_amount(rest)?;
    let leave = LeaveAmount { fund, dept, amount };
    Ok((leave, rest))
}

fn take_maturity(bytes: &[u8]) -> Result<(LeaveMaturity, &[u8]), Refused>
    ensures { Gives (λ x. (x.0, x.1.now)) result (spec.maturity.read bytes.now) }
{
    let (fund, rest) = take_half(bytes)?;
    let (dept, rest) = take_half(rest)?;
    let (object, rest) = take_half(rest)?;
    let (amount, rest) = take_amount(rest)?;
    let maturity = LeaveMaturity {
        fund,
        dept,
        object,
        amount,
    };
    Ok((maturity, rest))
}

fn take_leave_act(bytes: &[u8]) -> Result<(Act, &[u8]), Refused>
    ensures { Gives (λ x. (x.0, x.1.now)) result
        (spec.made act.Leave (spec.leave_act.read bytes.now)) }
{
    let (what, rest) = take_one_of(3, bytes)?;
    match what {
        0 => {
            let (leave, rest) = take_leave_amount(rest)?;
            Ok((Act::Leave(LeaveAct::Earn(leave)), rest))
        }
        1 => {
            let (leave, rest) = take_leave_amount(rest)?;
            Ok((Act::Leave(LeaveAct::Use(leave)), rest))
        }
        _ => {
            let (maturity, rest) = take_maturity(rest)?;
            Ok((Act::Leave(LeaveAct::Mature(maturity)), rest))
        }
    }
}

fn take_fund_move(bytes: &[u8]) -> Result<(Act, &[u8]), Refused>
    ensures { Gives (λ x. (x.0, x.1.now)) result
        (spec.made act.Interfund (spec.fund_move.read bytes.now)) }
{
    let (what, rest) = take_move_kind(bytes)?;
    let (from, rest) = take_half(rest)?;
    let (to, rest) = take_other_than(from, rest)?;
    let (amount, rest) = take_amount(rest)?;
    let fund_move = FundMove {
        what,
        from,
        to,
        amount,
    };
    Ok((Act::Interfund(fund_move), rest))
}

fn take_period(bytes: &[u8]) -> Result<(Act, &[u8]), Refused>
    ensures { Gives (λ x. (x.0, x.1.now)) result
        (spec.made act.Close (spec.closed_period.read bytes.now)) }
{
    let (is_year, rest) = take_flag(bytes)?;
    if is_year {
        let (year, rest) = take_year(rest)?;
        Ok((Act::Close(Period::Year(year)), rest))
    } else {
        let (month, rest) = take_month(rest)?;
        Ok((Act::Close(Period::Month(month)), rest))
    }
}

/// The fields of an act of a kind.
#[tactic(auto, unfolding(crate::specs::Acts::act_at))]
pub fn take_act(
    alloc: Global,
    kind: ActKind,
    on: Day,
    bytes: &[u8],
) -> Result<(Act, &[u8]), Refused>
    ensures { Gives (λ x. (x.0, x.1.now)) result (spec.act_at kind on bytes.now) }
{
    match kind {
        ActKind::Adopt => take_adoption(alloc, bytes),
        ActKind::Amend => take_amendment(bytes),
        ActKind::Transfer => take_transfer(bytes),
        ActKind::Requisition => take_new_requisition(alloc, bytes),
        ActKind::Withdraw => take_withdrawal(bytes),
        ActKind::Order => take_new_order(alloc, bytes),
        ActKind::ChangeOrder => take_order_change(bytes),
        ActKind::CancelOrder => take_cancellation(bytes),
        ActKind::Voucher => take_new_voucher(alloc, bytes),
        ActKind::VoidVoucher => take_voiding(bytes),
        ActKind::Pay => take_payment(alloc, bytes),
        ActKind::Bill => take_new_bill(bytes),
        ActKind::Collect => take_collection(bytes),
        ActKind::Receive => take_receipt(bytes),
        ActKind::WriteOff => take_write_off(bytes),
        ActKind::Asset => take_asset_act(bytes),
        ActKind::Issue => take_issue(alloc, on, bytes),
        ActKind::PayDue => take_debt_payment(bytes),
        ActKind::Leave => take_leave_act(bytes),
        ActKind::Interfund => take_fund_move(bytes),
        ActKind::Close => take_period(bytes),
        ActKind::Lease => take_lease(alloc, on, bytes),
    }
}
