//! The writers of the acts. Each is called where there is room for the act.

ghost use Rattle.std.specs.Prelude.{◌≡◌, ◌<◌, true, length};
ghost use Rattle.cf_calls.specs.Common.{IsActInForm, IsAdoptionForm, is_period, kind_of};
ghost use Rattle.cf_codec.specs.Acts as spec;
ghost use Rattle.cf_codec_fields.specs.Puts.{HasRoom, Puts};

use crate::items::{
    AccountElement, LineElement, Principal, SourceElement, VoucherElement, VoucherNumber,
};
use cf_base::Day;
use cf_calls::Act;
use cf_calls::acts::{
    Adoption, Amendment, AssetAct, BillAmount, BondIssue, DebtPayment, FundMove, LeaveAct,
    LeaveAmount, LeaveMaturity, LineTransfer, NewBill, NewLease, NewOrder, NewVoucher, OrderChange,
    Period, Terms,
};
use cf_codec_fields::lists::{Element, put_list};
use cf_codec_fields::put::{
    put_byte, put_flag, put_half, put_long, put_month, put_move_kind, put_signed, put_word,
};

fn put_adoption(out: &mut Vec<u8>, adoption: &Adoption)
    requires form { IsAdoptionForm adoption.now }
    requires room { HasRoom spec.adoption adoption.now out.old }
    ensures { Puts spec.adoption adoption.now out.old out.new }
{
    put_half(out, adoption.fund);
    put_half(out, adoption.year);
    put_list::<LineElement>(out, adoption.lines.as_slice());
    put_list::<SourceElement>(out, adoption.estimates.as_slice());
}

fn put_amendment(out: &mut Vec<u8>, amendment: &Amendment)
    requires { HasRoom spec.amendment amendment.now out.old }
    ensures { Puts spec.amendment amendment.now out.old out.new }
{
    put_half(out, amendment.fund);
    put_half(out, amendment.year);
    put_half(out, amendment.line);
    put_signed(out, amendment.by);
}

fn put_transfer(out: &mut Vec<u8>, transfer: &LineTransfer)
    requires { HasRoom spec.transfer transfer.now out.old }
    ensures { Puts spec.transfer transfer.now out.old out.new }
{
    put_half(out, transfer.fund);
    put_half(out, transfer.year);
    put_half(out, transfer.from);
    put_half(out, transfer.to);
    put_long(out, transfer.amount);
}

fn put_optional(out: &mut Vec<u8>, number: Option<u32>)
    requires { HasRoom spec.optional number out.old }
    ensures { Puts spec.optional number out.old out.new }
{
    match number {
        None => put_flag(out, false),
        Some(number) => {
            put_flag(out, true);
            put_word(out, number);
        }
    }
}

fn put_new_order(out: &mut Vec<u8>, new_order: &NewOrder)
    requires few { length new_order.now.items < 65536 }
    requires room { HasRoom spec.new_order new_order.now out.old }
    ensures { Puts spec.new_order new_order.now out.old out.new }
{
    put_word(out, new_order.vendor);
    put_optional(out, new_order.requisition);
    put_list::<AccountElement>(out, new_order.items.as_slice());
}

fn put_order_change(out: &mut Vec<u8>, change: &OrderChange)
    requires { HasRoom spec.order_change change.now out.old }
    ensures { Puts spec.order_change change.now out.old out.new }
{
    put_word(out, change.order);
    put_half(out, change.item);
    put_half(out, change.fund);
    put_half(out, change.dept);
    put_half(out, change.object);
    put_signed(out, change.by);
}

fn put_new_voucher(out: &mut Vec<u8>, new_voucher: &NewVoucher)
    requires few { length new_voucher.now.items < 65536 }
    requires room { HasRoom spec.new_voucher new_voucher.now out.old }
    ensures { Puts spec.new_voucher new_voucher.now out.old out.new }
{
    put_word(out, new_voucher.vendor);
    put_flag(out, new_voucher.back);
    put_list::<VoucherElement>(out, new_voucher.items.as_slice());
}

fn put_new_bill(out: &mut Vec<u8>, new_bill: &NewBill)
    requires { HasRoom spec.new_bill new_bill.now out.old }
    ensures { Puts spec.new_bill new_bill.now out.old out.new }
{
    put_half(out, new_bill.source);
    put_half(out, new_bill.levy_year);
    put_word(out, new_bill.payer);
    put_long(out, new_bill.amount);
}

fn put_bill_amount(out: &mut Vec<u8>, part: &BillAmount)
    requires { HasRoom spec.bill_amount part.now out.old }
    ensures { Puts spec.bill_amount part.now out.old out.new }
{
    put_word(out, part.bill);
    put_long(out, part.amount);
}

fn put_asset_act(out: &mut Vec<u8>, act: &AssetAct)
    requires { HasRoom spec.asset_act act.now out.old }
    ensures { Puts spec.asset_act act.now out.old out.new }
{
    match act {
        AssetAct::Donate(donation) => {
            put_flag(out, false);
            put_half(out, donation.dept);
            put_half(out, donation.object);
            put_long(out, donation.amount);
        }
        AssetAct::Dispose(disposal) => {
            put_flag(out, true);
            put_word(out, disposal.asset);
            put_half(out, disposal.fund);
            put_long(out, disposal.proceeds);
        }
    }
}

fn put_terms(out: &mut Vec<u8>, on: Day, terms: &Terms)
    requires period { is_period terms.now.every ≡ true }
    requires few { length terms.now.principals < 65536 }
    requires room { HasRoom (spec.terms on 0 0) terms.now out.old }
    ensures { Puts (spec.terms on 0 0) terms.now out.old out.new }
{
    put_half(out, terms.rate_bp);
    put_byte(out, terms.every as u8);
    put_list::<Principal>(out, terms.principals.as_slice());
}

fn put_issue(out: &mut Vec<u8>, on: Day, issue: &BondIssue)
    requires period { is_period issue.now.terms.every ≡ true }
    requires few { length issue.now.terms.principals < 65536 }
    requires room { HasRoom (spec.issue on) issue.now out.old }
    ensures { Puts (spec.issue on) issue.now out.old out.new }
{
    put_half(out, issue.fund);
    put_long(out, issue.amount);
    put_terms(out, on, &issue.terms);
}

fn put_lease(out: &mut Vec<u8>, on: Day, lease: &NewLease)
    requires period { is_period lease.now.terms.every ≡ true }
    requires few { length lease.now.terms.principals < 65536 }
    requires room { HasRoom (spec.lease on) lease.now out.old }
    ensures { Puts (spec.lease on) lease.now out.old out.new }
{
    put_word(out, lease.vendor);
    AccountElement::put(out, lease.account);
    put_terms(out, on, &lease.terms);
}

fn put_debt_payment(out: &mut Vec<u8>, payment: &DebtPayment)
    requires { HasRoom spec.debt_payment payment.now out.old }
    ensures { Puts spec.debt_payment payment.now out.old out.new }
{
    put_word(out, payment.bond);
    put_half(out, payment.fund);
    put_half(out, payment.dept);
    put_half(out, payment.principal);
    put_half(out, payment.interest);
}

fn put_leave_amount(out: &mut Vec<u8>, leave: &LeaveAmount)
    requires { HasRoom spec.leave_amount leave.now out.old }
    ensures { Puts spec.leave_amount leave.now out.old out.new }
{
    put_half(out, leave.fund);
    put_half(out, leave.dept);
    put_long(out, leave.amount);
}

fn put_maturity(out: &mut Vec<u8>, maturity: &LeaveMaturity)
    requires { HasRoom spec.maturity maturity.now out.old }
    ensures { Puts spec.maturity maturity.now out.old out.new }
{
    put_half(out, maturity.fund);
    put_half(out, maturity.dept);
    put_half(out, maturity.object);
    put_long(out, maturity.amount);
}

fn put_leave_act(out: &mut Vec<u8>, act: &LeaveAct)
    requires { HasRoom spec.leave_act act.now out.old }
    ensures { Puts spec.leave_act act.now out.old out.new }
{
    match act {
        LeaveAct::Earn(leave) => {
            put_byte(out, 0);
            put_leave_amount(out, leave);
        }
        LeaveAct::Use(leave) => {
            put_byte(out, 1);
            put_leave_amount(out, leave);
        }
        LeaveAct::Mature(maturity) => {
            put_byte(out, 2);
            put_maturity(out, maturity);
        }
    }
}

fn put_fund_move(out: &mut Vec<u8>, fund_move: &FundMove)
    requires { HasRoom spec.fund_move fund_move.now out.old }
    ensures { Puts spec.fund_move fund_move.now out.old out.new }
{
    put_move_kind(out, fund_move.what);
    put_half(out, fund_move.from);
    put_half(out, fund_move.to);
    put_long(out, fund_move.amount);
}

fn put_period(out: &mut Vec<u8>, period: &Period)
    requires { HasRoom spec.closed_period period.now out.old }
    ensures { Puts spec.closed_period period.now out.old out.new }
{
    match period {
        Period::Month(month) => {
            put_flag(out, false);
            put_month(out, *month);
        }
        Period::Year(year) => {
            put_flag(out, true);
            put_half(out, *year);
        }
    }
}

/// Writes the fields of an act.
#[tactic(auto, unfolding(crate::specs::Acts::act_bytes, crate::specs::Acts::act_size, crate::specs::Acts::act_fits))]
pub fn put_act(out: &mut Vec<u8>, on: Day, act: &Act)
    requires form { IsActInForm on act.now }
    requires room { HasRoom (spec.act_for (kind_of act.now) on) act.now out.old }
    ensures { Puts (spec.act_for (kind_of act.now) on) act.now out.old out.new }
{
    match act {
        Act::Adopt(adoption) => put_adoption(out, adoption),
        Act::Amend(amendment) => put_amendment(out, amendment),
        Act::Transfer(transfer) => put_transfer(out, transfer),
        Act::Requisition(new_requisition) => put_list::<AccountElement>(
            out,
            new_requisition.items.as_slice(),
        ),
        Act::Withdraw(requisition) => put_word(out, *requisition),
        Act::Order(new_order) => put_new_order(out, new_order),
        Act::ChangeOrder(change) => put_order_change(out, change),
        Act::CancelOrder(order) => put_word(out, *order),
        Act::Voucher(new_voucher) => put_new_voucher(out, new_voucher),
        Act::VoidVoucher(voucher) => put_word(out, *voucher),
        Act::Pay(payment) => put_list::<VoucherNumber>(out, payment.vouchers.as_slice()),
        Act::Bill(new_bill) => put_new_bill(out, new_bill),
        Act::Collect(part) => put_bill_amount(out, part),
        Act::Receive(receipt) => SourceElement::put(out, *receipt),
        Act::WriteOff(part) => put_bill_amount(out, part),
        Act::Asset(act) => put_asset_act(out, act),
        Act::Issue(issue) => put_issue(out, on, issue),
        Act::PayDue(payment) => put_debt_payment(out, payment),
        Act::Leave(act) => put_leave_act(out, act),
        Act::Interfund(fund_move) => put_fund_move(out, fund_move),
        Act::Close(period) => put_period(out, period),
        Act::Lease(lease) => put_lease(out, on, lease),
    }
}
