//! The amount of an act.

ghost use Rattle.std.specs.Prelude.{◌≡◌, ◌≤◌, ◌<◌, ◌^◌, ℕ, length, sum_by};
ghost use Rattle.cf_calls.specs.Common.{IsActInForm};
ghost use Rattle.cf_books_payments.specs.Amounts as spec;

use cf_base::Day;
use cf_calls::Act;
use cf_calls::acts::{AssetAct, LeaveAct};
use cf_calls::items::{AccountItem, LineAmount, VoucherItem};

/// What has an amount in cents.
pub trait Amounted {
    ghost amount: { Self → ℕ };

    fn amount(&self) -> u64
        ensures { result ≡ amount self.now };
}

impl Amounted for LineAmount {
    ghost amount = { λ i. i.amount };

    fn amount(&self) -> u64 {
        self.amount
    }
}

impl Amounted for AccountItem {
    ghost amount = { λ i. i.amount };

    fn amount(&self) -> u64 {
        self.amount
    }
}

impl Amounted for VoucherItem {
    ghost amount = { λ i. i.account.amount };

    fn amount(&self) -> u64 {
        self.account.amount
    }
}

/// The sum of the items' amounts.
pub fn total<T: Amounted>(items: &[T]) -> u128
    requires { length items.now ≤ 4096 }
    ensures value { result ≡ sum_by T.amount items.now }
    ensures small { result < 2 ^ 76 }
{
    let mut total: u128 = 0;
    for item in items {
        total += item.amount() as u128;
    }
    total
}

fn asset_amount(act: &AssetAct) -> u64
    ensures { result ≡ spec.asset_amount act.now }
{
    match act {
        AssetAct::Donate(gift) => gift.amount,
        AssetAct::Dispose(disposal) => disposal.proceeds,
    }
}

fn leave_amount(act: &LeaveAct) -> u64
    ensures { result ≡ spec.leave_amount act.now }
{
    match act {
        LeaveAct::Earn(leave) | LeaveAct::Use(leave) => leave.amount,
        LeaveAct::Mature(leave) => leave.amount,
    }
}

/// The amount of an act in cents, where it states one: the sum of its items, for an adoption of its
/// lines.
pub fn amount_of(on: Day, act: &Act) -> Option<i128>
    requires { IsActInForm on act.now }
    ensures { result ≡ spec.amount_of act.now }
{
    match act {
        Act::Adopt(adoption) => Some(total(adoption.lines.as_slice()) as i128),
        Act::Amend(amendment) => Some(amendment.by as i128),
        Act::Transfer(transfer) => Some(transfer.amount as i128),
        Act::Requisition(requisition) => Some(total(requisition.items.as_slice()) as i128),
        Act::Order(order) => Some(total(order.items.as_slice()) as i128),
        Act::ChangeOrder(change) => Some(change.by as i128),
        Act::Voucher(voucher) => Some(total(voucher.items.as_slice()) as i128),
        Act::Bill(bill) => Some(bill.amount as i128),
        Act::Collect(settled) | Act::WriteOff(settled) => Some(settled.amount as i128),
        Act::Receive(receipt) => Some(receipt.amount as i128),
        Act::Asset(asset) => Some(asset_amount(asset) as i128),
        Act::Issue(issue) => Some(issue.amount as i128),
        Act::Leave(leave) => Some(leave_amount(leave) as i128),
        Act::Interfund(cash) => Some(cash.amount as i128),
        Act::Lease(lease) => Some(lease.account.amount as i128),
        Act::Withdraw(_)
        | Act::CancelOrder(_)
        | Act::VoidVoucher(_)
        | Act::Pay(_)
        | Act::PayDue(_)
        | Act::Close(_) => None,
    }
}
