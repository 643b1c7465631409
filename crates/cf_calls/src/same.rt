//! Whether two changes are the same call.

ghost use Rattle.std.specs.Prelude.{◌≡◌, ◌↔◌, IsTrue, None};
ghost use Rattle.cf_calls.specs.Same as spec;

use crate::acts::{Act, Adoption, BondIssue, NewLease, NewOrder, NewVoucher, Terms};
use crate::call::Change;

/// Whether two changes are equal but for `after`. Such a change is a repeat of the other.
pub fn same_call(a: &Change, b: &Change) -> bool
    ensures value { result ≡ spec.same_call a.now b.now }
    ensures equal { IsTrue result
        ↔ (record a.now { after = None } ≡ record b.now { after = None }) }
{
    same_fields(a, b)
}

fn same_fields(a: &Change, b: &Change) -> bool
    ensures { result ≡ spec.same_call a.now b.now }
{
    a.desk == b.desk
        && a.key.as_str().as_bytes() == b.key.as_str().as_bytes()
        && a.on == b.on
        && same_act(&a.act, &b.act)
}

fn same_act(a: &Act, b: &Act) -> bool
    ensures { result ≡ spec.same_act a.now b.now }
{
    match (a, b) {
        (Act::Adopt(a), Act::Adopt(b)) => same_adoption(a, b),
        (Act::Amend(a), Act::Amend(b)) => a == b,
        (Act::Transfer(a), Act::Transfer(b)) => a == b,
        (Act::Requisition(a), Act::Requisition(b)) => a.items.as_slice() == b.items.as_slice(),
        (Act::Withdraw(a), Act::Withdraw(b)) => a == b,
        (Act::Order(a), Act::Order(b)) => same_order(a, b),
        (Act::ChangeOrder(a), Act::ChangeOrder(b)) => a == b,
        (Act::CancelOrder(a), Act::CancelOrder(b)) => a == b,
        (Act::Voucher(a), Act::Voucher(b)) => same_voucher(a, b),
        (Act::VoidVoucher(a), Act::VoidVoucher(b)) => a == b,
        (Act::Pay(a), Act::Pay(b)) => a.vouchers.as_slice() == b.vouchers.as_slice(),
        (Act::Bill(a), Act::Bill(b)) => a == b,
        (Act::Collect(a), Act::Collect(b)) => a == b,
        (Act::Receive(a), Act::Receive(b)) => a == b,
        (Act::WriteOff(a), Act::WriteOff(b)) => a == b,
        (Act::Asset(a), Act::Asset(b)) => a == b,
        (Act::Issue(a), Act::Issue(b)) => same_issue(a, b),
        (Act::PayDue(a), Act::PayDue(b)) => a == b,
        (Act::Leave(a), Act::Leave(b)) => a == b,
        (Act::Interfund(a), Act::Interfund(b)) => a == b,
        (Act::Close(a), Act::Close(b)) => a == b,
        (Act::Lease(a), Act::Lease(b)) => same_lease(a, b),
        (
            Act::Adopt(_)
            | Act::Amend(_)
            | Act::Transfer(_)
            | Act::Requisition(_)
            | Act::Withdraw(_)
            | Act::Order(_)
            | Act::ChangeOrder(_)
            | Act::CancelOrder(_)
            | Act::Voucher(_)
            | Act::VoidVoucher(_)
            | Act::Pay(_)
            | Act::Bill(_)
            | Act::Collect(_)
            | Act::Receive(_)
            | Act::WriteOff(_)
            | Act::Asset(_)
            | Act::Issue(_)
            | Act::PayDue(_)
            | Act::Leave(_)
            | Act::Interfund(_)
            | Act::Close(_)
            | Act::Lease(_),
            _,
        ) => false,
    }
}

fn same_adoption(a: &Adoption, b: &Adoption) -> bool
    ensures { result ≡ spec.same_adoption a.now b.now }
{
    a.fund == b.fund
        && a.year == b.year
        && a.lines.as_slice() == b.lines.as_slice()
        && a.estimates.as_slice() == b.estimates.as_slice()
}

fn same_order(a: &NewOrder, b: &NewOrder) -> bool
    ensures { result ≡ spec.same_order a.now b.now }
{
    a.vendor == b.vendor
        && a.requisition == b.requisition
        && a.items.as_slice() == b.items.as_slice()
}

fn same_voucher(a: &NewVoucher, b: &NewVoucher) -> bool
    ensures { result ≡ spec.same_voucher a.now b.now }
{
    a.vendor == b.vendor && a.back == b.back && a.items.as_slice() == b.items.as_slice()
}

fn same_terms(a: &Terms, b: &Terms) -> bool
    ensures { result ≡ spec.same_terms a.now b.now }
{
    a.rate_bp == b.rate_bp
        && a.every == b.every
        && a.principals.as_slice() == b.principals.as_slice()
}

fn same_issue(a: &BondIssue, b: &BondIssue) -> bool
    ensures { result ≡ spec.same_issue a.now b.now }
{
    a.fund == b.fund && a.amount == b.amount && same_terms(&a.terms, &b.terms)
}

fn same_lease(a: &NewLease, b: &NewLease) -> bool
    ensures { result ≡ spec.same_lease a.now b.now }
{
    a.vendor == b.vendor && a.account == b.account && same_terms(&a.terms, &b.terms)
}
