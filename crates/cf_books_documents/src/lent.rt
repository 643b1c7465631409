//! The last loans of funds to one another.

ghost use Rattle.std.specs.Prelude.{◌≡◌, ℕ, OnOk};
ghost use Rattle.cf_books_documents.specs.Events as spec;
ghost use Rattle.cf_register_parts.specs.Pairs.{PutsAmount, amount_at};

use cf_calls::Act;
use cf_calls::acts::{FundMove, FundMoveKind};
use cf_register_parts::NumberPair;
use std::alloc::AllocError;
use std::collections::BTreeMap;

/// The place of the last loan of a fund to another, by the two.
pub type Lent = BTreeMap<NumberPair, u64>;

/// The place of the last loan of a fund to another, 0 where there is none.
pub fn loan_between(lent: &Lent, from: u16, to: u16) -> u64
    ensures { result ≡ amount_at lent.now.entries from to }
{
    let pair = NumberPair {
        first: from,
        second: to,
    };
    cf_register_parts::amount_at(lent, pair)
}

/// Puts a place under two funds, in the place of one that was.
fn put_loan(lent: &mut Lent, from: u16, to: u16, place: u64) -> Result<(), AllocError>
    ensures { OnOk result (PutsAmount lent.old.entries lent.new.entries from to place) }
{
    let pair = NumberPair {
        first: from,
        second: to,
    };
    lent.insert(pair, place)?;
    Ok(())
}

/// Notes the loan of cash at a place, where it is one.
fn note_cash(lent: &mut Lent, cash: FundMove, place: u64) -> Result<(), AllocError>
    ensures { OnOk result ((from to : ℕ) → amount_at lent.new.entries from to ≡ spec.lent_by
        cash.what cash place (amount_at lent.old.entries) from to) }
{
    match cash.what {
        FundMoveKind::Loan => put_loan(lent, cash.from, cash.to, place),
        FundMoveKind::Transfer | FundMoveKind::Repay => Ok(()),
    }
}

/// Notes the loan of the entry at a place, where it is one.
pub fn note_loan(lent: &mut Lent, act: &Act, place: u64) -> Result<(), AllocError>
    ensures { OnOk result ((from to : ℕ) → amount_at lent.new.entries from to ≡ spec.lent_after
        act.now place (amount_at lent.old.entries) from to) }
{
    match act {
        Act::Interfund(cash) => note_cash(lent, *cash, place),
        Act::Adopt(_)
        | Act::Amend(_)
        | Act::Transfer(_)
        | Act::Requisition(_)
        | Act::Withdraw(_)
        | Act::Order(_)
        | Act::ChangeOrder(_)
        | Act::CancelOrder(_)
        | Act::Voucher(_)
        | Act::VoidVoucher(_)
        | Act::Pay(_)
        | Act::Bill(_)
        | Act::Collect(_)
        | Act::Receive(_)
        | Act::WriteOff(_)
        | Act::Asset(_)
        | Act::Issue(_)
        | Act::PayDue(_)
        | Act::Leave(_)
        | Act::Close(_)
        | Act::Lease(_) => Ok(()),
    }
}
