//! The vouchers of a history by their numbers.

ghost use Rattle.std.specs.Prelude.{◌≡◌, ◌==◌, ℕ, if◌then◌else◌, Some, IfOk, OnOk};
ghost use Rattle.std.specs.BTreeMap.{get};
ghost use Rattle.std.specs.Option.{option_copied};
ghost use Rattle.std.specs.Ordering.{nat_cmp};
ghost use Rattle.cf_books_documents.specs.Events as spec;
ghost use Rattle.cf_books_documents.specs.Indexed.{KnowsVouchers, voucher_noted};

use cf_calls::{Act, Entry};
use std::alloc::{AllocError, Global};
use std::collections::BTreeMap;

/// The place of each voucher's entry, from 0, by the voucher's number.
pub type Vouchers = BTreeMap<u32, u64>;

/// Puts a place under a number, in the place of one that was.
fn put_place(places: &mut Vouchers, number: u32, at: u64) -> Result<(), AllocError>
    ensures { OnOk result ((n : ℕ) → get nat_cmp places.new n ≡ (if number == n then Some at else
        get nat_cmp places.old n)) }
{
    places.insert(number, at)?;
    Ok(())
}

/// Notes the place of a voucher, where the entry is one.
fn note_voucher(places: &mut Vouchers, entry: &Entry, at: u64) -> Result<(), AllocError>
    ensures { OnOk result ((n : ℕ) → get nat_cmp places.new n ≡ voucher_noted entry.now at (get
        nat_cmp places.old) n) }
{
    match &entry.change.act {
        Act::Voucher(_) => put_place(places, entry.drawn.number, at),
        Act::Adopt(_)
        | Act::Amend(_)
        | Act::Transfer(_)
        | Act::Requisition(_)
        | Act::Withdraw(_)
        | Act::Order(_)
        | Act::ChangeOrder(_)
        | Act::CancelOrder(_)
        | Act::VoidVoucher(_)
        | Act::Pay(_)
        | Act::Bill(_)
        | Act::Collect(_)
        | Act::Receive(_)
        | Act::WriteOff(_)
        | Act::Asset(_)
        | Act::Issue(_)
        | Act::PayDue(_)
        | Act::Leave(_)
        | Act::Interfund(_)
        | Act::Close(_)
        | Act::Lease(_) => Ok(()),
    }
}

/// The vouchers of a history.
pub fn vouchers_of(alloc: Global, entries: &[Entry]) -> Result<Vouchers, AllocError>
    ensures { IfOk result (λ places. KnowsVouchers entries.now places) }
{
    let mut places = BTreeMap::new(alloc);
    for (at, entry) in entries.iter().enumerate() {
        note_voucher(&mut places, entry, at as u64)?;
    }
    Ok(places)
}

/// The entry of the voucher of a number.
pub fn voucher_at<'a>(places: &Vouchers, entries: &'a [Entry], number: u32) -> Option<&'a Entry>
    requires { KnowsVouchers entries.now places.now }
    ensures { option_copied result ≡ spec.voucher_in entries.now number }
{
    let at = *places.get(&number)?;
    entries.get(at as usize)
}
