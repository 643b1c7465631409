//! What was paid to vendors in a calendar year, in the order of the payments.

ghost use Rattle.std.specs.Prelude.{◌≡◌, ◌≤◌, ◌+◌, ◌*◌, ◌++◌, length, flat_map, option_to_list, IfOk, IfSome, OnOk};
ghost use Rattle.std.specs.Ordering.{nat_cmp};
ghost use Rattle.std.specs.BTreeMap.{get};
ghost use Rattle.cf_base.specs.Common.{most_entries};
ghost use Rattle.cf_calls.specs.Common.{IsChangeInForm};
ghost use Rattle.cf_books_payments.specs.Entering.{AreInForm, AreSmall, IsSmall, places_in};
ghost use Rattle.cf_books_payments.specs.Paid as spec;

use crate::entered::{Entered, Paid};
use cf_calls::{Act, Entry};
use std::alloc::{AllocError, Global};

/// Adds what was paid, where something was.
fn put_some(rows: &mut Vec<Paid>, paid: Option<Paid>) -> Result<(), AllocError>
    requires { IfSome paid IsSmall }
    ensures rows { OnOk result (rows.new.items ≡ rows.old.items ++ option_to_list paid) }
    ensures small { OnOk result (AreSmall rows.old.items → AreSmall rows.new.items) }
    ensures few { OnOk result (length rows.new.items ≤ length rows.old.items + 1) }
{
    if let Some(paid) = paid {
        rows.push(paid)?;
    }
    Ok(())
}

/// Adds the vouchers of these numbers, which the entry at a place, `by`, paid.
fn put_vouchers(
    rows: &mut Vec<Paid>,
    known: &Entered,
    entries: &[Entry],
    by: u64,
    numbers: &[u32],
) -> Result<(), AllocError>
    requires { AreInForm entries.now }
    ensures rows { OnOk result (rows.new.items ≡ rows.old.items
        ++ flat_map (spec.paid_voucher entries.now (get nat_cmp known.now.vouchers) by)
        numbers.now) }
    ensures small { OnOk result (AreSmall rows.old.items → AreSmall rows.new.items) }
    ensures few { OnOk result (length rows.new.items ≤ length rows.old.items + length numbers.now) }
{
    for number in numbers {
        put_some(rows, known.voucher(entries, by, *number))?;
    }
    Ok(())
}

/// Adds what an entry paid, which stands at the place `by`.
fn put_paid(
    rows: &mut Vec<Paid>,
    known: &Entered,
    entries: &[Entry],
    by: u64,
    entry: &Entry,
) -> Result<(), AllocError>
    requires forms { AreInForm entries.now }
    requires form { IsChangeInForm entry.now.change }
    ensures rows { OnOk result (rows.new.items ≡ rows.old.items
        ++ spec.paid_by entries.now (places_in known.now) by entry.now.drawn entry.now.change.act) }
    ensures small { OnOk result (AreSmall rows.old.items → AreSmall rows.new.items) }
    ensures few { OnOk result (length rows.new.items ≤ length rows.old.items + 64) }
{
    match &entry.change.act {
        Act::Pay(payment) => put_vouchers(rows, known, entries, by, payment.vouchers.as_slice()),
        Act::PayDue(payment) => put_some(
            rows,
            known.lease(entries, by, payment.bond, entry.drawn.number),
        ),
        Act::Adopt(_)
        | Act::Amend(_)
        | Act::Transfer(_)
        | Act::Requisition(_)
        | Act::Withdraw(_)
        | Act::Order(_)
        | Act::ChangeOrder(_)
        | Act::CancelOrder(_)
        | Act::Voucher(_)
        | Act::VoidVoucher(_)
        | Act::Bill(_)
        | Act::Collect(_)
        | Act::Receive(_)
        | Act::WriteOff(_)
        | Act::Asset(_)
        | Act::Issue(_)
        | Act::Leave(_)
        | Act::Interfund(_)
        | Act::Close(_)
        | Act::Lease(_) => Ok(()),
    }
}

/// Adds what an entry paid, where its day is in the year.
fn put_entry(
    rows: &mut Vec<Paid>,
    known: &Entered,
    entries: &[Entry],
    year: u16,
    by: u64,
    entry: &Entry,
) -> Result<(), AllocError>
    requires forms { AreInForm entries.now }
    requires form { IsChangeInForm entry.now.change }
    ensures rows { OnOk result (rows.new.items ≡ rows.old.items
        ++ spec.paid_if year entries.now (places_in known.now) by entry.now) }
    ensures small { OnOk result (AreSmall rows.old.items → AreSmall rows.new.items) }
    ensures few { OnOk result (length rows.new.items ≤ length rows.old.items + 64) }
{
    if entry.change.on.year == year {
        put_paid(rows, known, entries, by, entry)
    } else {
        Ok(())
    }
}

/// What was paid to vendors in a calendar year, in the order of the payments: each voucher that a
/// payment dated in it paid, and each payment of a lease that is dated in it. Vouchers come to the
/// items of the entry that entered them, and payments of leases to the principal and the interest
/// of their schedules.
pub fn paid_in(alloc: Global, year: u16, entries: &[Entry]) -> Result<Vec<Paid>, AllocError>
    requires forms { AreInForm entries.now }
    requires few { length entries.now ≤ most_entries }
    ensures rows { IfOk result (λ rows. rows.items ≡ spec.paid_in year entries.now) }
    ensures small { IfOk result (λ rows. AreSmall rows.items) }
    ensures few { IfOk result (λ rows. length rows.items ≤ 64 * most_entries) }
{
    let mut rows = Vec::new(alloc);
    let mut known = Entered::new(alloc);
    let mut place = 0;
    for entry in entries {
        put_entry(&mut rows, &known, entries, year, place, entry)?;
        known.note(entry, place)?;
        place += 1;
    }
    Ok(rows)
}
