//! What was paid of a document, by the entry that entered it.

ghost use Rattle.std.specs.Prelude.{◌≡◌, ℕ, IfSome, OnOk};
ghost use Rattle.std.specs.Ordering.{nat_cmp};
ghost use Rattle.std.specs.BTreeMap.{get};
ghost use Rattle.cf_calls.specs.Common.{IsChangeInForm};
ghost use Rattle.cf_books_payments.specs.Paid as spec;
ghost use Rattle.cf_books_payments.specs.Entering.{AreInForm, IsSmall, places_in};

use crate::amounts::total;
use crate::payments::{due_amount, note_debt, put_place, schedule_in};
use cf_calls::{Act, Entry};
use std::alloc::{AllocError, Global};
use std::collections::BTreeMap;

/// What is paid to a vendor.
#[derive(Clone, Copy)]
pub enum PaidKind {
    Voucher,
    Lease,
}

/// What was paid to a vendor at once: a voucher, or a payment of a lease.
#[derive(Clone, Copy)]
pub struct Paid {
    pub vendor: u32,
    pub kind: PaidKind,
    /// The number of the voucher, or of the lease's bond.
    pub number: u32,
    /// The place, from 0, of the entry that entered it.
    pub at: u64,
    /// The place, from 0, of the entry that paid it.
    pub by: u64,
    /// In cents.
    pub amount: i128,
}

/// Which entries so far entered a voucher, and a bond or a lease: their places, from 0, by number.
#[derive(Drop)]
pub struct Entered {
    pub vouchers: BTreeMap<u32, u64>,
    pub debts: BTreeMap<u32, u64>,
}

/// What the entry at a place, `by`, paid of the voucher that an entry entered.
fn voucher_paid(by: u64, number: u32, at: u64, entry: &Entry) -> Option<Paid>
    requires { IsChangeInForm entry.now.change }
    ensures value { result ≡ spec.voucher_paid by number at entry.now.change.act }
    ensures small { IfSome result IsSmall }
{
    if let Act::Voucher(voucher) = &entry.change.act {
        let amount = total(voucher.items.as_slice()) as i128;
        Some(Paid {
            vendor: voucher.vendor,
            kind: PaidKind::Voucher,
            number,
            at,
            by,
            amount,
        })
    } else {
        None
    }
}

/// What the entry at a place, `by`, paid of the lease that an entry entered, by a payment of this
/// number.
fn lease_paid(by: u64, bond: u32, number: u32, at: u64, entry: &Entry) -> Option<Paid>
    ensures value { result ≡ spec.lease_paid by bond number at entry.now.change.act }
    ensures small { IfSome result IsSmall }
{
    if let Act::Lease(lease) = &entry.change.act {
        let amount = due_amount(schedule_in(&entry.change.act)?, number)?;
        Some(Paid {
            vendor: lease.vendor,
            kind: PaidKind::Lease,
            number: bond,
            at,
            by,
            amount,
        })
    } else {
        None
    }
}

/// Notes the place of a voucher, where the entry is one.
fn note_voucher(places: &mut BTreeMap<u32, u64>, entry: &Entry, at: u64) -> Result<(), AllocError>
    ensures { OnOk result ((n : ℕ) → get nat_cmp places.new n
        ≡ spec.vouchers_noted entry.now.change.act entry.now.drawn at (get nat_cmp places.old) n) }
{
    if let Act::Voucher(_) = entry.change.act {
        put_place(places, entry.drawn.number, at)
    } else {
        Ok(())
    }
}

impl Entered {
    /// Before the first entry.
    pub fn new(alloc: Global) -> Entered
        ensures { places_in result ≡ spec.no_places }
    {
        Entered {
            vouchers: BTreeMap::new(alloc),
            debts: BTreeMap::new(alloc),
        }
    }

    /// What the entry at a place, `by`, paid of a voucher.
    pub fn voucher(&self, entries: &[Entry], by: u64, number: u32) -> Option<Paid>
        requires { AreInForm entries.now }
        ensures value { result ≡ spec.paid_at entries.now (spec.voucher_paid by number)
            (get nat_cmp self.now.vouchers number) }
        ensures small { IfSome result IsSmall }
    {
        let at = *self.vouchers.get(&number)?;
        let entry = entries.get(at as usize)?;
        voucher_paid(by, number, at, entry)
    }

    /// What the entry at a place, `by`, paid of a lease, by a payment of this number.
    pub fn lease(&self, entries: &[Entry], by: u64, bond: u32, number: u32) -> Option<Paid>
        ensures value { result ≡ spec.paid_at entries.now (spec.lease_paid by bond number)
            (get nat_cmp self.now.debts bond) }
        ensures small { IfSome result IsSmall }
    {
        let at = *self.debts.get(&bond)?;
        let entry = entries.get(at as usize)?;
        lease_paid(by, bond, number, at, entry)
    }

    /// Notes what the entry at a place, from 0, entered.
    pub fn note(&mut self, entry: &Entry, at: u64) -> Result<(), AllocError>
        ensures { OnOk result (places_in self.new ≡ spec.places_after (places_in self.old) entry.now
            at) }
    {
        note_voucher(&mut self.vouchers, entry, at)?;
        note_debt(&mut self.debts, entry, at)
    }
}
