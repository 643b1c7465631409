//! What payments come to, by the entries before them.

ghost use Rattle.std.specs.Prelude.{◌≡◌, ◌≤◌, ◌<◌, ◌+◌, ◌*◌, ◌/◌, ◌^◌, ℕ, List, length, option_and_then, option_map, sum_by, unsigned_abs, IfSome, OnOk};
ghost use Rattle.std.specs.Ordering.{nat_cmp};
ghost use Rattle.std.specs.BTreeMap.{get};
ghost use Rattle.cf_calls.specs.Common.{IsChangeInForm};
ghost use Rattle.cf_model.specs.Common.{Entry};
ghost use Rattle.cf_books_payments.specs.Payments as spec;
ghost use Rattle.cf_books_payments.specs.Payments.{Payable};
ghost use Rattle.cf_books_payments.specs.Tables.{AreSmall, Knows, NotesVoucher, debts_noted, issue_of, schedule_at, schedule_in};

use crate::amounts::{amount_of, total};
use cf_calls::acts::Terms;
use cf_calls::{Act, Entry};
use std::alloc::{AllocError, Global};
use std::collections::BTreeMap;

/// What entries say of later payments: the amount of each voucher, by its number, and the place,
/// from 0, of the entry of each bond and lease.
#[derive(Drop)]
pub struct Tables {
    pub vouchers: BTreeMap<u32, u128>,
    pub debts: BTreeMap<u32, u64>,
}

/// A bond's or a lease's schedule.
#[derive(Clone, Copy)]
pub struct Schedule<'a> {
    pub fund: u16,
    pub amount: u64,
    pub terms: &'a Terms,
}

/// The schedule that an act enters.
pub(crate) fn schedule_in(act: &Act) -> Option<Schedule<'_>>
    ensures { option_map issue_of result ≡ schedule_in act.now }
{
    match act {
        Act::Issue(bond) => Some(Schedule {
            fund: bond.fund,
            amount: bond.amount,
            terms: &bond.terms,
        }),
        Act::Lease(lease) => Some(Schedule {
            fund: lease.account.fund,
            amount: lease.account.amount,
            terms: &lease.terms,
        }),
        Act::Adopt(_)
        | Act::Amend(_)
        | Act::Transfer(_)
        | Act::Requisition(_)
        | Act::Withdraw(_)
        | Act::Order(_)
        | Act::ChangeOrder(_)
        | Act::CancelOrder(_)
        | Act::Voucher(_)
        | Act::VoidVoucher(_)
        | Act::Pay(_)
        | Act::Bill(_)
        | Act::Collect(_)
        | Act::Receive(_)
        | Act::WriteOff(_)
        | Act::Asset(_)
        | Act::PayDue(_)
        | Act::Leave(_)
        | Act::Interfund(_)
        | Act::Close(_) => None,
    }
}

/// A payment's principal, with the interest of its period on what was owed before it: months of 30
/// days, in a year of 360.
fn due_total(owed: u64, rate_bp: u16, every: u16, principal: u64) -> u128
    ensures value { result ≡ principal + owed * rate_bp * (30 * every) / 3600000 }
    ensures small { result < 2 ^ 90 }
{
    let rated = u128::from(owed) * u128::from(rate_bp);
    let days = 30 * u128::from(every);
    u128::from(principal) + rated * days / 3_600_000
}

/// The payment of a number, from 1, in a schedule.
pub(crate) fn due_amount(schedule: Schedule, number: u32) -> Option<i128>
    ensures value { result ≡ spec.due_amount number (spec.bond_of (issue_of schedule.entry)) }
    ensures small { IfSome result (λ due. unsigned_abs due < 2 ^ 90) }
{
    let terms = schedule.terms;
    let mut owed = schedule.amount;
    for (nth, principal) in terms.principals.as_slice().iter().enumerate() {
        if nth == number.saturating_sub(1) as usize {
            let due = due_total(owed, terms.rate_bp, terms.every, *principal);
            return Some(due as i128);
        }
        owed = owed.saturating_sub(*principal);
    }
    None
}

/// The schedule that the entry at a place, from 0, enters.
fn schedule_of(entries: &[Entry], at: u64) -> Option<Schedule<'_>>
    ensures { option_map issue_of result ≡ schedule_at entries.now at }
{
    let entry = entries.get(at as usize)?;
    schedule_in(&entry.change.act)
}

/// Puts an amount under a number, in the place of one that was.
fn put_amount(
    amounts: &mut BTreeMap<u32, u128>,
    number: u32,
    amount: u128,
) -> Result<(), AllocError>
    ensures { OnOk result ((n : ℕ) → get nat_cmp amounts.new n
        ≡ spec.entered number amount (get nat_cmp amounts.old) n) }
{
    amounts.insert(number, amount)?;
    Ok(())
}

/// Puts a place under a number, in the place of one that was.
pub(crate) fn put_place(
    places: &mut BTreeMap<u32, u64>,
    number: u32,
    at: u64,
) -> Result<(), AllocError>
    ensures { OnOk result ((n : ℕ) → get nat_cmp places.new n
        ≡ spec.entered number at (get nat_cmp places.old) n) }
{
    places.insert(number, at)?;
    Ok(())
}

/// Notes the amount of a voucher, where the entry is one.
fn note_voucher(amounts: &mut BTreeMap<u32, u128>, entry: &Entry) -> Result<(), AllocError>
    requires form { IsChangeInForm entry.now.change }
    ensures { OnOk result (NotesVoucher entry.now (get nat_cmp amounts.old)
        (get nat_cmp amounts.new)) }
{
    match &entry.change.act {
        Act::Voucher(voucher) => {
            let amount = total(voucher.items.as_slice());
            put_amount(amounts, entry.drawn.number, amount)
        }
        Act::Adopt(_)
        | Act::Amend(_)
        | Act::Transfer(_)
        | Act::Requisition(_)
        | Act::Withdraw(_)
        | Act::Order(_)
        | Act::ChangeOrder(_)
        | Act::CancelOrder(_)
        | Act::VoidVoucher(_)
        | Act::Pay(_)
        | Act::Bill(_)
        | Act::Collect(_)
        | Act::Receive(_)
        | Act::WriteOff(_)
        | Act::Asset(_)
        | Act::Issue(_)
        | Act::PayDue(_)
        | Act::Leave(_)
        | Act::Interfund(_)
        | Act::Close(_)
        | Act::Lease(_) => Ok(()),
    }
}

/// Notes the place of a bond or of a lease, where the entry is one.
pub(crate) fn note_debt(
    places: &mut BTreeMap<u32, u64>,
    entry: &Entry,
    at: u64,
) -> Result<(), AllocError>
    ensures { OnOk result ((n : ℕ) → get nat_cmp places.new n
        ≡ debts_noted entry.now.change.act entry.now.drawn at (get nat_cmp places.old) n) }
{
    match &entry.change.act {
        Act::Issue(_) => put_place(places, entry.drawn.number, at),
        Act::Lease(_) => put_place(places, entry.drawn.second, at),
        Act::Adopt(_)
        | Act::Amend(_)
        | Act::Transfer(_)
        | Act::Requisition(_)
        | Act::Withdraw(_)
        | Act::Order(_)
        | Act::ChangeOrder(_)
        | Act::CancelOrder(_)
        | Act::Voucher(_)
        | Act::VoidVoucher(_)
        | Act::Pay(_)
        | Act::Bill(_)
        | Act::Collect(_)
        | Act::Receive(_)
        | Act::WriteOff(_)
        | Act::Asset(_)
        | Act::PayDue(_)
        | Act::Leave(_)
        | Act::Interfund(_)
        | Act::Close(_) => Ok(()),
    }
}

impl Tables {
    /// What the entries before the first say: nothing.
    pub fn new(alloc: Global) -> Tables
        ensures { (entries : List Entry) → Knows entries result spec.none_payable }
    {
        Tables {
            vouchers: BTreeMap::new(alloc),
            debts: BTreeMap::new(alloc),
        }
    }

    /// The amount of a voucher, which is 0 where none was entered.
    fn voucher(&self, number: u32) -> u128
        requires { AreSmall (get nat_cmp self.now.vouchers) }
        ensures value { result ≡ spec.voucher_in (get nat_cmp self.now.vouchers) number }
        ensures small { result < 2 ^ 76 }
    {
        match self.vouchers.get(&number) {
            Some(amount) => *amount,
            None => 0,
        }
    }

    /// What vouchers come to.
    fn paid(&self, numbers: &[u32]) -> u128
        requires small { AreSmall (get nat_cmp self.now.vouchers) }
        requires few { length numbers.now ≤ 4096 }
        ensures value { result ≡ sum_by (spec.voucher_in (get nat_cmp self.now.vouchers))
            numbers.now }
        ensures small { result < 2 ^ 104 }
    {
        let mut total = 0;
        for number in numbers {
            total += self.voucher(*number);
        }
        total
    }

    /// What a payment of a debt comes to, where its bond or lease is there and has such a payment.
    fn due(&self, entries: &[Entry], bond: u32, number: u32) -> Option<i128>
        ensures { result ≡ spec.due_of number
            (option_and_then (schedule_at entries.now) (get nat_cmp self.now.debts bond)) }
    {
        let at = *self.debts.get(&bond)?;
        let schedule = schedule_of(entries, at)?;
        due_amount(schedule, number)
    }

    /// The amount of an entry in cents, where it has one: a payment's is that of its vouchers, that
    /// of a debt its principal and interest, and another's the one that its act states.
    pub fn amount(&self, entries: &[Entry], entry: &Entry) -> Option<i128>
        requires form { IsChangeInForm entry.now.change }
        requires small { AreSmall (get nat_cmp self.now.vouchers) }
        ensures { (known : Payable) → Knows entries.now self.now known → result
            ≡ spec.amount_after known entry.now.drawn entry.now.change.act }
    {
        let change = &entry.change;
        match &change.act {
            Act::Pay(payment) => Some(self.paid(payment.vouchers.as_slice()) as i128),
            Act::PayDue(payment) => self.due(entries, payment.bond, entry.drawn.number),
            Act::Adopt(_)
            | Act::Amend(_)
            | Act::Transfer(_)
            | Act::Requisition(_)
            | Act::Withdraw(_)
            | Act::Order(_)
            | Act::ChangeOrder(_)
            | Act::CancelOrder(_)
            | Act::Voucher(_)
            | Act::VoidVoucher(_)
            | Act::Bill(_)
            | Act::Collect(_)
            | Act::Receive(_)
            | Act::WriteOff(_)
            | Act::Asset(_)
            | Act::Issue(_)
            | Act::Leave(_)
            | Act::Interfund(_)
            | Act::Close(_)
            | Act::Lease(_) => amount_of(change.on, &change.act),
        }
    }

    /// Notes what the entry at a place, from 0, says of later payments.
    pub fn note(&mut self, entry: &Entry, at: u64) -> Result<(), AllocError>
        requires { IsChangeInForm entry.now.change }
        ensures vouchers { OnOk result
            (NotesVoucher entry.now (get nat_cmp self.old.vouchers)
            (get nat_cmp self.new.vouchers)) }
        ensures debts { OnOk result ((n : ℕ) → get nat_cmp self.new.debts n
            ≡ debts_noted entry.now.change.act entry.now.drawn at (get nat_cmp self.old.debts) n) }
    {
        note_voucher(&mut self.vouchers, entry)?;
        note_debt(&mut self.debts, entry, at)
    }
}
