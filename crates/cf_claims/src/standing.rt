//! How the vouchers of a grant stand: what of each is eligible, and whether it is claimed or can
//! be.

ghost use Rattle.std.specs.Prelude.{◌≡◌, ◌<◌, ◌^◌, ◌++◌, ℕ, List, Ok, Err, IfOk, OnOk};
ghost use Rattle.std.specs.BTreeMap.{get};
ghost use Rattle.std.specs.List.{AllByRecursion};
ghost use Rattle.std.specs.Ordering.{nat_cmp};
ghost use Rattle.cf_model.specs.Common.{Entry as AnEntry, IsLegal};
ghost use Rattle.cf_claims.specs.Claims.{claims_of};
ghost use Rattle.cf_claims.specs.Kept.{IsReadable};
ghost use Rattle.cf_claims.specs.Standing as spec;
ghost use Rattle.cf_claims.specs.Standing.{Knows};
ghost use Rattle.cf_grants.specs.declared.fault.GrantFault.{GrantFault as AFault};

use crate::billed::left_of;
use crate::bills::amount_of;
use crate::eligible::{eligible, share_within, voucher_year};
use crate::marks::{Marks, claimed_number, marks_of};
use cf_base::Day;
use cf_calls::Entry;
use cf_chart::Chart;
use cf_grants::{Grant, GrantFault, GrantRefused, Grants};
use std::alloc::{AllocError, Global};
use std::collections::BTreeMap;

/// How a voucher stands to the claims of a grant.
#[derive(Clone, Copy)]
pub enum ClaimState {
    /// It can be claimed now: so many cents, 1 or more.
    Claimable { amount: u64 },
    /// The bill of this number claims it, on whatever source. Of several such bills it is the last.
    Claimed { bill: u32 },
    /// No payment has it: it is open, or void.
    Unpaid,
    /// It is paid, and its fiscal year is closed.
    YearClosed,
    /// It could be claimed, but nothing is left of the award, or the share is below a cent.
    NothingLeft,
}

/// A voucher of which something is eligible under a grant.
#[derive(Clone, Copy)]
pub struct GrantVoucher {
    /// Its number.
    pub number: u32,
    /// The day that it is dated.
    pub on: Day,
    /// Its fiscal year.
    pub year: u16,
    /// What its items on the grant's lines come to, in cents: 1 or more.
    pub eligible: u64,
    /// The grantor's share of that, in cents, rounded down.
    pub share: u64,
    pub state: ClaimState,
    /// What the claims up to this voucher leave of the award, in cents.
    pub left: u64,
}

/// What a history says of vouchers, years and claim bills.
#[derive(Drop)]
struct Known {
    marks: Marks,
    /// The number of the last claim bill of a voucher, by the voucher's number.
    bills: BTreeMap<u32, u32>,
}

/// Puts a bill under the number of a voucher, in the place of one that was.
fn put_number(bills: &mut BTreeMap<u32, u32>, voucher: u32, bill: u32) -> Result<(), AllocError>
    ensures { OnOk result
        ((n : ℕ) → get nat_cmp bills.new n ≡ spec.put voucher bill (get nat_cmp bills.old n) n) }
{
    bills.insert(voucher, bill)?;
    Ok(())
}

/// Notes which voucher an entry claims, where it is a claim bill.
fn note_bill(bills: &mut BTreeMap<u32, u32>, entry: &Entry) -> Result<(), AllocError>
    ensures { OnOk result
        ((n : ℕ) → n < 2 ^ 32
        → get nat_cmp bills.new n ≡ spec.bill_after n (get nat_cmp bills.old n) entry.now) }
{
    match claimed_number(&entry.change) {
        Some(voucher) => put_number(bills, voucher, entry.drawn.number),
        None => Ok(()),
    }
}

/// The claim bills of a history.
fn bills_of(alloc: Global, entries: &[Entry]) -> Result<BTreeMap<u32, u32>, AllocError>
    ensures { IfOk result
        (λ m. (n : ℕ) → n < 2 ^ 32 → get nat_cmp m n ≡ spec.bill_of entries.now n) }
{
    let mut bills = BTreeMap::new(alloc);
    for entry in entries {
        note_bill(&mut bills, entry)?;
    }
    Ok(bills)
}

/// What a history says of vouchers, years and claim bills. Each entry is read once for each.
fn known_of(alloc: Global, entries: &[Entry]) -> Result<Known, AllocError>
    ensures { IfOk result (λ k. Knows k entries.now) }
{
    let marks = marks_of(alloc, entries)?;
    let bills = bills_of(alloc, entries)?;
    Ok(Known { marks, bills })
}

/// Why nothing is claimed of a voucher of a fiscal year.
fn unclaimed(known: &Known, year: u16, number: u32) -> ClaimState
    ensures { (history : List AnEntry) → Knows known.now history
        → result ≡ spec.unclaimed history year number }
{
    match known.bills.get(&number) {
        Some(bill) => ClaimState::Claimed { bill: *bill },
        None if !known.marks.paid.contains(&number) => ClaimState::Unpaid,
        None if known.marks.closed.contains(&u32::from(year)) => ClaimState::YearClosed,
        None => ClaimState::NothingLeft,
    }
}

/// How an entry's voucher stands, where so much of it is claimed and so much is left then.
fn row_of(
    known: &Known,
    chart: &Chart,
    grant: &Grant,
    entry: &Entry,
    amount: u64,
    left: u64,
) -> GrantVoucher
    requires { IsReadable entry.now }
    ensures { (history : List AnEntry) → Knows known.now history
        → result ≡ spec.row_of chart.now grant.now history entry.now amount left }
{
    let number = entry.drawn.number;
    let year = voucher_year(chart, entry);
    let sum = eligible(chart, grant.lines.as_slice(), entry);
    let state = if amount == 0 {
        unclaimed(known, year, number)
    } else {
        ClaimState::Claimable { amount }
    };
    GrantVoucher {
        number,
        on: entry.change.on,
        year,
        eligible: sum,
        share: share_within(grant.rate_bp, sum, sum),
        state,
        left,
    }
}

/// Appends a row, where something is eligible.
fn put_row(rows: &mut Vec<GrantVoucher>, row: GrantVoucher) -> Result<(), AllocError>
    ensures { OnOk result (rows.new.items ≡ rows.old.items ++ spec.row_if row) }
{
    if row.eligible == 0 {
        return Ok(());
    }
    rows.push(row)?;
    Ok(())
}

/// The rows of entries, of what is left of the award.
fn rows_from(
    alloc: Global,
    known: &Known,
    chart: &Chart,
    grant: &Grant,
    entries: &[Entry],
    left: u64,
) -> Result<Vec<GrantVoucher>, AllocError>
    requires readable { AllByRecursion IsReadable entries.now }
    requires known { Knows known.now entries.now }
    ensures { IfOk result
        (λ v. v.items ≡ spec.rows_from chart.now grant.now entries.now left entries.now) }
{
    let mut rows = Vec::new(alloc);
    let mut left = left;
    for entry in entries {
        let amount = amount_of(&known.marks, chart, grant, left, entry);
        left -= amount;
        let row = row_of(known, chart, grant, entry, amount, left);
        put_row(&mut rows, row)?;
    }
    Ok(rows)
}

/// How each voucher of a history stands of which something is eligible under a grant, by number.
/// The claimable ones, with their amounts, are exactly what `claims` writes.
pub fn grant_vouchers(
    alloc: Global,
    chart: &Chart,
    entries: &[Entry],
    grant: &Grant,
) -> Result<Vec<GrantVoucher>, AllocError>
    requires { IsLegal chart.now entries.now }
    ensures rows { IfOk result (λ v. v.items ≡ spec.rows_of chart.now grant.now entries.now) }
    ensures claims { IfOk result
        (λ v. spec.claims_in v.items ≡ claims_of chart.now grant.now entries.now) }
{
    let known = known_of(alloc, entries)?;
    let left = left_of(grant, entries);
    rows_from(alloc, &known, chart, grant, entries, left)
}

/// How the vouchers stand of the grant of this id of the document that these bytes are
/// (`grant_vouchers`); or the first fault of the document, where the last one is that it has no
/// such grant. Only want of memory may come instead of either.
pub fn vouchers_of_grant(
    alloc: Global,
    chart: &Chart,
    entries: &[Entry],
    bytes: &[u8],
    id: u16,
) -> Result<Vec<GrantVoucher>, GrantRefused>
    requires { IsLegal chart.now entries.now }
    ensures ok { IfOk result
        (λ v. spec.vouchers_of_grant chart.now entries.now bytes.now id ≡ Ok v.items) }
    ensures fault { (f : AFault) → result ≡ Err (GrantRefused.Fault f)
        → spec.vouchers_of_grant chart.now entries.now bytes.now id ≡ Err f }
{
    let grants = Grants::read(alloc, bytes, chart)?;
    let Some(grant) = grants.grant(id) else {
        return Err(GrantRefused::Fault(GrantFault::Unknown { id }));
    };
    let rows = grant_vouchers(alloc, chart, entries, grant)?;
    Ok(rows)
}
