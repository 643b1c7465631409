//! The bills of a claim.

ghost use Rattle.std.specs.Prelude.{◌≡◌, ◌≤◌, ◌++◌, List, true, IfOk, OnOk, string_bytes};
ghost use Rattle.std.specs.List.{AllByRecursion, list_all};
ghost use Rattle.cf_model.specs.Common.{Entry as AnEntry, IsLegal};
ghost use Rattle.cf_claims.specs.Claims as spec;
ghost use Rattle.cf_claims.specs.Kept.{AreKept, IsReadable};
ghost use Rattle.cf_claims.specs.Marks.{AreMarks};
ghost use Rattle.cf_json_members.specs.Parts.{is_plain};

use crate::billed::left_of;
use crate::eligible::{eligible, share_within, voucher_year};
use crate::marks::{Marks, marks_of};
use cf_base::Day;
use cf_calls::acts::NewBill;
use cf_calls::{Act, Entry};
use cf_chart::Chart;
use cf_grants::Grant;
use cf_json_lines::put_bill;
use std::alloc::{AllocError, Global};

/// Who claims of a grant: a desk, on a day.
#[derive(Drop)]
struct Claimant<'a> {
    chart: &'a Chart,
    grant: &'a Grant,
    on: Day,
    desk: u16,
}

fn is_voucher(act: &Act) -> bool
    ensures { result ≡ spec.is_voucher act.now }
{
    match act {
        Act::Voucher(_) => true,
        Act::Adopt(_)
        | Act::Amend(_)
        | Act::Transfer(_)
        | Act::Requisition(_)
        | Act::Withdraw(_)
        | Act::Order(_)
        | Act::ChangeOrder(_)
        | Act::CancelOrder(_)
        | Act::VoidVoucher(_)
        | Act::Pay(_)
        | Act::Bill(_)
        | Act::Collect(_)
        | Act::Receive(_)
        | Act::WriteOff(_)
        | Act::Asset(_)
        | Act::Issue(_)
        | Act::PayDue(_)
        | Act::Leave(_)
        | Act::Interfund(_)
        | Act::Close(_)
        | Act::Lease(_) => false,
    }
}

/// Whether an entry is a voucher that can be claimed: it is paid, its year isn't closed, and it
/// wasn't claimed.
fn is_claimable(marks: &Marks, chart: &Chart, entry: &Entry) -> bool
    requires { IsReadable entry.now }
    ensures { (history : List AnEntry) → AreMarks marks.now history
        → result ≡ spec.is_claimable chart.now history entry.now }
{
    let year = voucher_year(chart, entry);
    let number = entry.drawn.number;
    is_voucher(&entry.change.act)
        && marks.paid.contains(&number)
        && !marks.closed.contains(&u32::from(year))
        && !marks.claimed.contains(&number)
}

/// What is claimed of an entry, of what is left of the award.
pub fn amount_of(marks: &Marks, chart: &Chart, grant: &Grant, left: u64, entry: &Entry) -> u64
    requires { IsReadable entry.now }
    ensures value { (history : List AnEntry) → AreMarks marks.now history
        → result ≡ spec.amount_of chart.now grant.now history left entry.now }
    ensures within { result ≤ left }
{
    if !is_claimable(marks, chart, entry) {
        return 0;
    }
    let sum = eligible(chart, grant.lines.as_slice(), entry);
    share_within(grant.rate_bp, sum, left)
}

/// The key of a voucher's claim bill.
fn claim_key(alloc: Global, number: u32) -> Result<String, AllocError>
    ensures value { IfOk result (λ t. string_bytes t ≡ spec.claim_key number) }
    ensures plain { list_all is_plain (spec.claim_key number) ≡ true }
{
    format!(in alloc; "claim-{number}")
}

/// Appends the claim of an entry, where it has one.
fn put_claim(
    alloc: Global,
    out: &mut Vec<u8>,
    claimant: &Claimant<'_>,
    entry: &Entry,
    amount: u64,
) -> Result<(), AllocError>
    requires { IsReadable entry.now }
    ensures { OnOk result
        (out.new.items ≡ out.old.items
        ++ spec.claim_lines claimant.now.grant.now claimant.now.on claimant.now.desk
        (spec.claim_if claimant.now.chart.now entry.now amount)) }
{
    if amount == 0 {
        return Ok(());
    }
    let number = entry.drawn.number;
    let year = voucher_year(claimant.chart, entry);
    let key = claim_key(alloc, number)?;
    let bill = NewBill {
        source: claimant.grant.source,
        levy_year: year,
        payer: claimant.grant.payer,
        amount,
    };
    put_bill(out, claimant.desk, key.as_str(), claimant.on, bill)
}

/// Appends the claims of entries, of what is left of the award.
fn put_claims(
    alloc: Global,
    out: &mut Vec<u8>,
    claimant: &Claimant<'_>,
    marks: &Marks,
    entries: &[Entry],
    left: u64,
) -> Result<(), AllocError>
    requires readable { AllByRecursion IsReadable entries.now }
    requires marks { AreMarks marks.now entries.now }
    ensures { OnOk result
        (out.new.items ≡ out.old.items
        ++ spec.claim_lines claimant.now.grant.now claimant.now.on claimant.now.desk
        (spec.claims_from claimant.now.chart.now claimant.now.grant.now entries.now left
        entries.now)) }
{
    let mut left = left;
    for entry in entries {
        let amount = amount_of(marks, claimant.chart, claimant.grant, left, entry);
        put_claim(alloc, out, claimant, entry, amount)?;
        left -= amount;
    }
    Ok(())
}

/// Appends the bills by which a desk claims, on a day, what a grant pays of the vouchers of a
/// history: one line for each claimable voucher, by number, of which something is claimed. With the
/// claim bills that the history has on the grant's source they come to no more than the award, or
/// there are none, and no voucher is claimed twice (2 CFR 200.305: payment by reimbursement). Where
/// there is no memory a part of the lines may be appended. Each entry is read five times.
pub fn claims(
    alloc: Global,
    chart: &Chart,
    entries: &[Entry],
    grant: &Grant,
    on: Day,
    desk: u16,
    out: &mut Vec<u8>,
) -> Result<(), AllocError>
    requires { IsLegal chart.now entries.now }
    ensures lines { OnOk result
        (out.new.items ≡ out.old.items
        ++ spec.claim_lines grant.now on desk (spec.claims_of chart.now grant.now entries.now)) }
    ensures kept { AreKept chart.now grant.now entries.now }
{
    let marks = marks_of(alloc, entries)?;
    let claimant = Claimant {
        chart,
        grant,
        on,
        desk,
    };
    let left = left_of(grant, entries);
    put_claims(alloc, out, &claimant, &marks, entries, left)
}
