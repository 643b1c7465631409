//! What a history says of vouchers and years.
ghost use Rattle.std.specs.Prelude.{◌≡◌, ◌<◌, ◌^◌, ℕ, IfOk, option_to_list};
ghost use Rattle.std.specs.BTreeSet.{contains};
ghost use Rattle.std.specs.Ordering.{nat_cmp};
ghost use Rattle.cf_claims.specs.Claims as spec;
ghost use Rattle.cf_claims.specs.Marks.{AreMarks, IsClaimNumber, is_this, years_of};
ghost use Rattle.cf_model.specs.Common.{is_year_closed};

use cf_calls::acts::Period;
use cf_calls::{Act, Change, Entry};
use itoa::Buffer;
use std::alloc::{AllocError, Global};
use std::collections::BTreeSet;

/// What a history says of vouchers and years.
#[derive(Drop)]
pub struct Marks {
    /// The vouchers that are paid.
    pub paid: BTreeSet<u32>,
    /// The fiscal years that are closed.
    pub closed: BTreeSet<u32>,
    /// The vouchers that were claimed.
    pub claimed: BTreeSet<u32>,
}

/// The set of these numbers.
fn set_of(alloc: Global, numbers: &[u32]) -> Result<BTreeSet<u32>, AllocError>
    ensures { IfOk result (λ s. (q : ℕ) → contains nat_cmp s q ≡ spec.has_number q numbers.now) }
{
    let mut set = BTreeSet::new(alloc);
    for number in numbers {
        set.insert(*number)?;
    }
    Ok(set)
}

fn vouchers_of(act: &Act) -> &[u32]
    ensures { result.now ≡ spec.vouchers_of act.now }
{
    match act {
        Act::Pay(payment) => payment.vouchers.as_slice(),
        Act::Adopt(_)
        | Act::Amend(_)
        | Act::Transfer(_)
        | Act::Requisition(_)
        | Act::Withdraw(_)
        | Act::Order(_)
        | Act::ChangeOrder(_)
        | Act::CancelOrder(_)
        | Act::Voucher(_)
        | Act::VoidVoucher(_)
        | Act::Bill(_)
        | Act::Collect(_)
        | Act::Receive(_)
        | Act::WriteOff(_)
        | Act::Asset(_)
        | Act::Issue(_)
        | Act::PayDue(_)
        | Act::Leave(_)
        | Act::Interfund(_)
        | Act::Close(_)
        | Act::Lease(_) => &[],
    }
}

/// The vouchers that payments list.
fn paid_numbers(alloc: Global, entries: &[Entry]) -> Result<Vec<u32>, AllocError>
    ensures { IfOk result (λ v. v.items ≡ spec.paid_numbers entries.now) }
{
    let mut numbers = Vec::new(alloc);
    for entry in entries {
        numbers.extend_from_slice(vouchers_of(&entry.change.act))?;
    }
    Ok(numbers)
}

fn year_of(act: &Act) -> Option<u16>
    ensures { option_to_list result ≡ years_of act.now }
{
    match act {
        Act::Close(Period::Year(year)) => Some(*year),
        Act::Adopt(_)
        | Act::Amend(_)
        | Act::Transfer(_)
        | Act::Requisition(_)
        | Act::Withdraw(_)
        | Act::Order(_)
        | Act::ChangeOrder(_)
        | Act::CancelOrder(_)
        | Act::Voucher(_)
        | Act::VoidVoucher(_)
        | Act::Pay(_)
        | Act::Bill(_)
        | Act::Collect(_)
        | Act::Receive(_)
        | Act::WriteOff(_)
        | Act::Asset(_)
        | Act::Issue(_)
        | Act::PayDue(_)
        | Act::Leave(_)
        | Act::Interfund(_)
        | Act::Close(Period::Month(_))
        | Act::Lease(_) => None,
    }
}

/// The fiscal years that entries close.
fn closed_years(alloc: Global, entries: &[Entry]) -> Result<Vec<u32>, AllocError>
    ensures { IfOk result
        (λ v. (n : ℕ) → spec.has_number n v.items ≡ is_year_closed entries.now n) }
{
    let mut years = Vec::new(alloc);
    for entry in entries {
        if let Some(year) = year_of(&entry.change.act) {
            years.push(u32::from(year))?;
        }
    }
    Ok(years)
}

/// The number, below 2^32, whose claim a key is.
fn claim_number(key: &str) -> Option<u32>
    ensures { IsClaimNumber key.now result }
{
    let text = match key.strip_prefix("claim-") {
        Some(text) => text,
        None => return None,
    };
    let number: u32 = match text.parse() {
        Ok(number) => number,
        Err(_) => return None,
    };
    let mut buffer = Buffer::new();
    let written = buffer.format(number) == text;
    if written { Some(number) } else { None }
}

/// The number, below 2^32, whose claim bill a change is.
pub fn claimed_number(change: &Change) -> Option<u32>
    ensures { (n : ℕ) → n < 2 ^ 32
        → is_this n result ≡ spec.claims_number n change.now.key change.now.act }
{
    match change.act {
        Act::Bill(_) => claim_number(change.key.as_str()),
        Act::Adopt(_)
        | Act::Amend(_)
        | Act::Transfer(_)
        | Act::Requisition(_)
        | Act::Withdraw(_)
        | Act::Order(_)
        | Act::ChangeOrder(_)
        | Act::CancelOrder(_)
        | Act::Voucher(_)
        | Act::VoidVoucher(_)
        | Act::Pay(_)
        | Act::Collect(_)
        | Act::Receive(_)
        | Act::WriteOff(_)
        | Act::Asset(_)
        | Act::Issue(_)
        | Act::PayDue(_)
        | Act::Leave(_)
        | Act::Interfund(_)
        | Act::Close(_)
        | Act::Lease(_) => None,
    }
}

/// The vouchers that were claimed.
fn claimed_numbers(alloc: Global, entries: &[Entry]) -> Result<Vec<u32>, AllocError>
    ensures { IfOk result
        (λ v. (n : ℕ) → n < 2 ^ 32 → spec.has_number n v.items ≡ spec.is_claimed entries.now n) }
{
    let mut numbers = Vec::new(alloc);
    for entry in entries {
        if let Some(number) = claimed_number(&entry.change) {
            numbers.push(number)?;
        }
    }
    Ok(numbers)
}

/// What a history says of vouchers and years. Each entry is read once for each.
pub fn marks_of(alloc: Global, entries: &[Entry]) -> Result<Marks, AllocError>
    ensures { IfOk result (λ m. AreMarks m entries.now) }
{
    let paid = paid_numbers(alloc, entries)?;
    let paid = set_of(alloc, paid.as_slice())?;
    let closed = closed_years(alloc, entries)?;
    let closed = set_of(alloc, closed.as_slice())?;
    let claimed = claimed_numbers(alloc, entries)?;
    let claimed = set_of(alloc, claimed.as_slice())?;
    Ok(Marks {
        paid,
        closed,
        claimed,
    })
}
