//! What earlier claims billed.

ghost use Rattle.std.specs.Prelude.{◌≡◌};
ghost use Rattle.std.specs.List.{list_all};
ghost use Rattle.cf_base.specs.Common.{is_digit as is_decimal_digit};
ghost use Rattle.cf_claims.specs.Claims as spec;

use cf_calls::{Act, Change, Entry};
use cf_grants::Grant;

fn are_digits(text: &[u8]) -> bool
    ensures { result ≡ list_all is_decimal_digit text.now }
{
    text.iter().all(|c| b'0' <= *c && *c <= b'9')
}

/// Whether a text is a number without leading zeros.
fn is_number_text(text: &[u8]) -> bool
    ensures { result ≡ spec.is_number_text text.now }
{
    1 <= text.len() && are_digits(text) && (b'0' < text[0] || text.len() == 1)
}

/// Whether a key is a claim bill's.
fn is_claim_key(key: &[u8]) -> bool
    ensures { result ≡ spec.is_claim_key key.now }
{
    match key.strip_prefix(b"claim-") {
        Some(text) => is_number_text(text),
        None => false,
    }
}

/// What a change bills on a source by a claim.
fn billed(source: u16, change: &Change) -> u64
    ensures { result ≡ spec.billed source change.now.key change.now.act }
{
    match change.act {
        Act::Bill(bill) if bill.source == source && is_claim_key(change.key.as_str().as_bytes()) =>
            { bill.amount }
        Act::Adopt(_)
        | Act::Amend(_)
        | Act::Transfer(_)
        | Act::Requisition(_)
        | Act::Withdraw(_)
        | Act::Order(_)
        | Act::ChangeOrder(_)
        | Act::CancelOrder(_)
        | Act::Voucher(_)
        | Act::VoidVoucher(_)
        | Act::Pay(_)
        | Act::Bill(_)
        | Act::Collect(_)
        | Act::Receive(_)
        | Act::WriteOff(_)
        | Act::Asset(_)
        | Act::Issue(_)
        | Act::PayDue(_)
        | Act::Leave(_)
        | Act::Interfund(_)
        | Act::Close(_)
        | Act::Lease(_) => 0,
    }
}

/// What entries bill on a source by claims.
fn claimed(source: u16, entries: &[Entry]) -> u128
    ensures { result ≡ spec.claimed source entries.now }
{
    let mut sum = 0;
    for entry in entries {
        sum += u128::from(billed(source, &entry.change));
    }
    sum
}

/// What is left of a grant's award, in cents.
pub fn left_of(grant: &Grant, entries: &[Entry]) -> u64
    ensures { result ≡ spec.left_of grant.now entries.now }
{
    u128::from(grant.award).saturating_sub(claimed(grant.source, entries)) as u64
}
