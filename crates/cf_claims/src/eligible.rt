//! What of vouchers is eligible, and the grantor's share of it.

ghost use Rattle.std.specs.Prelude.{◌≡◌, ◌≤◌, ◌<◌, ◌^◌, min, true, sum_by};
ghost use Rattle.cf_base.specs.Common.{is_day};
ghost use Rattle.cf_claims.specs.Claims as spec;
ghost use Rattle.cf_claims.specs.Kept.{IsReadable};

use cf_base::{fiscal_year, month_of};
use cf_calls::items::VoucherItem;
use cf_calls::{Act, Entry};
use cf_chart::Chart;

/// The fiscal year of a voucher.
pub fn voucher_year(chart: &Chart, entry: &Entry) -> u16
    requires { is_day entry.now.change.on ≡ true }
    ensures { result ≡ spec.voucher_year chart.now entry.now }
{
    let year = fiscal_year(chart.first_month(), month_of(entry.change.on));
    if entry.change.act.is_back() {
        year.saturating_sub(1)
    } else {
        year
    }
}

fn is_among(lines: &[u16], number: Option<u16>) -> bool
    ensures { result ≡ spec.is_among lines.now number }
{
    match number {
        Some(number) => lines.contains(&number),
        None => false,
    }
}

/// What of an item of a voucher of a fiscal year is eligible.
fn eligible_item(chart: &Chart, lines: &[u16], year: u16, item: &VoucherItem) -> u64
    ensures value { result ≡ spec.eligible_item chart.now lines.now year item.now }
    ensures part { result ≤ item.now.account.amount }
{
    let account = item.account;
    let number = match chart.line_of(account.fund, account.dept, account.object, year) {
        Some(line) => Some(line.number),
        None => None,
    };
    if is_among(lines, number) {
        account.amount
    } else {
        0
    }
}

/// What of items of a voucher of a fiscal year is eligible.
fn eligible_sum(chart: &Chart, lines: &[u16], year: u16, items: &[VoucherItem]) -> u64
    requires { sum_by (λ i. i.account.amount) items.now < 2 ^ 64 }
    ensures { result ≡ sum_by (spec.eligible_item chart.now lines.now year) items.now }
{
    let mut sum = 0;
    for item in items {
        sum += eligible_item(chart, lines, year, item);
    }
    sum
}

/// What of an entry's voucher is eligible, in cents.
pub fn eligible(chart: &Chart, lines: &[u16], entry: &Entry) -> u64
    requires { IsReadable entry.now }
    ensures { result ≡ spec.eligible chart.now lines.now entry.now }
{
    let year = voucher_year(chart, entry);
    match &entry.change.act {
        Act::Voucher(voucher) => eligible_sum(chart, lines, year, voucher.items.as_slice()),
        Act::Adopt(_)
        | Act::Amend(_)
        | Act::Transfer(_)
        | Act::Requisition(_)
        | Act::Withdraw(_)
        | Act::Order(_)
        | Act::ChangeOrder(_)
        | Act::CancelOrder(_)
        | Act::VoidVoucher(_)
        | Act::Pay(_)
        | Act::Bill(_)
        | Act::Collect(_)
        | Act::Receive(_)
        | Act::WriteOff(_)
        | Act::Asset(_)
        | Act::Issue(_)
        | Act::PayDue(_)
        | Act::Leave(_)
        | Act::Interfund(_)
        | Act::Close(_)
        | Act::Lease(_) => 0,
    }
}

/// The grantor's share of a sum, at most what is left.
pub fn share_within(rate_bp: u16, sum: u64, left: u64) -> u64
    ensures { result ≡ min (spec.share_of rate_bp sum) left }
{
    let share = u128::from(sum) * u128::from(rate_bp) / 10_000;
    share.min(u128::from(left)) as u64
}
