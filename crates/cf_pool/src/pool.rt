//! The receipts of a month's interest.
ghost use Rattle.std.specs.Prelude.{◌≡◌, ◌<◌, ◌≤◌, ◌^◌, ◌++◌, true, List, IfOk, OnOk, length, sum, string_bytes, option_copied};
ghost use Rattle.std.specs.List.{list_all};
ghost use Rattle.cf_base.specs.Common.{is_call_month, last_year, AreShares};
ghost use Rattle.cf_base.specs.declared.calendar.Month.{Month};
ghost use Rattle.cf_chart.specs.Common.{Plan};
ghost use Rattle.cf_json_members.specs.Parts.{is_plain};
ghost use Rattle.cf_pool.specs.Keys.{pieces};
ghost use Rattle.cf_pool.specs.Balances.{sizes};
ghost use Rattle.cf_pool.specs.declared.days.CashMove.{CashMove};
ghost use Rattle.cf_pool.specs.Shares as spec;
ghost use Rattle.cf_pool.specs.Shares.{PoolAnswers};

use crate::days::CashMove;
use crate::refused::PoolRefused;
use crate::weights::{interest_source, narrow, total, weights};
use cf_base::{Day, Month, share_out};
use cf_calls::items::SourceAmount;
use cf_chart::{Chart, Fund, RevenueSource};
use cf_json_lines::put_receipt;
use jiff_core::civil::days_in_month;
use std::alloc::{AllocError, Global};

/// Whether weights of this sum share nothing.
fn has_no_share(all: u128) -> bool
    ensures { result ≡ spec.has_no_share all }
{
    all == 0 || all > u128::from(u64::MAX)
}

/// The shares of an amount by weights whose sum fits 64 bits.
fn shares_of(alloc: Global, amount: u64, weights: &[u128]) -> Result<Vec<u64>, AllocError>
    requires some { 0 < sum weights.now }
    requires fits { sum weights.now < 2 ^ 64 }
    ensures { IfOk result (λ v. AreShares amount weights.now v.items) }
{
    let weights = narrow(alloc, weights)?;
    let mut shares = vec![in alloc; 0; weights.len()]?;
    share_out(amount, weights.as_slice(), shares.as_mut_slice());
    Ok(shares)
}

/// The shares of an amount by the weights of funds. They come to the amount, and a fund without a
/// weight has none.
fn fund_shares(alloc: Global, amount: u64, weights: &[u128]) -> Result<Vec<u64>, AllocError>
    requires some { 0 < sum weights.now }
    requires fits { sum weights.now < 2 ^ 64 }
    ensures fair { IfOk result (λ v. AreShares amount weights.now v.items) }
    ensures whole { (plan : Plan) (moves : List CashMove) (month : Month)
        → weights.now ≡ spec.weights plan moves month
        → IfOk result (λ v. spec.received plan.sources plan.funds v.items ≡ amount) }
{
    shares_of(alloc, amount, weights)
}

/// The pieces of the key of a fund's receipt of a month, in decimal.
fn key_pieces(alloc: Global, month: Month, fund: u16) -> Result<String, AllocError>
    ensures { IfOk result (λ t. string_bytes t ≡ pieces month fund) }
{
    let (year, number) = (month.year, month.month);
    let (thousands, hundreds) = (year / 1000 % 10, year / 100 % 10);
    let (tens, ones) = (year / 10 % 10, year % 10);
    format!(in alloc;
        "pool-{thousands}{hundreds}{tens}{ones}-{}{}-{fund}",
        number / 10 % 10,
        number % 10
    )
}

/// The key of a fund's receipt of a month.
fn pool_key(alloc: Global, month: Month, fund: u16) -> Result<String, AllocError>
    ensures value { IfOk result (λ t. string_bytes t ≡ spec.pool_key month fund) }
    ensures plain { list_all is_plain (spec.pool_key month fund) ≡ true }
{
    key_pieces(alloc, month, fund)
}

fn last_day(month: Month) -> Day
    requires { month.year ≤ last_year }
    ensures { result ≡ spec.last_day month }
{
    Day {
        year: month.year,
        month: month.month,
        day: days_in_month(month.year as i16, month.month),
    }
}

/// Appends the receipt of a fund's share, where it has one.
fn put_share(
    alloc: Global,
    out: &mut Vec<u8>,
    desk: u16,
    month: Month,
    source: Option<&RevenueSource>,
    fund: u16,
    share: u64,
) -> Result<(), AllocError>
    requires { month.year ≤ last_year }
    ensures { OnOk result
        (out.new.items ≡ out.old.items
        ++ spec.share_line desk month fund share (option_copied source.entry)) }
{
    let Some(source) = source else {
        return Ok(());
    };
    if share == 0 {
        return Ok(());
    }
    let key = pool_key(alloc, month, fund)?;
    let receipt = SourceAmount {
        source: source.id,
        amount: share,
    };
    put_receipt(out, desk, key.as_str(), last_day(month), receipt)
}

/// Appends the receipts of the funds, each with its share.
fn put_shares(
    alloc: Global,
    out: &mut Vec<u8>,
    desk: u16,
    month: Month,
    sources: &[RevenueSource],
    funds: &[Fund],
    shares: &[u64],
) -> Result<(), AllocError>
    requires year { month.year ≤ last_year }
    requires each { length shares.now ≡ length funds.now }
    ensures { OnOk result
        (out.new.items ≡ out.old.items
        ++ spec.share_lines desk month sources.now funds.now shares.now) }
{
    for i in 0..funds.len() {
        let fund = funds[i].id;
        let source = interest_source(sources, fund);
        put_share(alloc, out, desk, month, source, fund, shares[i])?;
    }
    Ok(())
}

/// Appends the receipts by which a desk shares a month's interest, 1 to 10^13 cents, among the
/// funds by their daily balances: one line for each fund by id with a share. It is refused, and
/// nothing is appended, exactly where the weights come to nothing or to more than 2^64 - 1. Where
/// there is no memory a part of the lines may be appended. Each movement is read once.
#[tactic(auto, using(crate::proofs::Months::call_month_year))]
pub fn pool_lines(
    alloc: Global,
    chart: &Chart,
    moves: &[CashMove],
    month: Month,
    amount: u64,
    desk: u16,
    out: &mut Vec<u8>,
) -> Result<(), PoolRefused>
    requires month { is_call_month month ≡ true }
    requires few { sizes moves.now < 2 ^ 120 }
    ensures { PoolAnswers chart.now moves.now month amount desk out.old.items out.new.items result }
{
    let weights = weights(alloc, chart, moves, month)?;
    let all = total(weights.as_slice());
    if has_no_share(all) {
        return Err(PoolRefused::NoShare { sum: all as i128 });
    }
    let shares = fund_shares(alloc, amount, weights.as_slice())?;
    put_shares(
        alloc,
        out,
        desk,
        month,
        chart.sources(),
        chart.funds(),
        shares.as_slice(),
    )?;
    Ok(())
}
