//! The accounts of a trial balance, in the order of the statements.

ghost use Rattle.std.specs.Prelude.{◌≡◌, ◌==◌, ◌++◌, map, IfOk, OnOk};
ghost use Rattle.std.specs.List.{filter};
ghost use Rattle.cf_model_articulation.specs.TrialBalances as spec;
ghost use Rattle.cf_post.specs.Accounts as codes;

use cf_chart::{Chart, Function, RevenueSource};
use cf_post::accounts as account;
use std::alloc::{AllocError, Global};

/// Appends the accounts of a fund's revenues.
fn put_fund_sources(
    out: &mut Vec<u32>,
    sources: &[RevenueSource],
    fund: u16,
) -> Result<(), AllocError>
    ensures { OnOk result (out.new.items ≡ out.old.items
        ++ map (λ s. codes.revenue_of s.id) (filter (λ s. s.fund == fund) sources.now)) }
{
    for source in sources {
        if source.fund == fund {
            out.push(account::revenue_of(source.id))?;
        }
    }
    Ok(())
}

/// Appends the accounts of all revenues.
fn put_sources(out: &mut Vec<u32>, sources: &[RevenueSource]) -> Result<(), AllocError>
    ensures { OnOk result (out.new.items ≡ out.old.items
        ++ map (λ s. codes.revenue_of s.id) sources.now) }
{
    for source in sources {
        out.push(account::revenue_of(source.id))?;
    }
    Ok(())
}

/// Appends the accounts of the functions' expenditures, or expenses.
fn put_functions(out: &mut Vec<u32>, functions: &[Function]) -> Result<(), AllocError>
    ensures { OnOk result (out.new.items ≡ out.old.items
        ++ map (λ f. codes.current_of f.id) functions.now) }
{
    for function in functions {
        out.push(account::current_of(function.id))?;
    }
    Ok(())
}

/// Appends the accounts of gifts to the functions.
fn put_gifts(out: &mut Vec<u32>, functions: &[Function]) -> Result<(), AllocError>
    ensures { OnOk result (out.new.items ≡ out.old.items
        ++ map (λ f. codes.donated_to f.id) functions.now) }
{
    for function in functions {
        out.push(account::donated_to(function.id))?;
    }
    Ok(())
}

/// The accounts of a fund, on the fund basis.
pub fn fund_accounts(alloc: Global, chart: &Chart, fund: u16) -> Result<Vec<u32>, AllocError>
    ensures { IfOk result (λ v. v.items ≡ spec.fund_accounts chart.now fund) }
{
    let mut accounts = Vec::from_slice(
        alloc,
        &[
            account::CASH,
            account::RECEIVABLES,
            account::DUE_FROM_FUNDS,
            account::PAYABLES,
            account::DEBT_DUE,
            account::DUE_TO_FUNDS,
            account::UNAVAILABLE,
        ],
    )?;
    put_fund_sources(&mut accounts, chart.sources(), fund)?;
    put_functions(&mut accounts, chart.functions())?;
    accounts.extend_from_slice(&[
        account::CAPITAL_OUTLAY,
        account::PRINCIPAL,
        account::INTEREST,
        account::TRANSFERS_IN,
        account::TRANSFERS_OUT,
        account::PROCEEDS,
        account::ASSET_SALES,
        account::LEASES_ISSUED,
    ])?;
    Ok(accounts)
}

/// The accounts of the city as a whole, on the government-wide basis.
pub fn gov_accounts(alloc: Global, chart: &Chart) -> Result<Vec<u32>, AllocError>
    ensures { IfOk result (λ v. v.items ≡ spec.gov_accounts chart.now) }
{
    let mut accounts = Vec::from_slice(
        alloc,
        &[
            account::CASH,
            account::RECEIVABLES,
            account::CAPITAL_ASSETS,
            account::DEPRECIATION,
            account::RIGHT_TO_USE,
            account::AMORTIZATION,
            account::PAYABLES,
            account::DEBT_DUE,
            account::BONDS,
            account::LEASES,
            account::ACCRUED,
            account::LEAVE,
        ],
    )?;
    put_sources(&mut accounts, chart.sources())?;
    put_functions(&mut accounts, chart.functions())?;
    put_gifts(&mut accounts, chart.functions())?;
    accounts.extend_from_slice(&[account::INTEREST, account::GAIN])?;
    Ok(accounts)
}
