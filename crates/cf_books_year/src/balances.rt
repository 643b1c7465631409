//! The trial balance of a fiscal year alone.

ghost use Rattle.std.specs.Prelude.{◌≡◌, ◌≤◌, ℕ, List, Ok, length, IfOk, OnOk};
ghost use Rattle.cf_model_articulation.specs.TrialBalances.{fund_accounts as accounts_of_fund, gov_accounts as accounts_of_gov};
ghost use Rattle.cf_books_lists.specs.Records.{record_text};
ghost use Rattle.cf_books_lists.specs.Rows.{added};
ghost use Rattle.cf_books_year.specs.YearBalances as spec;
ghost use Rattle.cf_books_year.specs.YearBalances.{YearBalances};
ghost use Rattle.cf_model.specs.Common.{Gov as OnGov};
ghost use Rattle.cf_calls.specs.declared.read.Basis.TheVariants.{Fund as OnFund};
ghost use Rattle.cf_chart.specs.Common.{chart_of};

use crate::sums::{goes_on, opening, year_balance};
use cf_base::money_text;
use cf_books_lists::{
    Layout, Rows, basis_word, decimal_text, fund_accounts, fund_name, gov_accounts,
    put_balance_head, put_balance_unless_zero,
};
use cf_calls::Basis;
use cf_chart::{Chart, Fund};
use cf_office::Rest;
use std::alloc::{AllocError, Global};

/// Writes the record of an account's balance in a fiscal year, where it isn't zero.
fn put_account(
    alloc: Global,
    out: &mut Rows,
    rest: &Rest,
    basis: Basis,
    year: u16,
    fund: u16,
    account: u32,
) -> Result<(), AllocError>
    ensures { OnOk result (out.new
        ≡ added out.old (spec.account_text out.old.csv rest.now.plan rest.now.entries basis year
        fund account)) }
{
    let balance = year_balance(rest, basis, year, fund, account);
    put_balance_unless_zero(alloc, out, rest.chart(), basis, fund, account, balance)
}

/// Writes the balance of an account that goes on.
fn put_if_kept(
    alloc: Global,
    out: &mut Rows,
    rest: &Rest,
    basis: Basis,
    year: u16,
    fund: u16,
    account: u32,
) -> Result<(), AllocError>
    ensures { OnOk result (out.new
        ≡ added out.old (spec.kept_row out.old.csv rest.now.plan rest.now.entries basis year fund
        account)) }
{
    if goes_on(account) {
        put_account(alloc, out, rest, basis, year, fund, account)
    } else {
        Ok(())
    }
}

/// Writes the balances of those of these accounts that go on.
fn put_kept(
    alloc: Global,
    out: &mut Rows,
    rest: &Rest,
    basis: Basis,
    year: u16,
    fund: u16,
    accounts: &[u32],
) -> Result<(), AllocError>
    ensures { OnOk result (out.new
        ≡ added out.old (spec.kept_text out.old.csv rest.now.plan rest.now.entries basis year fund
        accounts.now)) }
{
    for account in accounts {
        put_if_kept(alloc, out, rest, basis, year, fund, *account)?;
    }
    Ok(())
}

/// Writes the balance of another account.
fn put_if_changed(
    alloc: Global,
    out: &mut Rows,
    rest: &Rest,
    basis: Basis,
    year: u16,
    fund: u16,
    account: u32,
) -> Result<(), AllocError>
    ensures { OnOk result (out.new
        ≡ added out.old (spec.changed_row out.old.csv rest.now.plan rest.now.entries basis year fund
        account)) }
{
    if goes_on(account) {
        Ok(())
    } else {
        put_account(alloc, out, rest, basis, year, fund, account)
    }
}

/// Writes the balances of the others of these accounts.
fn put_changed(
    alloc: Global,
    out: &mut Rows,
    rest: &Rest,
    basis: Basis,
    year: u16,
    fund: u16,
    accounts: &[u32],
) -> Result<(), AllocError>
    ensures { OnOk result (out.new
        ≡ added out.old (spec.changed_text out.old.csv rest.now.plan rest.now.entries basis year
        fund accounts.now)) }
{
    for account in accounts {
        put_if_changed(alloc, out, rest, basis, year, fund, *account)?;
    }
    Ok(())
}

/// The name of what a fiscal year begins with.
fn opening_name(basis: Basis) -> &'static str
    ensures { result.now ≡ spec.opening_name basis }
{
    match basis {
        Basis::Fund => "Opening fund balance",
        Basis::Gov => "Opening net position",
    }
}

/// Writes the record of what a fiscal year begins with.
fn put_opening(
    alloc: Global,
    out: &mut Rows,
    chart: &Chart,
    basis: Basis,
    fund: u16,
    amount: i128,
) -> Result<(), AllocError>
    ensures { OnOk result (out.new
        ≡ added out.old (record_text out.old.csv (spec.opening_row chart.now basis fund amount))) }
{
    let word = Vec::from_slice(alloc, basis_word(basis).as_bytes())?;
    let id = decimal_text(alloc, fund as u64)?;
    let code = decimal_text(alloc, 300_000)?;
    let name = Vec::from_slice(alloc, opening_name(basis).as_bytes())?;
    let text = money_text(alloc, amount)?;
    let fields = [
        word.as_slice(),
        id.as_slice(),
        fund_name(chart.fund(fund)).as_bytes(),
        code.as_slice(),
        name.as_slice(),
        text.as_str().as_bytes(),
    ];
    out.put(fields.as_slice())
}

/// The same, where it isn't zero.
fn put_opening_unless_zero(
    alloc: Global,
    out: &mut Rows,
    chart: &Chart,
    basis: Basis,
    fund: u16,
    amount: i128,
) -> Result<(), AllocError>
    ensures { OnOk result (out.new
        ≡ added out.old (spec.opening_text out.old.csv chart.now basis fund amount)) }
{
    if amount == 0 {
        return Ok(());
    }
    put_opening(alloc, out, chart, basis, fund, amount)
}

/// Writes the balances of these accounts, with what the fiscal year begins with.
fn put_section(
    alloc: Global,
    out: &mut Rows,
    rest: &Rest,
    basis: Basis,
    year: u16,
    fund: u16,
    accounts: &[u32],
) -> Result<(), AllocError>
    requires { length accounts.now ≤ 1024 }
    ensures { OnOk result (out.new
        ≡ added out.old (spec.section_text out.old.csv rest.now.plan rest.now.entries basis year
        fund accounts.now)) }
{
    put_kept(alloc, out, rest, basis, year, fund, accounts)?;
    let amount = opening(rest, basis, year, fund, accounts);
    put_opening_unless_zero(alloc, out, rest.chart(), basis, fund, amount)?;
    put_changed(alloc, out, rest, basis, year, fund, accounts)
}

/// Writes the balances of a fund.
fn put_fund(
    alloc: Global,
    out: &mut Rows,
    rest: &Rest,
    year: u16,
    fund: u16,
) -> Result<(), AllocError>
    ensures { OnOk result (out.new
        ≡ added out.old (spec.section_text out.old.csv rest.now.plan rest.now.entries OnFund year
        fund (accounts_of_fund rest.now.plan fund))) }
{
    let accounts = few_fund_accounts(alloc, rest.chart(), fund)?;
    put_section(
        alloc,
        out,
        rest,
        Basis::Fund,
        year,
        fund,
        accounts.as_slice(),
    )
}

/// Writes the balances of these funds.
fn put_funds(
    alloc: Global,
    out: &mut Rows,
    rest: &Rest,
    year: u16,
    funds: &[Fund],
) -> Result<(), AllocError>
    ensures { OnOk result (out.new
        ≡ added out.old (spec.funds_text out.old.csv rest.now.plan rest.now.entries year
        funds.now)) }
{
    for fund in funds {
        put_fund(alloc, out, rest, year, fund.id)?;
    }
    Ok(())
}

/// Writes the balances of the city as a whole.
fn put_whole(alloc: Global, out: &mut Rows, rest: &Rest, year: u16) -> Result<(), AllocError>
    ensures { OnOk result (out.new
        ≡ added out.old (spec.section_text out.old.csv rest.now.plan rest.now.entries OnGov year 0
        (accounts_of_gov rest.now.plan))) }
{
    let accounts = few_gov_accounts(alloc, rest.chart())?;
    put_section(alloc, out, rest, Basis::Gov, year, 0, accounts.as_slice())
}

/// The balances of all accounts, below the names of the columns.
fn all_text(layout: Layout, rest: &Rest, year: u16) -> Result<Vec<u8>, AllocError>
    ensures { IfOk result (λ v. v.items ≡ spec.year_text layout.csv year rest.now.plan
        rest.now.entries) }
{
    let mut out = Rows::new(layout);
    put_balance_head(&mut out)?;
    put_funds(layout.alloc, &mut out, rest, year, rest.chart().funds())?;
    put_whole(layout.alloc, &mut out, rest, year)?;
    out.into_text()
}

/// The trial balance of a fiscal year alone, with the columns of `balances_text`: the balances
/// through the year of accounts below 300000, those of all others in the year alone, and between
/// them what the year begins with, on the account 300000: the fund balance, or the net position,
/// through the year before, a credit below zero. Amounts of zero are left out. Those of each fund
/// sum to zero, and so do those of the city as a whole, under any chart that was read.
pub fn year_balances_text(layout: Layout, rest: &Rest, year: u16) -> Result<Vec<u8>, AllocError>
    ensures text { IfOk result (λ v. v.items ≡ spec.year_text layout.csv year rest.now.plan
        rest.now.entries) }
    ensures zero { (bytes : List ℕ) → chart_of bytes ≡ Ok rest.now.plan
        → YearBalances rest.now.plan rest.now.entries year }
{
    // So that the proof knows that the history is legal.
    let _legal = rest.entries();
    all_text(layout, rest, year)
}

/// The accounts of a fund, which are few.
fn few_fund_accounts(alloc: Global, chart: &Chart, fund: u16) -> Result<Vec<u32>, AllocError>
    ensures value { IfOk result (λ v. v.items ≡ accounts_of_fund chart.now fund) }
    ensures few { IfOk result (λ v. length v.items ≤ 1024) }
{
    // So that the proof knows how many rows the chart has.
    let _sources = chart.sources();
    let _functions = chart.functions();
    fund_accounts(alloc, chart, fund)
}

/// The accounts of the city as a whole, which are few.
fn few_gov_accounts(alloc: Global, chart: &Chart) -> Result<Vec<u32>, AllocError>
    ensures value { IfOk result (λ v. v.items ≡ accounts_of_gov chart.now) }
    ensures few { IfOk result (λ v. length v.items ≤ 1024) }
{
    // So that the proof knows how many rows the chart has.
    let _sources = chart.sources();
    let _functions = chart.functions();
    gov_accounts(alloc, chart)
}
