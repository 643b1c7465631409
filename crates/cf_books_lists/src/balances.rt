//! The trial balance of a fiscal year.

ghost use Rattle.std.specs.Prelude.{◌≡◌, ℕ, List, Ok, IfOk, OnOk};
ghost use Rattle.cf_model.specs.Common.{balance_of};
ghost use Rattle.cf_model_articulation.specs.TrialBalances.{Balances};
ghost use Rattle.cf_books_lists.specs.Balances as spec;
ghost use Rattle.cf_books_lists.specs.Records.{head_text, record_text};
ghost use Rattle.cf_books_lists.specs.Rows.{added};
ghost use Rattle.cf_chart.specs.Common.{Plan, chart_of};

use crate::accounts::{fund_accounts, gov_accounts};
use crate::names::{account_text, basis_word, fund_name};
use crate::rows::{Layout, Rows};
use crate::texts::decimal_text;
use cf_base::money_text;
use cf_calls::Basis;
use cf_chart::{Chart, Fund};
use cf_office::Rest;
use std::alloc::{AllocError, Global};

/// The balances of a city's accounts, of which a trial balance is made.
pub trait AccountBalances {
    ghost plan: { Self → Plan };

    ghost balances: { Self → spec.OfAccounts };

    /// The chart of the accounts.
    fn account_chart(&self) -> &Chart
        ensures { result.now ≡ plan self.now };

    /// The balance of an account of a fund through a fiscal year, in cents, debits above zero.
    /// Government-wide accounts are of fund 0.
    fn account_balance(&self, basis: Basis, year: u16, fund: u16, account: u32) -> i128
        ensures { result ≡ balances self.now basis year fund account };
}

/// Writes the record of a balance.
fn put_balance(
    alloc: Global,
    out: &mut Rows,
    chart: &Chart,
    basis: Basis,
    fund: u16,
    account: u32,
    balance: i128,
) -> Result<(), AllocError>
    ensures { OnOk result (out.new
        ≡ added out.old (record_text out.old.csv
        (spec.balance_row chart.now basis fund account balance))) }
{
    let word = Vec::from_slice(alloc, basis_word(basis).as_bytes())?;
    let id = decimal_text(alloc, fund as u64)?;
    let code = decimal_text(alloc, account as u64)?;
    let name = account_text(alloc, chart, account)?;
    let amount = money_text(alloc, balance)?;
    let fields = [
        word.as_slice(),
        id.as_slice(),
        fund_name(chart.fund(fund)).as_bytes(),
        code.as_slice(),
        name.as_slice(),
        amount.as_str().as_bytes(),
    ];
    out.put(fields.as_slice())
}

/// Writes the record of a balance that isn't zero.
pub fn put_balance_unless_zero(
    alloc: Global,
    out: &mut Rows,
    chart: &Chart,
    basis: Basis,
    fund: u16,
    account: u32,
    balance: i128,
) -> Result<(), AllocError>
    ensures { OnOk result (out.new
        ≡ added out.old (spec.balance_text out.old.csv chart.now basis fund account balance)) }
{
    if balance == 0 {
        return Ok(());
    }
    put_balance(alloc, out, chart, basis, fund, account, balance)
}

/// Writes the record of an account's balance through a fiscal year, where it isn't zero.
fn put_account<B: AccountBalances>(
    alloc: Global,
    out: &mut Rows,
    books: &B,
    basis: Basis,
    year: u16,
    fund: u16,
    account: u32,
) -> Result<(), AllocError>
    ensures { OnOk result (out.new
        ≡ added out.old (spec.account_text out.old.csv (B.plan books.now) (B.balances books.now)
        basis year fund account)) }
{
    let balance = books.account_balance(basis, year, fund, account);
    put_balance_unless_zero(
        alloc,
        out,
        books.account_chart(),
        basis,
        fund,
        account,
        balance,
    )
}

/// Writes the balances of these accounts through a fiscal year.
fn put_accounts<B: AccountBalances>(
    alloc: Global,
    out: &mut Rows,
    books: &B,
    basis: Basis,
    year: u16,
    fund: u16,
    accounts: &[u32],
) -> Result<(), AllocError>
    ensures { OnOk result (out.new
        ≡ added out.old (spec.accounts_text out.old.csv (B.plan books.now) (B.balances books.now)
        basis year fund accounts.now)) }
{
    for account in accounts {
        put_account(alloc, out, books, basis, year, fund, *account)?;
    }
    Ok(())
}

/// Writes the balances of a fund's accounts.
fn put_fund<B: AccountBalances>(
    alloc: Global,
    out: &mut Rows,
    books: &B,
    year: u16,
    fund: u16,
) -> Result<(), AllocError>
    ensures { OnOk result (out.new
        ≡ added out.old (spec.fund_text out.old.csv (B.plan books.now) (B.balances books.now) year
        fund)) }
{
    let accounts = fund_accounts(alloc, books.account_chart(), fund)?;
    let codes = accounts.as_slice();
    put_accounts(alloc, out, books, Basis::Fund, year, fund, codes)
}

/// Writes the balances of these funds' accounts.
fn put_funds<B: AccountBalances>(
    alloc: Global,
    out: &mut Rows,
    books: &B,
    year: u16,
    funds: &[Fund],
) -> Result<(), AllocError>
    ensures { OnOk result (out.new
        ≡ added out.old (spec.funds_text out.old.csv (B.plan books.now) (B.balances books.now) year
        funds.now)) }
{
    for fund in funds {
        put_fund(alloc, out, books, year, fund.id)?;
    }
    Ok(())
}

/// Writes the names of the columns of a trial balance.
pub fn put_balance_head(out: &mut Rows) -> Result<(), AllocError>
    ensures { OnOk result (out.new ≡ added out.old (head_text out.old.csv spec.head)) }
{
    let names: [&[u8]; 6] = [
        b"basis",
        b"fund",
        b"fund_name",
        b"account",
        b"account_name",
        b"balance",
    ];
    out.put_names(names.as_slice())
}

/// The trial balance of a fiscal year: the balances of all accounts that aren't zero, below the
/// names of the columns. Those of each fund on the fund basis come first, and then those of the
/// city as a whole on the government-wide one, whose fund is 0 (GASB Statement 34). It fails
/// exactly for want of memory.
pub fn trial_balance_text<B: AccountBalances>(
    layout: Layout,
    books: &B,
    year: u16,
) -> Result<Vec<u8>, AllocError>
    ensures { IfOk result (λ v. v.items ≡ spec.trial_balance layout.csv year (B.plan books.now)
        (B.balances books.now)) }
{
    let mut out = Rows::new(layout);
    put_balance_head(&mut out)?;
    put_funds(
        layout.alloc,
        &mut out,
        books,
        year,
        books.account_chart().funds(),
    )?;
    let accounts = gov_accounts(layout.alloc, books.account_chart())?;
    let codes = accounts.as_slice();
    put_accounts(layout.alloc, &mut out, books, Basis::Gov, year, 0, codes)?;
    out.into_text()
}

impl AccountBalances for Rest {
    ghost plan = { λ r. r.plan };

    ghost balances = { λ r basis year fund account.
        balance_of basis r.plan year fund account r.entries };

    fn account_chart(&self) -> &Chart {
        self.chart()
    }

    fn account_balance(&self, basis: Basis, year: u16, fund: u16, account: u32) -> i128 {
        self.balance(basis, year, fund, account)
    }
}

/// The balances of accounts through a fiscal year that aren't zero: those of each fund on the fund
/// basis, and then those of the city as a whole on the government-wide one, whose fund is 0. They
/// are those of the look `account`, debits above zero, in units of money. On the fund basis those
/// of a fund sum to zero, and on the other those of the city, under any chart that was read (GASB
/// Statement 34: each entry balances).
pub fn balances_text(layout: Layout, rest: &Rest, year: u16) -> Result<Vec<u8>, AllocError>
    ensures text { IfOk result (λ v. v.items ≡ spec.balances_of layout.csv year rest.now.plan
        rest.now.entries) }
    ensures zero { (bytes : List ℕ) → chart_of bytes ≡ Ok rest.now.plan
        → Balances rest.now.plan rest.now.entries year }
{
    // So that the proof knows that the history is legal.
    let _legal = rest.entries();
    trial_balance_text(layout, rest, year)
}
