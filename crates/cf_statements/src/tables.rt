//! Tables of accounts: the rows of a statement that they make, and what they come to.
ghost use Rattle.std.specs.Prelude.{◌≡◌, ◌<◌, ◌≤◌, ◌^◌, ◌*◌, ◌++◌, OnOk, length, unsigned_abs};
ghost use Rattle.cf_statements.specs.Tables as spec;
ghost use Rattle.cf_statements.specs.Tables.{rows_of, total_of};

use crate::figures::{Figures, in_year};
use crate::rows::put_single;
use cf_calls::Row;
use std::alloc::{AllocError, Global};

/// On which side the balance of an account usually is.
#[derive(Clone, Copy)]
pub(crate) enum Side {
    /// It is shown as it stands.
    Debit,
    /// It is shown with its sign turned.
    Credit,
}

/// A row of a table: the side of an account, what its row is called, and its code.
#[derive(Clone, Copy)]
pub(crate) struct AccountRow(pub(crate) Side, pub(crate) &'static str, pub(crate) u32);

/// Which balances of its accounts a table is of.
#[derive(Clone, Copy)]
pub(crate) enum Balances {
    /// A fund's, through the year (modified accrual basis).
    Fund { fund: u16 },
    /// A fund's, of the posts of the year alone.
    FundInYear { fund: u16 },
    /// Government-wide, through the year (accrual basis).
    Gov,
}

/// The balance of an account, in cents, debits positive.
fn balance<F: Figures>(figures: &F, year: u16, of: Balances, account: u32) -> i128
    requires { 1 ≤ year }
    ensures value { result ≡ spec.balance (F.sums figures.now) year of account }
    ensures small { unsigned_abs result < 2 ^ 105 }
{
    match of {
        Balances::Fund { fund } => figures.through(year, fund, account),
        Balances::FundInYear { fund } => in_year(figures, year, fund, account),
        Balances::Gov => figures.gov(year, account),
    }
}

fn shown(side: Side, balance: i128) -> i128
    requires { unsigned_abs balance < 2 ^ 105 }
    ensures { result ≡ spec.shown side balance }
{
    match side {
        Side::Debit => balance,
        Side::Credit => -balance,
    }
}

/// Adds a row of each account of a table.
pub(crate) fn put_table<F: Figures>(
    alloc: Global,
    rows: &mut Vec<Row>,
    figures: &F,
    year: u16,
    of: Balances,
    table: &[AccountRow],
) -> Result<(), AllocError>
    requires { 1 ≤ year }
    ensures { OnOk result
        (rows.new.items ≡ rows.old.items
        ++ rows_of (spec.balance (F.sums figures.now) year of) table.now) }
{
    for row in table {
        let AccountRow(side, label, account) = *row;
        let amount = shown(side, balance(figures, year, of, account));
        put_single(alloc, rows, label, amount)?;
    }
    Ok(())
}

/// What the accounts of a table come to, in cents, debits positive.
pub(crate) fn table_total<F: Figures>(
    figures: &F,
    year: u16,
    of: Balances,
    table: &[AccountRow],
) -> i128
    requires year { 1 ≤ year }
    requires few { length table.now ≤ 64 }
    ensures value { result ≡ total_of (spec.balance (F.sums figures.now) year of) table.now }
    ensures small { unsigned_abs result ≤ length table.now * 2 ^ 105 }
{
    let mut total = 0;
    for row in table {
        let AccountRow(_, _, account) = *row;
        total += balance(figures, year, of, account);
    }
    total
}
