//! The balances of a fiscal year alone, and what it begins with.

ghost use Rattle.std.specs.Prelude.{◌≡◌, ◌≤◌, ◌<◌, ◌+◌, ◌*◌, ◌^◌, ◌+ℤ◌, length, unsigned_abs};
ghost use Rattle.cf_model.specs.Common.{balance_of};
ghost use Rattle.cf_books_year.specs.YearBalances as spec;

use cf_calls::Basis;
use cf_office::Rest;

/// Whether an account goes on from year to year.
pub fn goes_on(account: u32) -> bool
    ensures { result ≡ spec.goes_on account }
{
    account < 300_000
}

/// A balance of a legal history, which is far smaller than 128 bits allow.
fn balance(rest: &Rest, basis: Basis, year: u16, fund: u16, account: u32) -> i128
    ensures value { result ≡ balance_of basis rest.now.plan year fund account rest.now.entries }
    ensures small { unsigned_abs result < 2 ^ 104 }
{
    // So that the proof knows that the history is legal, and how long it may be.
    let _entries = rest.entries();
    rest.balance(basis, year, fund, account)
}

/// The balance of an account in a fiscal year: through the year, where the account goes on, or else
/// of the year alone.
pub fn year_balance(rest: &Rest, basis: Basis, year: u16, fund: u16, account: u32) -> i128
    ensures { result ≡ spec.year_balance basis rest.now.plan year fund rest.now.entries account }
{
    let through = balance(rest, basis, year, fund, account);
    if goes_on(account) {
        through
    } else {
        through - balance(rest, basis, year.saturating_sub(1), fund, account)
    }
}

/// The balance of an account through a fiscal year, where it goes on, and else zero.
fn kept_balance(rest: &Rest, basis: Basis, year: u16, fund: u16, account: u32) -> i128
    ensures value { result ≡ spec.kept_balance basis rest.now.plan year fund rest.now.entries
        account }
    ensures small { unsigned_abs result < 2 ^ 104 }
{
    if goes_on(account) {
        balance(rest, basis, year, fund, account)
    } else {
        0
    }
}

/// A sum of balances, in cents.
#[derive(Clone, Copy)]
struct Sum {
    cents: i128,
}

/// Adds the balance of an account through a fiscal year, where it goes on.
fn add_kept(sum: &mut Sum, rest: &Rest, basis: Basis, year: u16, fund: u16, account: u32)
    requires { unsigned_abs sum.old.cents ≤ 2 ^ 104 * 1024 }
    ensures value { sum.new.cents ≡ sum.old.cents +ℤ spec.kept_balance basis rest.now.plan year fund
        rest.now.entries account }
    ensures small { unsigned_abs sum.new.cents ≤ unsigned_abs sum.old.cents + 2 ^ 104 }
{
    sum.cents += kept_balance(rest, basis, year, fund, account);
}

/// What the accounts that go on come to through a fiscal year.
fn kept(rest: &Rest, basis: Basis, year: u16, fund: u16, accounts: &[u32]) -> i128
    requires { length accounts.now ≤ 1024 }
    ensures value { result ≡ spec.kept basis rest.now.plan year fund rest.now.entries accounts.now }
    ensures small { unsigned_abs result ≤ 2 ^ 104 * 1024 }
{
    let mut sum = Sum { cents: 0 };
    for account in accounts {
        add_kept(&mut sum, rest, basis, year, fund, *account);
    }
    sum.cents
}

/// What a fiscal year begins with, a credit below zero: the fund balance of a fund, or the net
/// position.
pub fn opening(rest: &Rest, basis: Basis, year: u16, fund: u16, accounts: &[u32]) -> i128
    requires { length accounts.now ≤ 1024 }
    ensures { result ≡ spec.opening basis rest.now.plan year fund rest.now.entries accounts.now }
{
    0 - kept(rest, basis, year.saturating_sub(1), fund, accounts)
}
