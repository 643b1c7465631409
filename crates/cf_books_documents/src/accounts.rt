//! The account and the amount of a document's items.

ghost use Rattle.std.specs.Prelude.{◌≡◌, ◌==◌, pos, sum_by};
ghost use Rattle.std.specs.List.{list_all};
ghost use Rattle.cf_books_documents.specs.Accounts as spec;

use crate::facts::Account;
use cf_calls::items::{AccountItem, VoucherItem};

/// What has an account.
pub trait Accounted {
    ghost use Rattle.cf_calls.specs.declared.items.AccountItem.{AccountItem as AnAccount};

    ghost account: { Self → AnAccount };

    fn account(&self) -> AccountItem
        ensures { result ≡ account self.now };
}

impl Accounted for AccountItem {
    ghost account = { λ i. i };

    fn account(&self) -> AccountItem {
        *self
    }
}

impl Accounted for VoucherItem {
    ghost account = { λ i. i.account };

    fn account(&self) -> AccountItem {
        self.account
    }
}

/// A part of an account.
#[derive(Clone, Copy)]
enum Part {
    Fund,
    Dept,
    Object,
}

fn part_of(part: Part, account: AccountItem) -> u16
    ensures { result ≡ spec.part_of part account }
{
    match part {
        Part::Fund => account.fund,
        Part::Dept => account.dept,
        Part::Object => account.object,
    }
}

/// Whether the accounts of all items have this part.
fn all_have<T: Accounted>(items: &[T], part: Part, id: u16) -> bool
    ensures { result ≡ list_all (λ i. spec.part_of part (T.account i) == id) items.now }
{
    items.iter().all(|item| part_of(part, item.account()) == id)
}

/// The part that the accounts of all items have, where they have one.
fn shared<T: Accounted>(items: &[T], part: Part) -> Option<u16>
    ensures { result ≡ spec.shared (λ i. spec.part_of part (T.account i)) items.now }
{
    let id = part_of(part, items.get(0)?.account());
    if all_have(items, part, id) {
        Some(id)
    } else {
        None
    }
}

/// What the accounts of all items have in common.
pub fn common<T: Accounted>(items: &[T]) -> Account
    ensures { result ≡ spec.common T.account items.now }
{
    Account {
        fund: shared(items, Part::Fund),
        dept: shared(items, Part::Dept),
        object: shared(items, Part::Object),
    }
}

/// An account alone.
pub fn alone(account: AccountItem) -> Account
    ensures { result ≡ spec.alone account }
{
    Account {
        fund: Some(account.fund),
        dept: Some(account.dept),
        object: Some(account.object),
    }
}

/// A fund alone.
pub fn of_fund(fund: u16) -> Account
    ensures { result ≡ spec.of_fund fund }
{
    Account {
        fund: Some(fund),
        dept: None,
        object: None,
    }
}

/// The sum of the items' amounts.
pub fn total(items: &[AccountItem]) -> i128
    ensures { result ≡ pos (sum_by (λ i. i.amount) items.now) }
{
    let mut total: u128 = 0;
    for item in items {
        total += u128::from(item.amount);
    }
    total as i128
}
