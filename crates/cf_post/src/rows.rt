//! Posts that stand together.

ghost use Rattle.std.specs.Prelude.{◌≡◌, ◌<◌, ◌^◌, ◌++◌, ◌∷◌, [], OnOk};
ghost use Rattle.cf_post.specs.Rows as spec;
ghost use Rattle.cf_post.specs.Rows.{without_zeros};

use cf_ledger::Post;
use std::alloc::AllocError;

/// Where posts go.
#[derive(Clone, Copy)]
pub struct FundYear {
    pub year: u16,
    pub fund: u16,
}

/// A fiscal year of a fund.
pub fn at(year: u16, fund: u16) -> FundYear
    ensures { result ≡ record { year = year; fund = fund } }
{
    FundYear { year, fund }
}

/// A fiscal year of the city as a whole.
pub fn city(year: u16) -> FundYear
    ensures { result ≡ record { year = year; fund = 0 } }
{
    FundYear { year, fund: 0 }
}

/// Adds a post at the end, but for one of zero.
fn put(posts: &mut Vec<Post>, at: FundYear, account: u32, amount: i128) -> Result<(), AllocError>
    ensures { OnOk result
        (posts.new.items ≡ posts.old.items
        ++ without_zeros (spec.post at.year at.fund account amount ∷ [])) }
{
    if amount != 0 {
        posts.push(Post {
            year: at.year,
            fund: at.fund,
            account,
            amount,
        })?;
    }
    Ok(())
}

/// Adds a debit, but for one of zero.
pub fn debit(
    posts: &mut Vec<Post>,
    at: FundYear,
    account: u32,
    amount: u128,
) -> Result<(), AllocError>
    requires { amount < 2 ^ 127 }
    ensures { OnOk result
        (posts.new.items ≡ posts.old.items
        ++ without_zeros (spec.debit at.year at.fund account amount ∷ [])) }
{
    put(posts, at, account, amount as i128)
}

/// Adds a credit, but for one of zero.
pub fn credit(
    posts: &mut Vec<Post>,
    at: FundYear,
    account: u32,
    amount: u128,
) -> Result<(), AllocError>
    requires { amount < 2 ^ 127 }
    ensures { OnOk result
        (posts.new.items ≡ posts.old.items
        ++ without_zeros (spec.credit at.year at.fund account amount ∷ [])) }
{
    put(posts, at, account, -(amount as i128))
}

/// Adds a debit of one account and a credit of another.
pub fn double(
    posts: &mut Vec<Post>,
    at: FundYear,
    debited: u32,
    credited: u32,
    amount: u64,
) -> Result<(), AllocError>
    ensures { OnOk result
        (posts.new.items ≡ posts.old.items
        ++ without_zeros (spec.double at.year at.fund debited credited amount)) }
{
    debit(posts, at, debited, u128::from(amount))?;
    credit(posts, at, credited, u128::from(amount))
}

/// Adds a debit of one account and a credit of another, of a total over many documents.
pub fn double_total(
    posts: &mut Vec<Post>,
    at: FundYear,
    debited: u32,
    credited: u32,
    amount: u128,
) -> Result<(), AllocError>
    requires { amount < 2 ^ 127 }
    ensures { OnOk result
        (posts.new.items ≡ posts.old.items
        ++ without_zeros (spec.double at.year at.fund debited credited amount)) }
{
    debit(posts, at, debited, amount)?;
    credit(posts, at, credited, amount)
}

/// Adds a double entry with its signs turned.
pub fn turned(
    posts: &mut Vec<Post>,
    at: FundYear,
    debited: u32,
    credited: u32,
    amount: u64,
) -> Result<(), AllocError>
    ensures { OnOk result
        (posts.new.items ≡ posts.old.items
        ++ without_zeros (spec.turned at.year at.fund debited credited amount)) }
{
    credit(posts, at, debited, u128::from(amount))?;
    debit(posts, at, credited, u128::from(amount))
}
