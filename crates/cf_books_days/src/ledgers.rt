//! The ledgers of the posts that are dated through a day.

ghost use Rattle.std.specs.Prelude.{◌≡◌, ◌<◌, ◌^◌, IfOk};
ghost use Rattle.std.specs.List.{All};
ghost use Rattle.cf_model.specs.Common.{Gov as GovBasis};
ghost use Rattle.cf_calls.specs.declared.read.Basis.TheVariants.{Fund as FundBasis};
ghost use Rattle.cf_ledger.specs.Books.{posts_of};
ghost use Rattle.cf_ledger.specs.Posts.{is_in_total, sizes, IsInYears};
ghost use Rattle.cf_books_days.specs.Gathered as gathered;
ghost use Rattle.cf_books_days.specs.Ledgers as spec;

use crate::days::is_through;
use crate::gathered::DatedPost;
use cf_base::Day;
use cf_calls::Basis;
use cf_ledger::{Ledger, Post};
use std::alloc::{AllocError, Global};

/// The accounts below this one make up fund balance.
const IN_TOTAL: u32 = 300_000;

/// The posts that are dated through a day.
pub fn posts_through(alloc: Global, day: Day, dated: &[DatedPost]) -> Result<Vec<Post>, AllocError>
    ensures { IfOk result (λ v. v.items ≡ gathered.posts_through day dated.now) }
{
    let mut posts = Vec::new(alloc);
    for post in dated {
        if is_through(day, post.on) {
            posts.push(post.post)?;
        }
    }
    Ok(posts)
}

fn is_in_total(post: &Post) -> bool
    ensures { result ≡ is_in_total post.now }
{
    post.account < IN_TOTAL
}

/// A post as of the account 0 of its fund.
fn as_balance(post: &Post) -> Post
    ensures { result ≡ spec.as_balance post.now }
{
    Post {
        year: post.year,
        fund: post.fund,
        account: 0,
        amount: post.amount,
    }
}

/// The posts that make up fund balances, each as of one account of its fund.
pub fn in_balance(alloc: Global, posts: &[Post]) -> Result<Vec<Post>, AllocError>
    ensures { IfOk result (λ v. v.items ≡ spec.in_balance posts.now) }
{
    let mut balances = Vec::new(alloc);
    for post in posts {
        if is_in_total(post) {
            balances.push(as_balance(post))?;
        }
    }
    Ok(balances)
}

/// The ledger of these posts on the fund basis and of these on the government-wide one.
pub fn ledger_of(alloc: Global, fund: &[Post], gov: &[Post]) -> Result<Ledger, AllocError>
    requires fund_years { All IsInYears fund.now }
    requires gov_years { All IsInYears gov.now }
    requires fund_fits { sizes fund.now < 2 ^ 127 }
    requires gov_fits { sizes gov.now < 2 ^ 127 }
    ensures fund { IfOk result (λ l. posts_of l FundBasis ≡ fund.now) }
    ensures gov { IfOk result (λ l. posts_of l GovBasis ≡ gov.now) }
{
    let mut ledger = Ledger::new(alloc);
    ledger.reserve(Basis::Fund, fund)?;
    ledger.add(Basis::Fund, fund);
    ledger.reserve(Basis::Gov, gov)?;
    ledger.add(Basis::Gov, gov);
    Ok(ledger)
}
