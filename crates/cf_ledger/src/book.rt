//! The posts of one basis, and the running numbers that stand for them.

ghost use Rattle.std.specs.Prelude.{◌≡◌, ◌-◌, ◌<◌, ◌^◌, ◌++◌, ◌∷◌, ◌-ℤ◌, [], true, OnOk, if◌then◌else◌, pos};
ghost use Rattle.std.specs.List.{All};
ghost use Rattle.cf_ledger.specs.Books.{has_place, HasPlaces, KeepsPlaces};
ghost use Rattle.cf_ledger.specs.Posts.{balance, total, sizes, is_in_total, IsInYears};

use crate::history::History;
use crate::places::{Place, raise_at, reserve_at, sum_at};
use crate::post::Post;
use crate::years::{YEARS, amount_in, no_cells, raise, sum_through};
use std::alloc::{AllocError, Global};
use std::collections::BTreeMap;
use std::marker::Model;

/// The codes below this one make up fund balance and net position.
const IN_TOTAL: u32 = 300_000;

/// Sums by account and year, and of all accounts of fund balance or net position by year. They
/// don't grow with the number of posts; the posts themselves are kept for proofs alone.
#[derive(Drop)]
pub struct Book {
    rows: BTreeMap<Place, Vec<i128>>,
    totals: [i128; YEARS],
    history: History<Post>,
    alloc: Global,
}

impl Model for Book {
    ghost use Rattle.cf_ledger.specs.Books.{Posted};

    ghost Value = { Posted };

    ghost use Rattle.cf_ledger.specs.BookView.{posted, IsSound};

    ghost view = { posted };

    ghost invariant = { IsSound };
}

fn place(post: &Post) -> Place
    ensures { result ≡ record { fund = post.now.fund; account = post.now.account } }
{
    Place {
        fund: post.fund,
        account: post.account,
    }
}

/// What a post adds to the totals.
fn in_total(post: &Post) -> i128
    ensures { result ≡ (if is_in_total post.now then post.now.amount else pos 0) }
{
    if post.account < IN_TOTAL {
        post.amount
    } else {
        0
    }
}

impl Book {
    /// No posts. It takes no memory.
    pub fn new(alloc: Global) -> Book
        ensures { result.posts ≡ [] }
    {
        Book {
            rows: BTreeMap::new(alloc),
            totals: no_cells(),
            history: History::new(),
            alloc,
        }
    }

    /// Makes room for posts, so that adding them takes no memory. No post is added.
    pub fn reserve(&mut self, posts: &[Post]) -> Result<(), AllocError>
        ensures reserved { OnOk result (HasPlaces self.new posts.now) }
        ensures keeps { KeepsPlaces self.old self.new }
        ensures same { self.new.posts ≡ self.old.posts }
    {
        for post in posts {
            self.reserve_one(post)?;
        }
        Ok(())
    }

    fn reserve_one(&mut self, post: &Post) -> Result<(), AllocError>
        ensures reserved { OnOk result (has_place self.new post.now.fund post.now.account ≡ true) }
        ensures keeps { KeepsPlaces self.old self.new }
        ensures same { self.new.posts ≡ self.old.posts }
    {
        reserve_at(self.alloc, &mut self.rows, place(post))
    }

    /// Adds posts. It takes no memory.
    pub fn add(&mut self, posts: &[Post])
        requires reserved { HasPlaces self.old posts.now }
        requires years { All IsInYears posts.now }
        requires small { sizes (self.old.posts ++ posts.now) < 2 ^ 127 }
        ensures added { self.new.posts ≡ self.old.posts ++ posts.now }
        ensures keeps { KeepsPlaces self.old self.new }
    {
        for post in posts {
            self.add_one(post);
        }
    }

    fn add_one(&mut self, post: &Post)
        requires reserved { has_place self.old post.now.fund post.now.account ≡ true }
        requires years { IsInYears post.now }
        requires small { sizes (self.old.posts ++ post.now ∷ []) < 2 ^ 127 }
        ensures added { self.new.posts ≡ self.old.posts ++ post.now ∷ [] }
        ensures keeps { KeepsPlaces self.old self.new }
    {
        raise_at(&mut self.rows, place(post), post.year, post.amount);
        raise(&mut self.totals, post.year, in_total(post));
        self.history = self.history.and(post);
    }

    /// The balance of an account of a fund through a year.
    pub fn balance(&self, year: u16, fund: u16, account: u32) -> i128
        ensures { result ≡ balance self.now.posts year fund account }
    {
        sum_at(&self.rows, Place { fund, account }, year)
    }

    /// The total through a year of the accounts that make up fund balance and net position.
    pub fn total(&self, year: u16) -> i128
        ensures { result ≡ total self.now.posts year }
    {
        sum_through(&self.totals, year)
    }

    /// By how much the total changed in a year.
    pub fn change(&self, year: u16) -> i128
        ensures { result ≡ total self.now.posts year -ℤ total self.now.posts (year - 1) }
    {
        amount_in(&self.totals, year)
    }
}
