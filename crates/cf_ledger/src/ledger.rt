//! The ledger of both bases.

ghost use Rattle.std.specs.Prelude.{◌≡◌, ◌-◌, ◌<◌, ◌^◌, ◌++◌, ◌-ℤ◌, [], OnOk};
ghost use Rattle.std.specs.List.{All};
ghost use Rattle.cf_calls.specs.declared.read.Basis.{Basis as OnBasis};
ghost use Rattle.cf_ledger.specs.Books.{posts_of, other, AreReserved, KeepsReserved};
ghost use Rattle.cf_ledger.specs.Posts.{balance, total, sizes, IsInYears};

use crate::book::Book;
use crate::post::Post;
use cf_calls::Basis;
use std::alloc::{AllocError, Global};
use std::marker::Model;

/// The balances of accounts on both bases: what all posts that were added come to (GASB Statement
/// 34: fund statements on the modified accrual basis, government-wide statements on the accrual
/// basis).
#[derive(Drop)]
pub struct Ledger {
    fund: Book,
    gov: Book,
}

impl Model for Ledger {
    ghost use Rattle.cf_ledger.specs.Books.{Books};

    ghost Value = { Books };

    ghost view = { λ a. record { fund = a.fund; gov = a.gov } };
}

impl Ledger {
    /// A ledger with no posts. It takes no memory.
    pub fn new(alloc: Global) -> Ledger
        ensures { (basis : OnBasis) → posts_of result basis ≡ [] }
    {
        Ledger {
            fund: Book::new(alloc),
            gov: Book::new(alloc),
        }
    }

    /// Makes room for posts on a basis, so that adding them takes no memory: about 4 KB for each
    /// account of a fund that is named for the first time. No post is added, whatever the answer,
    /// and what was reserved before stays so.
    pub fn reserve(&mut self, basis: Basis, posts: &[Post]) -> Result<(), AllocError>
        ensures reserved { OnOk result (AreReserved self.new basis posts.now) }
        ensures keeps { KeepsReserved self.old self.new }
        ensures same { (b : OnBasis) → posts_of self.new b ≡ posts_of self.old b }
    {
        match basis {
            Basis::Fund => self.fund.reserve(posts),
            Basis::Gov => self.gov.reserve(posts),
        }
    }

    /// Adds posts on a basis, after those that were added before. Their years are 1971 to 2200, and
    /// the sizes of all amounts of the basis sum to less than 2^127 cents, so that each sum of them
    /// fits. It takes no memory.
    pub fn add(&mut self, basis: Basis, posts: &[Post])
        requires reserved { AreReserved self.old basis posts.now }
        requires years { All IsInYears posts.now }
        requires small { sizes (posts_of self.old basis ++ posts.now) < 2 ^ 127 }
        ensures added { posts_of self.new basis ≡ posts_of self.old basis ++ posts.now }
        ensures other { posts_of self.new (other basis) ≡ posts_of self.old (other basis) }
        ensures keeps { KeepsReserved self.old self.new }
    {
        match basis {
            Basis::Fund => self.fund.add(posts),
            Basis::Gov => self.gov.add(posts),
        }
    }

    /// The balance of an account of a fund through a fiscal year, in cents: zero where nothing was
    /// posted. On the government-wide basis the fund is 0. It takes no memory, and no longer with
    /// more posts.
    pub fn balance(&self, basis: Basis, year: u16, fund: u16, account: u32) -> i128
        ensures { result ≡ balance (posts_of self.now basis) year fund account }
    {
        match basis {
            Basis::Fund => self.fund.balance(year, fund, account),
            Basis::Gov => self.gov.balance(year, fund, account),
        }
    }

    /// The fund balances of all funds, or net position, through a fiscal year, in cents. It takes
    /// no memory, and no longer with more posts.
    pub fn total(&self, basis: Basis, year: u16) -> i128
        ensures { result ≡ total (posts_of self.now basis) year }
    {
        match basis {
            Basis::Fund => self.fund.total(year),
            Basis::Gov => self.gov.total(year),
        }
    }

    /// By how much fund balances, or net position, changed in a fiscal year, in cents. It takes no
    /// memory, and no longer with more posts or for an earlier year.
    pub fn change(&self, basis: Basis, year: u16) -> i128
        ensures { result ≡ total (posts_of self.now basis) year -ℤ total (posts_of self.now basis)
            (year - 1) }
    {
        match basis {
            Basis::Fund => self.fund.change(year),
            Basis::Gov => self.gov.change(year),
        }
    }
}
