//! The ledger of a history, and the posts that are ready to be added to it.

ghost use Rattle.std.specs.Prelude.{◌≡◌, ◌<◌, ◌^◌, ◌-◌, ◌-ℤ◌, ◌++◌, [], true, IfOk, OnOk};
ghost use Rattle.std.specs.List.{All, AllByRecursion};
ghost use Rattle.cf_base.specs.Common.{is_day};
ghost use Rattle.cf_calls.specs.Common.{IsYear};
ghost use Rattle.cf_ledger.specs.Posts.{sizes, IsInYears};
ghost use Rattle.cf_ledger.specs.Posts as ledger;
ghost use Rattle.cf_model.specs.Common.{deeds_of, posts_by, rows_of, recon_between};
ghost use Rattle.cf_model.proofs.Common.{IsSoundAsset};
ghost use Rattle.cf_recon.specs.ChangeItems.{changes_between};
ghost use Rattle.cf_registers.specs.AccountsState.{posted_on, ready_on, AreReadyFor};
ghost use Rattle.cf_registers.specs.Numbered.{AreNumbered};
ghost use Rattle.cf_post.specs.Rows.{without_zeros};
ghost use Rattle.cf_post.specs.Sizes.{IsPostable};

use crate::deeds::deeds;
use crate::registers::Registers;
use cf_base::Day;
use cf_calls::shown::ReconShown;
use cf_calls::{Act, Basis};
use cf_chart::Chart;
use cf_ledger::{Ledger, Post};
use cf_post::{Deed, put_fund, put_gov};
use cf_recon::{Changes, change_items, items};
use std::alloc::{AllocError, Global};
use std::marker::Model;

/// The balances of all that was posted, and the posts that are ready: those of an entry, for which
/// memory is taken.
pub struct Accounts {
    ledger: Ledger,
    fund: Vec<Post>,
    gov: Vec<Post>,
}

/// Written out, for a derived one is proved anew in each crate that lets such a value go.
impl Drop for Accounts {
    fn drop(self) {
        let Accounts {
            ledger: _,
            fund: _,
            gov: _,
        } = self;
    }
}

impl Model for Accounts {
    ghost use Rattle.cf_registers.specs.AccountsState.{AccountsState};

    ghost Value = { AccountsState };

    ghost use Rattle.cf_registers.specs.AccountsView.{accounts_state, AreReserved};

    ghost view = { accounts_state };

    ghost invariant = { AreReserved };
}

fn put(posts: &mut Vec<Post>, basis: Basis, deed: Deed) -> Result<(), AllocError>
    requires { IsPostable deed }
    ensures { OnOk result
        (posts.new.items ≡ posts.old.items ++ without_zeros (rows_of basis deed)) }
{
    match basis {
        Basis::Fund => put_fund(posts, deed),
        Basis::Gov => put_gov(posts, deed),
    }
}

/// What deeds post on a basis.
fn posts(alloc: Global, basis: Basis, deeds: &[Deed]) -> Result<Vec<Post>, AllocError>
    requires { All IsPostable deeds.now }
    ensures { IfOk result (λ v. v.items ≡ posts_by basis deeds.now) }
{
    let mut posts = Vec::new(alloc);
    for deed in deeds {
        put(&mut posts, basis, *deed)?;
    }
    Ok(posts)
}

impl Accounts {
    /// Nothing is posted and nothing is ready. It takes no memory.
    pub fn new(alloc: Global) -> Accounts
        ensures fund { result.fund ≡ [] }
        ensures gov { result.gov ≡ [] }
    {
        Accounts {
            ledger: Ledger::new(alloc),
            fund: Vec::new(alloc),
            gov: Vec::new(alloc),
        }
    }

    /// Takes the memory of an act's posts, and keeps them ready, in the place of those that were.
    /// Nothing is posted.
    pub fn reserve(
        &mut self,
        alloc: Global,
        chart: &Chart,
        registers: &Registers,
        on: Day,
        act: &Act,
    ) -> Result<(), AllocError>
        requires day { is_day on ≡ true }
        requires numbered { AreNumbered registers.now.registers }
        requires postable { All IsPostable (deeds_of chart.now registers.now.registers on act.now) }
        ensures fund { self.new.fund ≡ self.old.fund }
        ensures gov { self.new.gov ≡ self.old.gov }
        ensures ready { OnOk result
            (AreReadyFor self.new chart.now registers.now.registers on act.now) }
    {
        let deeds = deeds(alloc, chart, registers, on, act)?;
        let fund = posts(alloc, Basis::Fund, deeds.as_slice())?;
        let gov = posts(alloc, Basis::Gov, deeds.as_slice())?;
        self.ledger.reserve(Basis::Fund, fund.as_slice())?;
        self.ledger.reserve(Basis::Gov, gov.as_slice())?;
        self.fund = fund;
        self.gov = gov;
        Ok(())
    }

    /// What the act whose posts are ready posts on a basis.
    pub fn ready_posts(&self, basis: Basis) -> &[Post]
        ensures { result.now ≡ ready_on self.now basis }
    {
        match basis {
            Basis::Fund => self.fund.as_slice(),
            Basis::Gov => self.gov.as_slice(),
        }
    }

    /// Posts what is ready. It takes no memory.
    pub fn apply(&mut self)
        requires fund_years { All IsInYears self.old.ready_fund }
        requires gov_years { All IsInYears self.old.ready_gov }
        requires fund_fits { sizes (self.old.fund ++ self.old.ready_fund) < 2 ^ 127 }
        requires gov_fits { sizes (self.old.gov ++ self.old.ready_gov) < 2 ^ 127 }
        ensures fund { self.new.fund ≡ self.old.fund ++ self.old.ready_fund }
        ensures gov { self.new.gov ≡ self.old.gov ++ self.old.ready_gov }
    {
        self.ledger.add(Basis::Fund, self.fund.as_slice());
        self.ledger.add(Basis::Gov, self.gov.as_slice());
    }

    /// The balance of an account of a fund through a fiscal year.
    pub fn balance(&self, basis: Basis, year: u16, fund: u16, account: u32) -> i128
        ensures { result ≡ ledger.balance (posted_on self.now basis) year fund account }
    {
        self.ledger.balance(basis, year, fund, account)
    }

    /// The items between fund balances and net position through a fiscal year from 1971 to 2199, as
    /// the registers have them.
    pub fn recon(&self, chart: &Chart, registers: &Registers, year: u16) -> ReconShown
        requires year { IsYear year }
        requires sound { AllByRecursion
            (IsSoundAsset chart.now registers.now.registers.closed) registers.now.registers.assets }
        ensures { result ≡ recon_between chart.now year registers.now.registers
            (ledger.total self.now.fund year) (ledger.total self.now.gov year) }
    {
        let assets = registers.assets();
        items(
            chart,
            &self.ledger,
            assets,
            registers.revenue(),
            registers.debt(),
            year,
        )
    }

    /// The items between the changes of fund balances and of net position in a fiscal year from
    /// 1971 to 2199, as the registers have them.
    pub fn changes(&self, chart: &Chart, registers: &Registers, year: u16) -> Changes
        requires { IsYear year }
        ensures { result ≡ changes_between chart.now year registers.now.registers
            (ledger.total self.now.fund year -ℤ ledger.total self.now.fund (year - 1))
            (ledger.total self.now.gov year -ℤ ledger.total self.now.gov (year - 1)) }
    {
        let assets = registers.assets();
        change_items(
            chart,
            &self.ledger,
            assets,
            registers.revenue(),
            registers.debt(),
            year,
        )
    }
}
