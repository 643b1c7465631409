//! The sums of a history through a day, as statements are made of them.

ghost use Rattle.std.specs.Prelude.{◌≡◌, ◌<◌, ◌^◌, ℕ, true, map, IfOk, unsigned_abs};
ghost use Rattle.cf_journal_book.specs.Watching.{all_posted};
ghost use Rattle.cf_model.specs.Common.{Gov as GovBasis};
ghost use Rattle.cf_calls.specs.declared.read.Basis.TheVariants.{Fund as FundBasis};
ghost use Rattle.cf_ledger.specs.Books.{posts_of};
ghost use Rattle.cf_ledger.specs.Posts.{balance};
ghost use Rattle.cf_books_days.specs.Adoptions.{adoptions_through};
ghost use Rattle.cf_books_days.specs.Gathered.{IsOf};
ghost use Rattle.cf_books_days.specs.Ledgers.{in_balance};
ghost use Rattle.cf_books_days.specs.Lines.{row_in};
ghost use Rattle.cf_books_days.specs.Through.{fund_posts, gov_posts, held_row, moved_in, posts_by, seen_through, sums_through};

use crate::estimates::{adoptions_through, estimate_of};
use crate::gathered::Dated;
use crate::ledgers::{in_balance, ledger_of, posts_through};
use crate::lines::{DayLines, lines_through, room};
use cf_base::Day;
use cf_calls::{Basis, Entry, LineNumbers};
use cf_chart::Chart;
use cf_ledger::Ledger;
use cf_office_history::Rest;
use cf_statements::Figures;
use std::alloc::{AllocError, Global};

/// The sums of the entries of a history that are dated through a day.
#[derive(Drop)]
pub struct DaySums<'a> {
    rest: &'a Rest,
    day: Day,
    ledger: Ledger,
    /// The fund balance of each fund, as of its account 0.
    balances: Ledger,
    adoptions: Vec<&'a Entry>,
    lines: DayLines,
    ghost fund: { posts_of ledger FundBasis ≡ fund_posts
        (seen_through rest.now.plan day rest.now.entries) },
    ghost gov: { posts_of ledger GovBasis
        ≡ gov_posts (seen_through rest.now.plan day rest.now.entries) },
    ghost in_balance: { posts_of balances FundBasis ≡ in_balance
        (fund_posts (seen_through rest.now.plan day rest.now.entries)) },
    ghost numbers: { (line year : ℕ) → held_row (row_in lines line year)
        ≡ held_row (moved_in rest.now.plan line year
        (seen_through rest.now.plan day rest.now.entries)) },
    ghost adopted: { map (λ e. e.now) adoptions.items ≡ adoptions_through day rest.now.entries },
}

/// The sums of a history through a day, of what was gathered of its entries.
pub fn day_sums<'a>(
    alloc: Global,
    rest: &'a Rest,
    dated: &Dated,
    day: Day,
) -> Result<DaySums<'a>, AllocError>
    requires { IsOf rest.now.plan (all_posted rest.now.plan rest.now.entries) dated.now }
    ensures rest { IfOk result (λ s. s.rest.now ≡ rest.now) }
    ensures day { IfOk result (λ s. s.day ≡ day) }
{
    let entries = rest.entries();
    let fund = posts_through(alloc, day, dated.fund.as_slice())?;
    let gov = posts_through(alloc, day, dated.gov.as_slice())?;
    let totals = in_balance(alloc, fund.as_slice())?;
    let ledger = ledger_of(alloc, fund.as_slice(), gov.as_slice())?;
    let balances = ledger_of(alloc, totals.as_slice(), &[])?;
    let adoptions = adoptions_through(alloc, day, entries)?;
    let lines = lines_through(alloc, day, dated.changes.as_slice())?;
    Ok(DaySums {
        rest,
        day,
        ledger,
        balances,
        adoptions,
        lines,
    })
}

impl<'a> DaySums<'a> {
    /// The balance of an account of a fund through a fiscal year, debits above zero, in cents.
    /// Government-wide posts are of fund 0.
    pub fn balance(&self, basis: Basis, year: u16, fund: u16, account: u32) -> i128
        ensures value { result ≡ balance
            (posts_by basis (seen_through self.now.rest.now.plan self.now.day
            self.now.rest.now.entries)) year fund account }
        ensures small { unsigned_abs result < 2 ^ 104 }
    {
        // So that the proof knows that the history is legal, and how long it may be.
        let _legal = self.rest.entries();
        self.ledger.balance(basis, year, fund, account)
    }
}

impl<'a> Figures for DaySums<'a> {
    ghost plan = { λ s. s.rest.now.plan };

    ghost sums = { λ s. sums_through s.rest.now.plan s.day s.rest.now.entries };

    ghost lends = { λ _ _. true };

    fn chart(&self) -> &Chart {
        self.rest.chart()
    }

    fn through(&self, year: u16, fund: u16, account: u32) -> i128 {
        self.balance(Basis::Fund, year, fund, account)
    }

    fn fund_balance(&self, year: u16, fund: u16) -> i128 {
        self.balances.balance(Basis::Fund, year, fund, 0)
    }

    fn total(&self, year: u16) -> i128 {
        self.ledger.total(Basis::Fund, year)
    }

    fn gov(&self, year: u16, account: u32) -> i128 {
        self.balance(Basis::Gov, year, 0, account)
    }

    fn net_position(&self, year: u16) -> i128 {
        self.ledger.total(Basis::Gov, year)
    }

    fn numbers(&self, line: u16, year: u16) -> LineNumbers {
        let row = self.lines.row(line, year);
        LineNumbers {
            original: row.original,
            appropriated: row.appropriated,
            held: row.held,
            encumbered: row.encumbered,
            expended: row.expended,
            room: room(&row),
        }
    }

    fn estimate(&self, year: u16, source: u16) -> u64 {
        // So that the proof knows that the sum of all fits.
        let _all = self.rest.estimate(year, source);
        estimate_of(self.adoptions.as_slice(), source, year)
    }
}
