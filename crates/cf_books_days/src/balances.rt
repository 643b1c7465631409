//! The trial balance of the entries that are dated through a day.

ghost use Rattle.std.specs.Prelude.{◌≡◌, IfOk};
ghost use Rattle.cf_journal_book.specs.Watching.{all_posted};
ghost use Rattle.cf_books_days.specs.Balances as spec;
ghost use Rattle.cf_books_days.specs.Gathered.{IsOf};

use crate::gathered::Dated;
use crate::sums::{DaySums, day_sums};
use cf_base::Day;
use cf_books_lists::{AccountBalances, Layout, trial_balance_text};
use cf_calls::Basis;
use cf_chart::Chart;
use cf_office_history::Rest;
use cf_statements::Figures;
use std::alloc::AllocError;

impl<'a> AccountBalances for DaySums<'a> {
    ghost plan = { λ s. s.rest.now.plan };

    ghost balances = { λ s. spec.of_accounts_through s.day s.rest.now.plan s.rest.now.entries };

    fn account_chart(&self) -> &Chart {
        self.chart()
    }

    fn account_balance(&self, basis: Basis, year: u16, fund: u16, account: u32) -> i128 {
        self.balance(basis, year, fund, account)
    }
}

/// The balances of accounts through a fiscal year that aren't zero, as `balances_text` of
/// `cf_books_lists` lays them out, but of the entries alone that are dated through a day.
pub fn balances_through_text(
    layout: Layout,
    rest: &Rest,
    dated: &Dated,
    day: Day,
    year: u16,
) -> Result<Vec<u8>, AllocError>
    requires { IsOf rest.now.plan (all_posted rest.now.plan rest.now.entries) dated.now }
    ensures { IfOk result (λ v. v.items ≡ spec.balances_through layout.csv day year rest.now.plan
        rest.now.entries) }
{
    let sums = day_sums(layout.alloc, rest, dated, day)?;
    trial_balance_text(layout, &sums, year)
}
