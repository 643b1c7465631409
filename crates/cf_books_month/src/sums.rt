//! The amounts of control lines and of revenue sources in a month, of sums through four days: the
//! last of the month, the last of the month before, and those of a year before.

ghost use Rattle.std.specs.Prelude.{◌≡◌, ◌≤◌, ◌<◌, length, IfOk};
ghost use Rattle.cf_base.specs.Common.{last_year};
ghost use Rattle.cf_journal_book.specs.Watching.{all_posted};
ghost use Rattle.cf_books_days.specs.Gathered.{IsOf};
ghost use Rattle.cf_books_month.specs.Days.{last_day, month_before, year_before};
ghost use Rattle.cf_books_month.specs.Sums as spec;
ghost use Rattle.cf_books_month.specs.Sums.{IsThrough};

use crate::amounts::{Amounts, less};
use crate::days::{last_day, month_before, year_before};
use cf_base::Month;
use cf_books_days::{Dated, DaySums, day_sums};
use cf_calls::LineNumbers;
use cf_chart::{Chart, RevenueSource};
use cf_office_history::Rest;
use cf_statements::{Figures, in_year};
use std::alloc::{AllocError, Global};

/// The sums of a history that a month is told with.
#[derive(Drop)]
pub struct MonthSums<'a> {
    rest: &'a Rest,
    month: Month,
    last: DaySums<'a>,
    before: DaySums<'a>,
    last_ago: DaySums<'a>,
    before_ago: DaySums<'a>,
    ghost last_is: { IsThrough rest.now (last_day month) last },
    ghost before_is: { IsThrough rest.now (last_day (month_before month)) before },
    ghost last_ago_is: { IsThrough rest.now (last_day (year_before month)) last_ago },
    ghost before_ago_is: { IsThrough rest.now
        (last_day (month_before (year_before month))) before_ago },
}

/// The sums that a month is told with, of what was gathered of a history's entries.
pub fn month_sums<'a>(
    alloc: Global,
    rest: &'a Rest,
    dated: &Dated,
    month: Month,
) -> Result<MonthSums<'a>, AllocError>
    requires from { 2 ≤ month.year }
    requires to { month.year ≤ last_year }
    requires first { 1 ≤ month.month }
    requires dated { IsOf rest.now.plan (all_posted rest.now.plan rest.now.entries) dated.now }
    ensures rest { IfOk result (λ s. s.rest.now ≡ rest.now) }
    ensures month { IfOk result (λ s. s.month ≡ month) }
{
    let ago = year_before(month);
    let last = day_sums(alloc, rest, dated, last_day(month))?;
    let before = day_sums(alloc, rest, dated, last_day(month_before(month)))?;
    let last_ago = day_sums(alloc, rest, dated, last_day(ago))?;
    let before_ago = day_sums(alloc, rest, dated, last_day(month_before(ago)))?;
    Ok(MonthSums {
        rest,
        month,
        last,
        before,
        last_ago,
        before_ago,
    })
}

/// One of the days that a month is told with.
#[derive(Clone, Copy)]
pub enum At {
    /// The month's last day.
    Last,
    /// The last day of the month before.
    Before,
    /// The last day of the same month a year before.
    LastAgo,
    /// The last day of the month before that one.
    BeforeAgo,
}

/// The numbers of a control line in a fiscal year.
#[tactic(auto, unfolding(crate::specs::Sums::numbers_through))]
fn numbers_in(rest: &Rest, sums: &DaySums, line: u16, year: u16) -> LineNumbers
    requires same { sums.now.rest.now ≡ rest.now }
    requires line { line < length rest.now.plan.lines }
    requires year { year < 2201 }
    ensures { result ≡ spec.numbers_through rest.now.plan rest.now.entries line year sums.now.day }
{
    sums.numbers(line, year)
}

/// What a revenue source received in a fiscal year.
#[tactic(auto, unfolding(crate::specs::Sums::received))]
fn received_in(sums: &DaySums, source: &RevenueSource, year: u16) -> i128
    requires { 1 ≤ year }
    ensures { result ≡ spec.received sums.now.rest.now.plan sums.now.rest.now.entries source.now
        year sums.now.day }
{
    -in_year(sums, year, source.fund, 400_000 + u32::from(source.id))
}

/// What is estimated of a revenue source for a fiscal year.
#[tactic(auto, unfolding(crate::specs::Sums::estimated))]
fn estimated_in(sums: &DaySums, source: &RevenueSource, year: u16) -> i128
    ensures { result ≡ spec.estimated sums.now.rest.now.plan sums.now.rest.now.entries source.now
        year sums.now.day }
{
    i128::from(sums.estimate(year, source.id))
}

impl<'a> MonthSums<'a> {
    /// The chart of the history.
    pub fn chart(&self) -> &Chart
        ensures { result.now ≡ self.now.rest.now.plan }
    {
        self.rest.chart()
    }

    /// The sums through a day.
    fn sums(&self, at: At) -> &DaySums<'a>
        ensures { IsThrough self.now.rest.now (spec.day_at at self.now.month) result.now }
    {
        match at {
            At::Last => &self.last,
            At::Before => &self.before,
            At::LastAgo => &self.last_ago,
            At::BeforeAgo => &self.before_ago,
        }
    }

    /// The numbers of a control line in a fiscal year, through a day.
    fn numbers(&self, at: At, line: u16, year: u16) -> LineNumbers
        requires line { line < length self.now.rest.now.plan.lines }
        requires year { year < 2201 }
        ensures { result ≡ spec.numbers_through self.now.rest.now.plan self.now.rest.now.entries
            line year (spec.day_at at self.now.month) }
    {
        numbers_in(self.rest, self.sums(at), line, year)
    }

    /// What a revenue source received in a fiscal year, through a day.
    fn received(&self, at: At, source: &RevenueSource, year: u16) -> i128
        requires { 1 ≤ year }
        ensures { result ≡ spec.received self.now.rest.now.plan self.now.rest.now.entries source.now
            year (spec.day_at at self.now.month) }
    {
        received_in(self.sums(at), source, year)
    }

    /// What is estimated of a revenue source for a fiscal year, through a day.
    fn estimated(&self, at: At, source: &RevenueSource, year: u16) -> i128
        ensures { result ≡ spec.estimated self.now.rest.now.plan self.now.rest.now.entries
            source.now year (spec.day_at at self.now.month) }
    {
        estimated_in(self.sums(at), source, year)
    }

    /// The amounts of a control line in the month and in a fiscal year, 2 to 2200, with those of
    /// the year before.
    #[tactic(auto, unfolding(crate::specs::Sums::line_amounts))]
    pub fn line_amounts(&self, year: u16, line: u16) -> Amounts
        requires line { line < length self.now.rest.now.plan.lines }
        requires from { 2 ≤ year }
        requires to { year < 2201 }
        ensures { result ≡ spec.line_amounts self.now.rest.now.plan self.now.rest.now.entries
            self.now.month year line }
    {
        let now = self.numbers(At::Last, line, year);
        let before = self.numbers(At::Before, line, year);
        let ago = self.numbers(At::LastAgo, line, year - 1);
        let before_ago = self.numbers(At::BeforeAgo, line, year - 1);
        Amounts {
            budget: now.appropriated,
            month: less(now.expended, before.expended),
            year: now.expended,
            on_order: now.encumbered,
            held: now.held,
            left: now.room,
            month_ago: less(ago.expended, before_ago.expended),
            year_ago: ago.expended,
        }
    }

    /// The amounts of a revenue source in the month and in a fiscal year, 2 to 2200, with those of
    /// the year before.
    #[tactic(auto, unfolding(crate::specs::Sums::source_amounts))]
    pub fn source_amounts(&self, year: u16, source: &RevenueSource) -> Amounts
        requires from { 2 ≤ year }
        ensures { result ≡ spec.source_amounts self.now.rest.now.plan self.now.rest.now.entries
            self.now.month year source.now }
    {
        let estimate = self.estimated(At::Last, source, year);
        let now = self.received(At::Last, source, year);
        let before = self.received(At::Before, source, year);
        let ago = self.received(At::LastAgo, source, year - 1);
        let before_ago = self.received(At::BeforeAgo, source, year - 1);
        Amounts {
            budget: estimate,
            month: less(now, before),
            year: now,
            on_order: 0,
            held: 0,
            left: less(estimate, now),
            month_ago: less(ago, before_ago),
            year_ago: ago,
        }
    }
}
