//! A month of a history as records.

ghost use Rattle.std.specs.Prelude.{◌≡◌, ◌≤◌, ℕ, true, List, Ok, IfOk, OnOk};
ghost use Rattle.cf_base.specs.Common.{is_call_month};
ghost use Rattle.cf_model.specs.Common.{Month, RevenueSource};
ghost use Rattle.cf_journal_book.specs.Watching.{all_posted};
ghost use Rattle.cf_books_days.specs.Gathered.{IsOf};
ghost use Rattle.cf_books_lists.specs.Records.{head_text, record_text};
ghost use Rattle.cf_books_lists.specs.Rows.{added};
ghost use Rattle.cf_books_month.specs.Days.{AddUp};
ghost use Rattle.cf_books_month.specs.Sums.{received, spent};
ghost use Rattle.cf_books_month.specs.Month as spec;
ghost use Rattle.cf_books_month.specs.declared.amounts.Amounts.{Amounts};
ghost use Rattle.cf_books_month.specs.declared.amounts.Column.{Column};
ghost use Rattle.cf_chart.specs.Common.{chart_of};

use crate::days::first_day;
use crate::records::put_rows;
use crate::rows::month_rows;
use crate::sums::month_sums;
use cf_base::{Month, fiscal_year, month_text as text_of_month};
use cf_books_days::Dated;
use cf_books_lists::{Layout, Rows};
use cf_office_history::Rest;
use std::alloc::{AllocError, Global};

/// Whether a month is closed, in a word.
fn state_word(is_closed: bool) -> &'static str
    ensures { result.now ≡ spec.state_word is_closed }
{
    if is_closed { " closed" } else { " open" }
}

/// The month, and whether it is still open.
#[tactic(auto, unfolding(crate::specs::Month::month_state))]
fn month_state(alloc: Global, rest: &Rest, month: Month) -> Result<Vec<u8>, AllocError>
    requires { is_call_month month ≡ true }
    ensures { IfOk result (λ t. t.items ≡ spec.month_state rest.now.plan rest.now.entries month) }
{
    let mut text = Vec::from_slice(alloc, b"month ")?;
    text.extend_from_slice(&text_of_month(month))?;
    text.extend_from_slice(state_word(rest.is_closed(first_day(month))).as_bytes())?;
    Ok(text)
}

/// Writes the row that says whether the month is still open.
#[tactic(auto, unfolding(crate::specs::Month::first_fields))]
fn put_first(alloc: Global, out: &mut Rows, rest: &Rest, month: Month) -> Result<(), AllocError>
    requires { is_call_month month ≡ true }
    ensures { OnOk result
        (out.new ≡ added out.old
        (record_text out.old.csv (spec.first_fields rest.now.plan rest.now.entries month))) }
{
    let state = month_state(alloc, rest, month)?;
    let fields: [&[u8]; 19] = [
        state.as_slice(),
        b"",
        b"",
        b"",
        b"",
        b"",
        b"",
        b"",
        b"",
        b"",
        b"",
        b"",
        b"",
        b"",
        b"",
        b"",
        b"",
        b"",
        b"",
    ];
    out.put(fields.as_slice())
}

/// Writes the names of the columns, where records are written.
fn put_head(out: &mut Rows) -> Result<(), AllocError>
    ensures { OnOk result (out.new ≡ added out.old (head_text out.old.csv spec.head)) }
{
    let names: [&[u8]; 19] = [
        b"part",
        b"fund",
        b"fund_name",
        b"dept",
        b"dept_name",
        b"line",
        b"line_part",
        b"line_name",
        b"source",
        b"source_name",
        b"budget",
        b"month",
        b"year",
        b"on_order",
        b"held",
        b"left",
        b"percent_left",
        b"month_before",
        b"year_before",
    ];
    out.put_names(names.as_slice())
}

/// The months of a history add up, each amount of a total is the sum of those of its rows, and the
/// rows of a fund's departments come to the fund's own, under any chart that was read. It does
/// nothing: its clauses are the laws.
fn months_add_up(rest: &Rest)
    ensures spent { (line year : ℕ) → AddUp (spent rest.now.plan rest.now.entries line year) }
    ensures received { (source : RevenueSource) (year : ℕ)
        → AddUp (received rest.now.plan rest.now.entries source year) }
    ensures totals { (c : Column) (amounts : List Amounts) → spec.IsTotal c amounts }
    ensures departments { (bytes : List ℕ) → chart_of bytes ≡ Ok rest.now.plan
        → (m : Month) (year fund : ℕ) (c : Column)
        → spec.DepartmentsAddUp rest.now.plan rest.now.entries m year fund c }
{
    let _entries = rest.entries();
}

/// A month of a history, from 1971-01 to 2199-12, as records below the names of the columns. The
/// first says whether the month is still open. Then come, of each fund, its control lines by
/// number, the totals of its departments and of the fund, its revenue sources by id and their
/// total. Each has what is appropriated of it (or estimated), what was spent (or received) in the
/// month and in its fiscal year through it, what is on order, what requisitions hold, what is left,
/// that in per cent of the budget with two decimals, cut off, and what was spent (or received) in
/// the same month a year before and in that fiscal year through it. Amounts are in units of money.
/// All is of the entries that are dated through the month's last day, as they were entered.
pub fn month_text(
    layout: Layout,
    rest: &Rest,
    dated: &Dated,
    month: Month,
) -> Result<Vec<u8>, AllocError>
    requires month { is_call_month month ≡ true }
    requires from { 1971 ≤ month.year }
    requires dated { IsOf rest.now.plan (all_posted rest.now.plan rest.now.entries) dated.now }
    ensures text { IfOk result
        (λ v. v.items ≡ spec.month_text layout.csv month rest.now.plan rest.now.entries) }

    // The months of a year come to what there is through the last of them.
    ensures spent { (line year : ℕ) → AddUp (spent rest.now.plan rest.now.entries line year) }
    ensures received { (source : RevenueSource) (year : ℕ)
        → AddUp (received rest.now.plan rest.now.entries source year) }

    // Each amount of a total is the sum of those of its rows.
    ensures totals { (c : Column) (amounts : List Amounts) → spec.IsTotal c amounts }

    // The rows of a fund's departments come to the fund's own, under any chart that was read.
    ensures departments { (bytes : List ℕ) → chart_of bytes ≡ Ok rest.now.plan
        → (m : Month) (year fund : ℕ) (c : Column)
        → spec.DepartmentsAddUp rest.now.plan rest.now.entries m year fund c }
{
    months_add_up(rest);
    let alloc = layout.alloc;
    let year = fiscal_year(rest.chart().first_month(), month);
    let sums = month_sums(alloc, rest, dated, month)?;
    let rows = month_rows(alloc, &sums, year)?;
    let mut out = Rows::new(layout);
    put_head(&mut out)?;
    put_first(alloc, &mut out, rest, month)?;
    put_rows(alloc, &mut out, rest.chart(), rows.as_slice())?;
    out.into_text()
}
