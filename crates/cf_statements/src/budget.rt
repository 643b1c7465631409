//! The budgetary comparison.
ghost use Rattle.std.specs.Prelude.{◌≡◌, ◌≤◌, ◌<◌, ◌^◌, ◌++◌, ◌∷◌, [], ℕ, true, IfOk, OnOk, unsigned_abs, length};
ghost use Rattle.cf_calls.specs.Common.{IsYear};
ghost use Rattle.cf_statements.specs.Budget.{budget_rows, fund_revenue, line_row, line_rows, source_row, source_rows};

use crate::figures::{Figures, in_year};
use crate::rows::{put_heading, put_row};
use cf_calls::Row;
use cf_chart::{Line, RevenueSource};
use std::alloc::{AllocError, Global};

/// The fund revenue of a source in the year alone.
pub(crate) fn revenue_in<F: Figures>(figures: &F, year: u16, source: &RevenueSource) -> i128
    requires { 1 ≤ year }
    ensures value { result ≡ fund_revenue (F.sums figures.now) year source.now }
    ensures small { unsigned_abs result < 2 ^ 105 }
{
    -in_year(figures, year, source.fund, 400_000 + u32::from(source.id))
}

fn put_source<F: Figures>(
    alloc: Global,
    rows: &mut Vec<Row>,
    figures: &F,
    year: u16,
    source: &RevenueSource,
) -> Result<(), AllocError>
    requires { 1 ≤ year }
    ensures { OnOk result
        (rows.new.items ≡ rows.old.items ++ source_row (F.sums figures.now) year source.now ∷ []) }
{
    let estimate = i128::from(figures.estimate(year, source.id));
    let actual = revenue_in(figures, year, source);
    let amounts = [estimate, estimate, actual, 0, estimate - actual];
    put_row(alloc, rows, source.name.as_str(), amounts.as_slice())
}

fn put_line<F: Figures>(
    alloc: Global,
    rows: &mut Vec<Row>,
    figures: &F,
    year: u16,
    number: u16,
) -> Result<(), AllocError>
    requires line { number < length (F.plan figures.now).lines }
    requires year { year < 2201 }
    requires lent { F.lends figures.now number ≡ true }
    ensures { OnOk result
        (rows.new.items ≡ rows.old.items ++ line_row (F.sums figures.now) year number ∷ []) }
{
    let numbers = figures.numbers(number, year);
    let label = format!(in alloc; "Line {number}")?;
    let amounts = [
        numbers.original,
        numbers.appropriated,
        numbers.expended,
        numbers.encumbered,
        numbers.room,
    ];
    put_row(alloc, rows, label.as_str(), amounts.as_slice())
}

fn put_sources<F: Figures>(
    alloc: Global,
    rows: &mut Vec<Row>,
    figures: &F,
    year: u16,
    fund: u16,
    sources: &[RevenueSource],
) -> Result<(), AllocError>
    requires { 1 ≤ year }
    ensures { OnOk result
        (rows.new.items ≡ rows.old.items
        ++ source_rows (F.sums figures.now) year fund sources.now) }
{
    for source in sources {
        if source.fund == fund {
            put_source(alloc, rows, figures, year, source)?;
        }
    }
    Ok(())
}

fn put_lines<F: Figures>(
    alloc: Global,
    rows: &mut Vec<Row>,
    figures: &F,
    year: u16,
    fund: u16,
    lines: &[Line],
) -> Result<(), AllocError>
    requires all { lines.now ≡ (F.plan figures.now).lines }
    requires few { length lines.now ≤ 4096 }
    requires year { year < 2201 }
    requires lent { (line : ℕ) → F.lends figures.now line ≡ true }
    ensures { OnOk result
        (rows.new.items ≡ rows.old.items
        ++ line_rows (F.plan figures.now) (F.sums figures.now) year fund 0 lines.now) }
{
    let mut number = 0;
    for line in lines {
        if line.fund == fund && figures.chart().is_of_year(line, year) {
            put_line(alloc, rows, figures, year, number)?;
        }
        number += 1;
    }
    Ok(())
}

/// The rows of the budgetary comparison of the year (GASB Codification 1700 and 2400): of each fund
/// its revenue sources by id and its control lines at the year's level by number, each with
/// original and final budget, actual amount, encumbrances, and what is left.
pub fn comparison<F: Figures>(alloc: Global, figures: &F, year: u16) -> Result<Vec<Row>, AllocError>
    requires year { IsYear year }
    requires lent { (line : ℕ) → F.lends figures.now line ≡ true }
    ensures { IfOk result
        (λ rows. rows.items ≡ budget_rows (F.plan figures.now) (F.sums figures.now) year) }
{
    let mut rows = Vec::new(alloc);
    let chart = figures.chart();
    let funds = chart.funds();
    for fund in funds {
        put_heading(alloc, &mut rows, fund.name.as_str())?;
        put_sources(alloc, &mut rows, figures, year, fund.id, chart.sources())?;
        put_lines(alloc, &mut rows, figures, year, fund.id, chart.lines())?;
    }
    Ok(rows)
}
