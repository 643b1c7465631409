//! The rows of a month: control lines, revenue sources, and the totals of departments and funds.

ghost use Rattle.std.specs.Prelude.{◌≡◌, ◌≤◌, ◌<◌, ◌++◌, ◌∷◌, [], length, IfOk, OnOk};
ghost use Rattle.cf_books_month.specs.Rows as spec;

use crate::amounts::{Amounts, total};
use crate::sums::MonthSums;
use cf_chart::{Chart, Department, Fund, Line, RevenueSource};
use std::alloc::{AllocError, Global};

/// What a row is of.
#[derive(Clone, Copy)]
pub enum Part {
    /// A control line.
    Line,
    /// The control lines of a department in a fund.
    Department,
    /// The control lines of a fund.
    Fund,
    /// A revenue source.
    Source,
    /// The revenue sources of a fund.
    Sources,
}

/// A row of a month.
#[derive(Clone, Copy)]
pub struct MonthRow {
    pub part: Part,
    pub fund: u16,
    pub dept: Option<u16>,
    pub line: Option<u16>,
    pub source: Option<u16>,
    pub amounts: Amounts,
}

// ---- control lines

/// Whether a line is one of a fund at its level of control in a fiscal year, or in the year before.
fn is_shown(chart: &Chart, year: u16, fund: u16, line: &Line) -> bool
    requires { 1 ≤ year }
    ensures { result ≡ spec.is_shown chart.now year fund line.now }
{
    line.fund == fund && (chart.is_of_year(line, year) || chart.is_of_year(line, year - 1))
}

/// The row of a control line.
fn line_row(sums: &MonthSums, year: u16, number: u16, line: &Line) -> MonthRow
    requires from { 2 ≤ year }
    requires to { year < 2201 }
    requires line { number < length sums.now.rest.now.plan.lines }
    ensures { result ≡ spec.line_row sums.now.rest.now.plan sums.now.rest.now.entries sums.now.month
        year number line.now }
{
    MonthRow {
        part: Part::Line,
        fund: line.fund,
        dept: Some(line.dept),
        line: Some(number),
        source: None,
        amounts: sums.line_amounts(year, number),
    }
}

/// The rows of a fund's control lines, by number.
fn line_rows(
    alloc: Global,
    sums: &MonthSums,
    year: u16,
    fund: u16,
    lines: &[Line],
) -> Result<Vec<MonthRow>, AllocError>
    requires from { 2 ≤ year }
    requires to { year < 2201 }
    requires all { lines.now ≡ sums.now.rest.now.plan.lines }
    requires few { length lines.now ≤ 4096 }
    ensures { IfOk result
        (λ v. v.items ≡ spec.line_rows sums.now.rest.now.plan sums.now.rest.now.entries
        sums.now.month year fund 0 lines.now) }
{
    let mut rows = Vec::new(alloc);
    let mut number = 0;
    for line in lines {
        if is_shown(sums.chart(), year, fund, line) {
            rows.push(line_row(sums, year, number, line))?;
        }
        number += 1;
    }
    Ok(rows)
}

// ---- revenue sources

/// The row of a revenue source.
fn source_row(sums: &MonthSums, year: u16, source: &RevenueSource) -> MonthRow
    requires from { 2 ≤ year }
    requires to { year < 2201 }
    ensures { result ≡ spec.source_row sums.now.rest.now.plan sums.now.rest.now.entries
        sums.now.month year source.now }
{
    MonthRow {
        part: Part::Source,
        fund: source.fund,
        dept: None,
        line: None,
        source: Some(source.id),
        amounts: sums.source_amounts(year, source),
    }
}

/// The rows of a fund's revenue sources, by id.
fn source_rows(
    alloc: Global,
    sums: &MonthSums,
    year: u16,
    fund: u16,
    sources: &[RevenueSource],
) -> Result<Vec<MonthRow>, AllocError>
    requires from { 2 ≤ year }
    requires to { year < 2201 }
    ensures { IfOk result
        (λ v. v.items ≡ spec.source_rows sums.now.rest.now.plan sums.now.rest.now.entries
        sums.now.month year fund sources.now) }
{
    let mut rows = Vec::new(alloc);
    for source in sources {
        if source.fund == fund {
            rows.push(source_row(sums, year, source))?;
        }
    }
    Ok(rows)
}

// ---- totals

/// The amounts of these rows.
fn amounts_in(alloc: Global, rows: &[MonthRow]) -> Result<Vec<Amounts>, AllocError>
    ensures { IfOk result (λ v. v.items ≡ spec.amounts_in rows.now) }
{
    let mut amounts = Vec::new(alloc);
    for row in rows {
        amounts.push(row.amounts)?;
    }
    Ok(amounts)
}

/// Whether a department is this one.
fn is_dept(dept: u16, of: Option<u16>) -> bool
    ensures { result ≡ spec.is_dept dept of }
{
    match of {
        Some(of) => of == dept,
        None => false,
    }
}

/// The amounts of those of these rows that are of a department.
fn amounts_of(alloc: Global, dept: u16, rows: &[MonthRow]) -> Result<Vec<Amounts>, AllocError>
    ensures { IfOk result (λ v. v.items ≡ spec.amounts_of dept rows.now) }
{
    let mut amounts = Vec::new(alloc);
    for row in rows {
        if is_dept(dept, row.dept) {
            amounts.push(row.amounts)?;
        }
    }
    Ok(amounts)
}

/// The row of what these amounts of a fund come to.
fn total_row(part: Part, fund: u16, dept: Option<u16>, amounts: &[Amounts]) -> MonthRow
    ensures { result ≡ spec.total_row part fund dept amounts.now }
{
    MonthRow {
        part,
        fund,
        dept,
        line: None,
        source: None,
        amounts: total(amounts),
    }
}

/// Appends the total of a department in a fund, where the fund has lines of it.
fn put_department(
    alloc: Global,
    out: &mut Vec<MonthRow>,
    fund: u16,
    dept: u16,
    rows: &[MonthRow],
) -> Result<(), AllocError>
    ensures { OnOk result
        (out.new.items ≡ out.old.items
        ++ spec.department_row fund dept (spec.amounts_of dept rows.now)) }
{
    let amounts = amounts_of(alloc, dept, rows)?;
    if amounts.is_empty() {
        return Ok(());
    }
    let row = total_row(Part::Department, fund, Some(dept), amounts.as_slice());
    out.push(row)?;
    Ok(())
}

/// Appends the totals of these departments in a fund.
fn put_departments(
    alloc: Global,
    out: &mut Vec<MonthRow>,
    fund: u16,
    depts: &[Department],
    rows: &[MonthRow],
) -> Result<(), AllocError>
    ensures { OnOk result
        (out.new.items ≡ out.old.items ++ spec.department_rows fund rows.now depts.now) }
{
    for dept in depts {
        put_department(alloc, out, fund, dept.id, rows)?;
    }
    Ok(())
}

/// Appends what rows of a fund come to.
fn put_total(
    alloc: Global,
    out: &mut Vec<MonthRow>,
    part: Part,
    fund: u16,
    rows: &[MonthRow],
) -> Result<(), AllocError>
    ensures { OnOk result
        (out.new.items ≡ out.old.items ++ spec.total_row part fund None (spec.amounts_in rows.now)
        ∷ []) }
{
    let amounts = amounts_in(alloc, rows)?;
    out.push(total_row(part, fund, None, amounts.as_slice()))?;
    Ok(())
}

// ---- all

/// Appends the rows of a fund: its control lines, the totals of departments, the fund's total, its
/// revenue sources, and their total.
#[tactic(auto, unfolding(crate::specs::Rows::fund_rows))]
fn put_fund(
    alloc: Global,
    out: &mut Vec<MonthRow>,
    sums: &MonthSums,
    year: u16,
    fund: u16,
) -> Result<(), AllocError>
    requires from { 2 ≤ year }
    requires to { year < 2201 }
    ensures { OnOk result
        (out.new.items ≡ out.old.items
        ++ spec.fund_rows sums.now.rest.now.plan sums.now.rest.now.entries sums.now.month year
        fund) }
{
    let chart = sums.chart();
    let lines = line_rows(alloc, sums, year, fund, chart.lines())?;
    let sources = source_rows(alloc, sums, year, fund, chart.sources())?;
    out.extend_from_slice(lines.as_slice())?;
    put_departments(alloc, out, fund, chart.depts(), lines.as_slice())?;
    put_total(alloc, out, Part::Fund, fund, lines.as_slice())?;
    out.extend_from_slice(sources.as_slice())?;
    put_total(alloc, out, Part::Sources, fund, sources.as_slice())
}

/// Appends the rows of these funds.
fn put_funds(
    alloc: Global,
    out: &mut Vec<MonthRow>,
    sums: &MonthSums,
    year: u16,
    funds: &[Fund],
) -> Result<(), AllocError>
    requires from { 2 ≤ year }
    requires to { year < 2201 }
    ensures { OnOk result
        (out.new.items ≡ out.old.items
        ++ spec.funds_rows sums.now.rest.now.plan sums.now.rest.now.entries sums.now.month year
        funds.now) }
{
    for fund in funds {
        put_fund(alloc, out, sums, year, fund.id)?;
    }
    Ok(())
}

/// The rows of a month and a fiscal year.
#[tactic(auto, unfolding(crate::specs::Rows::month_rows))]
pub fn month_rows(alloc: Global, sums: &MonthSums, year: u16) -> Result<Vec<MonthRow>, AllocError>
    requires from { 2 ≤ year }
    requires to { year < 2201 }
    ensures { IfOk result
        (λ v. v.items ≡ spec.month_rows sums.now.rest.now.plan sums.now.rest.now.entries
        sums.now.month year) }
{
    let mut rows = Vec::new(alloc);
    put_funds(alloc, &mut rows, sums, year, sums.chart().funds())?;
    Ok(rows)
}
