//! The records of a month's rows.

ghost use Rattle.std.specs.Prelude.{◌≡◌, ◌<◌, ◌^◌, ◌<ℤ◌, int_lt, pos, decimal, string_bytes, unsigned_abs, true, IfOk, OnOk};
ghost use Rattle.cf_base.specs.Common.{money_of};
ghost use Rattle.cf_books_lists.specs.Open.{line_of};
ghost use Rattle.cf_books_lists.specs.Records.{number_text, record_text};
ghost use Rattle.cf_books_lists.specs.Rows.{added};
ghost use Rattle.cf_books_lists.specs.Statement.{row_part};
ghost use Rattle.cf_books_month.specs.Records as spec;

use crate::amounts::Amounts;
use crate::rows::{MonthRow, Part};
use cf_base::money_text;
use cf_books_lists::{
    Rows, decimal_text, department_name, fund_name, line_of, number_text, row_part, row_part_name,
    source_name,
};
use cf_chart::Chart;
use std::alloc::{AllocError, Global};

// ---- per cent

/// Whether there is a budget.
fn has_budget(budget: i128) -> bool
    ensures value { result ≡ int_lt (pos 0) budget }
    ensures above { result ≡ true → pos 0 <ℤ budget }
{
    0 < budget
}

/// Whether an amount is below 2^112 cents in size.
fn is_small(amount: i128) -> bool
    ensures value { result ≡ spec.is_small amount }
    ensures small { result ≡ true → unsigned_abs amount < 2 ^ 112 }
{
    amount.unsigned_abs() < 5_192_296_858_534_827_628_530_496_329_220_096
}

/// An amount of a budget in hundredths of a per cent, cut off.
fn percent(budget: i128, left: i128) -> i128
    requires budget { pos 0 <ℤ budget }
    requires small { unsigned_abs left < 2 ^ 112 }
    ensures { result ≡ spec.percent budget left }
{
    let scaled = left * 10_000;
    scaled / budget
}

/// What is left of a budget, in per cent with two decimals. It is empty where there is no budget.
#[tactic(auto, unfolding(crate::specs::Records::percent_text))]
fn percent_text(alloc: Global, budget: i128, left: i128) -> Result<String, AllocError>
    ensures { IfOk result (λ t. string_bytes t ≡ spec.percent_text budget left) }
{
    if has_budget(budget) && is_small(left) {
        money_text(alloc, percent(budget, left))
    } else {
        Ok(String::new(alloc))
    }
}

// ---- names

/// The word of what a row is of.
fn part_word(part: Part) -> &'static str
    ensures { result.now ≡ spec.part_word part }
{
    match part {
        Part::Line => "line",
        Part::Department => "department",
        Part::Fund => "fund",
        Part::Source => "source",
        Part::Sources => "sources",
    }
}

/// The name of a department, if there is one.
fn dept_text(chart: &Chart, dept: Option<u16>) -> &str
    ensures { result.now ≡ spec.dept_text chart.now dept }
{
    match dept {
        Some(dept) => department_name(chart.dept(dept)),
        None => "",
    }
}

/// The name of a revenue source, if there is one.
fn source_text(chart: &Chart, source: Option<u16>) -> &str
    ensures { result.now ≡ spec.source_text chart.now source }
{
    match source {
        Some(source) => source_name(chart.source(source)),
        None => "",
    }
}

// ---- a row

/// The texts of what a row is of.
#[derive(Drop)]
struct Names {
    part: Vec<u8>,
    fund: Vec<u8>,
    dept: Vec<u8>,
    line: Vec<u8>,
    line_part: Vec<u8>,
    source: Vec<u8>,
}

fn names_of(alloc: Global, chart: &Chart, row: &MonthRow) -> Result<Names, AllocError>
    ensures part { IfOk result (λ n. n.part.items ≡ spec.part_word row.now.part) }
    ensures fund { IfOk result (λ n. n.fund.items ≡ decimal row.now.fund) }
    ensures dept { IfOk result (λ n. n.dept.items ≡ number_text row.now.dept) }
    ensures line { IfOk result (λ n. n.line.items ≡ number_text row.now.line) }
    ensures line_part { IfOk result (λ n. n.line_part.items
        ≡ row_part chart.now (line_of chart.now row.now.line)) }
    ensures source { IfOk result (λ n. n.source.items ≡ number_text row.now.source) }
{
    let part = Vec::from_slice(alloc, part_word(row.part).as_bytes())?;
    let fund = decimal_text(alloc, row.fund as u64)?;
    let dept = number_text(alloc, row.dept)?;
    let line = number_text(alloc, row.line)?;
    let line_part = row_part(alloc, chart, line_of(chart, row.line))?;
    let source = number_text(alloc, row.source)?;
    Ok(Names {
        part,
        fund,
        dept,
        line,
        line_part,
        source,
    })
}

/// The texts of a row's amounts.
#[derive(Drop)]
struct Moneys {
    budget: String,
    month: String,
    year: String,
    on_order: String,
    held: String,
    left: String,
    percent: String,
    month_ago: String,
    year_ago: String,
}

fn moneys_of(alloc: Global, amounts: &Amounts) -> Result<Moneys, AllocError>
    ensures budget { IfOk result (λ m. string_bytes m.budget ≡ money_of amounts.now.budget) }
    ensures month { IfOk result (λ m. string_bytes m.month ≡ money_of amounts.now.month) }
    ensures year { IfOk result (λ m. string_bytes m.year ≡ money_of amounts.now.year) }
    ensures on_order { IfOk result (λ m. string_bytes m.on_order ≡ money_of amounts.now.on_order) }
    ensures held { IfOk result (λ m. string_bytes m.held ≡ money_of amounts.now.held) }
    ensures left { IfOk result (λ m. string_bytes m.left ≡ money_of amounts.now.left) }
    ensures percent { IfOk result
        (λ m. string_bytes m.percent ≡ spec.percent_text amounts.now.budget amounts.now.left) }
    ensures month_ago { IfOk result (λ m. string_bytes m.month_ago
        ≡ money_of amounts.now.month_ago) }
    ensures year_ago { IfOk result (λ m. string_bytes m.year_ago ≡ money_of amounts.now.year_ago) }
{
    let budget = money_text(alloc, amounts.budget)?;
    let month = money_text(alloc, amounts.month)?;
    let year = money_text(alloc, amounts.year)?;
    let on_order = money_text(alloc, amounts.on_order)?;
    let held = money_text(alloc, amounts.held)?;
    let left = money_text(alloc, amounts.left)?;
    let percent = percent_text(alloc, amounts.budget, amounts.left)?;
    let month_ago = money_text(alloc, amounts.month_ago)?;
    let year_ago = money_text(alloc, amounts.year_ago)?;
    Ok(Moneys {
        budget,
        month,
        year,
        on_order,
        held,
        left,
        percent,
        month_ago,
        year_ago,
    })
}

/// Writes the record of a row.
#[tactic(auto, unfolding(crate::specs::Records::row_fields))]
fn put_row(alloc: Global, out: &mut Rows, chart: &Chart, row: &MonthRow) -> Result<(), AllocError>
    ensures { OnOk result
        (out.new ≡ added out.old (record_text out.old.csv (spec.row_fields chart.now row.now))) }
{
    let names = names_of(alloc, chart, row)?;
    let moneys = moneys_of(alloc, &row.amounts)?;
    let fields = [
        names.part.as_slice(),
        names.fund.as_slice(),
        fund_name(chart.fund(row.fund)).as_bytes(),
        names.dept.as_slice(),
        dept_text(chart, row.dept).as_bytes(),
        names.line.as_slice(),
        names.line_part.as_slice(),
        row_part_name(chart, line_of(chart, row.line)).as_bytes(),
        names.source.as_slice(),
        source_text(chart, row.source).as_bytes(),
        moneys.budget.as_str().as_bytes(),
        moneys.month.as_str().as_bytes(),
        moneys.year.as_str().as_bytes(),
        moneys.on_order.as_str().as_bytes(),
        moneys.held.as_str().as_bytes(),
        moneys.left.as_str().as_bytes(),
        moneys.percent.as_str().as_bytes(),
        moneys.month_ago.as_str().as_bytes(),
        moneys.year_ago.as_str().as_bytes(),
    ];
    out.put(fields.as_slice())
}

/// Writes the records of these rows.
pub fn put_rows(
    alloc: Global,
    out: &mut Rows,
    chart: &Chart,
    rows: &[MonthRow],
) -> Result<(), AllocError>
    ensures { OnOk result
        (out.new ≡ added out.old (spec.rows_text out.old.csv chart.now rows.now)) }
{
    for row in rows {
        put_row(alloc, out, chart, row)?;
    }
    Ok(())
}
