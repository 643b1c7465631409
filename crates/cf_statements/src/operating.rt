//! The statement of revenues, expenditures and changes in fund balances.
ghost use Rattle.std.specs.Prelude.{◌≡◌, ◌<◌, ◌≤◌, ◌^◌, ◌*◌, ◌++◌, ◌∷◌, [], IfOk, OnOk, flat_map, length, unsigned_abs};
ghost use Rattle.cf_calls.specs.Common.{IsYear};
ghost use Rattle.cf_statements.specs.Operating as spec;
ghost use Rattle.cf_statements.specs.Sums.{single};

use crate::amounts::{difference, sum};
use crate::budget::revenue_in;
use crate::figures::{Figures, in_year};
use crate::rows::{put_heading, put_single};
use crate::tables::Side::{Credit, Debit};
use crate::tables::{AccountRow, Balances, put_table, table_total};
use cf_calls::Row;
use cf_chart::{Function, Fund, RevenueSource};
use std::alloc::{AllocError, Global};

/// What a fund spends on besides functions.
const OUTLAY: [AccountRow; 3] = [
    AccountRow(Debit, "Capital outlay", 510_000),
    AccountRow(Debit, "Debt principal", 520_000),
    AccountRow(Debit, "Debt interest", 530_000),
];

/// Other financing sources, and transfers out.
const FINANCING: [AccountRow; 5] = [
    AccountRow(Credit, "Transfers in", 600_001),
    AccountRow(Debit, "Transfers out", 610_001),
    AccountRow(Credit, "Debt proceeds", 600_002),
    AccountRow(Credit, "Leases issued", 600_004),
    AccountRow(Credit, "Sale of capital assets", 600_003),
];

fn put_revenues<F: Figures>(
    alloc: Global,
    rows: &mut Vec<Row>,
    figures: &F,
    year: u16,
    fund: u16,
    sources: &[RevenueSource],
) -> Result<(), AllocError>
    requires { 1 ≤ year }
    ensures { OnOk result
        (rows.new.items ≡ rows.old.items
        ++ spec.revenue_rows (F.sums figures.now) year fund sources.now) }
{
    for source in sources {
        if source.fund == fund {
            let revenue = revenue_in(figures, year, source);
            put_single(alloc, rows, source.name.as_str(), revenue)?;
        }
    }
    Ok(())
}

/// What a fund's revenue sources bring it in the year, in cents (GASB Statement 34, modified
/// accrual basis).
pub fn total_revenues<F: Figures>(
    figures: &F,
    year: u16,
    fund: u16,
    sources: &[RevenueSource],
) -> i128
    requires year { 1 ≤ year }
    requires few { length sources.now ≤ 256 }
    ensures value { result ≡ spec.total_revenues (F.sums figures.now) year fund sources.now }
    ensures small { unsigned_abs result ≤ 256 * 2 ^ 105 }
{
    let mut total = 0;
    for source in sources {
        if source.fund == fund {
            total += revenue_in(figures, year, source);
        }
    }
    total
}

/// What a fund spends on a function in the year.
fn spent_on<F: Figures>(figures: &F, year: u16, fund: u16, function: &Function) -> i128
    requires { 1 ≤ year }
    ensures value { result ≡ spec.spent_on (F.sums figures.now) year fund function.now }
    ensures small { unsigned_abs result < 2 ^ 105 }
{
    in_year(figures, year, fund, 500_000 + u32::from(function.id))
}

fn put_functions<F: Figures>(
    alloc: Global,
    rows: &mut Vec<Row>,
    figures: &F,
    year: u16,
    fund: u16,
    functions: &[Function],
) -> Result<(), AllocError>
    requires { 1 ≤ year }
    ensures { OnOk result
        (rows.new.items ≡ rows.old.items
        ++ spec.function_rows (F.sums figures.now) year fund functions.now) }
{
    for function in functions {
        let spent = spent_on(figures, year, fund, function);
        put_single(alloc, rows, function.name.as_str(), spent)?;
    }
    Ok(())
}

fn spent_by_functions<F: Figures>(figures: &F, year: u16, fund: u16, functions: &[Function]) -> i128
    requires year { 1 ≤ year }
    requires few { length functions.now ≤ 64 }
    ensures value { result ≡ spec.spent_by_functions (F.sums figures.now) year fund functions.now }
    ensures small { unsigned_abs result ≤ 64 * 2 ^ 105 }
{
    let mut total = 0;
    for function in functions {
        total += spent_on(figures, year, fund, function);
    }
    total
}

/// What a fund spends on capital assets and debt in the year.
fn other_expenditures<F: Figures>(figures: &F, year: u16, fund: u16) -> i128
    requires { 1 ≤ year }
    ensures value { result ≡ spec.other_expenditures (F.sums figures.now) year fund }
    ensures small { unsigned_abs result ≤ 3 * 2 ^ 105 }
{
    table_total(figures, year, Balances::FundInYear { fund }, &OUTLAY)
}

/// What a fund spends in the year, on functions, capital assets and debt, in cents (GASB Statement
/// 34, modified accrual basis).
pub fn total_expenditures<F: Figures>(
    figures: &F,
    year: u16,
    fund: u16,
    functions: &[Function],
) -> i128
    requires year { 1 ≤ year }
    requires few { length functions.now ≤ 64 }
    ensures value { result ≡ spec.total_expenditures (F.sums figures.now) year fund functions.now }
    ensures small { unsigned_abs result ≤ 67 * 2 ^ 105 }
{
    spent_by_functions(figures, year, fund, functions) + other_expenditures(figures, year, fund)
}

/// Other financing sources, which are credits, less uses.
fn total_financing<F: Figures>(figures: &F, year: u16, fund: u16) -> i128
    requires { 1 ≤ year }
    ensures value { result ≡ spec.total_financing (F.sums figures.now) year fund }
    ensures small { unsigned_abs result ≤ 5 * 2 ^ 105 }
{
    let balance = table_total(figures, year, Balances::FundInYear { fund }, &FINANCING);
    difference(0, balance)
}

/// Revenues less expenditures, and other financing sources less uses.
fn net_change<F: Figures>(figures: &F, year: u16, fund: u16) -> i128
    requires { 1 ≤ year }
    ensures { result ≡ spec.net_change (F.plan figures.now) (F.sums figures.now) year fund }
{
    let chart = figures.chart();
    let revenues = total_revenues(figures, year, fund, chart.sources());
    let expenditures = total_expenditures(figures, year, fund, chart.functions());
    let excess = difference(revenues, expenditures);
    sum(excess, total_financing(figures, year, fund))
}

/// The rows of a fund's revenues, and their total.
fn put_sources<F: Figures>(
    alloc: Global,
    rows: &mut Vec<Row>,
    figures: &F,
    year: u16,
    fund: u16,
    total: &str,
) -> Result<(), AllocError>
    requires { 1 ≤ year }
    ensures { OnOk result
        (rows.new.items ≡ rows.old.items
        ++ (spec.revenue_rows (F.sums figures.now) year fund (F.plan figures.now).sources
        ++ single total.now
        (spec.total_revenues (F.sums figures.now) year fund (F.plan figures.now).sources) ∷ [])) }
{
    let sources = figures.chart().sources();
    put_revenues(alloc, rows, figures, year, fund, sources)?;
    put_single(
        alloc,
        rows,
        total,
        total_revenues(figures, year, fund, sources),
    )?;
    Ok(())
}

/// The rows of a fund's expenditures, and their total.
fn put_expenditures<F: Figures>(
    alloc: Global,
    rows: &mut Vec<Row>,
    figures: &F,
    year: u16,
    fund: u16,
    total: &str,
) -> Result<(), AllocError>
    requires { 1 ≤ year }
    ensures { OnOk result
        (rows.new.items ≡ rows.old.items
        ++ (spec.function_rows (F.sums figures.now) year fund (F.plan figures.now).functions
        ++ (spec.outlay_rows (F.sums figures.now) year fund
        ++ single total.now
        (spec.total_expenditures (F.sums figures.now) year fund (F.plan figures.now).functions)
        ∷ []))) }
{
    let functions = figures.chart().functions();
    let of = Balances::FundInYear { fund };
    put_functions(alloc, rows, figures, year, fund, functions)?;
    put_table(alloc, rows, figures, year, of, &OUTLAY)?;
    put_single(
        alloc,
        rows,
        total,
        total_expenditures(figures, year, fund, functions),
    )?;
    Ok(())
}

/// The rows of a fund's other financing, and the net change of its balance.
fn put_changes<F: Figures>(
    alloc: Global,
    rows: &mut Vec<Row>,
    figures: &F,
    year: u16,
    fund: u16,
    net: &str,
) -> Result<(), AllocError>
    requires { 1 ≤ year }
    ensures { OnOk result
        (rows.new.items ≡ rows.old.items ++ (spec.financing_rows (F.sums figures.now) year fund
        ++ single net.now (spec.net_change (F.plan figures.now) (F.sums figures.now) year fund)
        ∷ [])) }
{
    let of = Balances::FundInYear { fund };
    put_table(alloc, rows, figures, year, of, &FINANCING)?;
    put_single(alloc, rows, net, net_change(figures, year, fund))?;
    Ok(())
}

fn put_fund<F: Figures>(
    alloc: Global,
    rows: &mut Vec<Row>,
    figures: &F,
    year: u16,
    fund: &Fund,
) -> Result<(), AllocError>
    requires { 1 ≤ year }
    ensures { OnOk result
        (rows.new.items ≡ rows.old.items
        ++ spec.fund_rows (F.plan figures.now) (F.sums figures.now) year fund.now) }
{
    put_heading(alloc, rows, fund.name.as_str())?;
    put_sources(alloc, rows, figures, year, fund.id, "Total revenues")?;
    put_expenditures(alloc, rows, figures, year, fund.id, "Total expenditures")?;
    put_changes(
        alloc,
        rows,
        figures,
        year,
        fund.id,
        "Net change in fund balance",
    )?;
    Ok(())
}

fn put_funds<F: Figures>(
    alloc: Global,
    rows: &mut Vec<Row>,
    figures: &F,
    year: u16,
    funds: &[Fund],
) -> Result<(), AllocError>
    requires { 1 ≤ year }
    ensures { OnOk result
        (rows.new.items ≡ rows.old.items
        ++ flat_map (spec.fund_rows (F.plan figures.now) (F.sums figures.now) year) funds.now) }
{
    for fund in funds {
        put_fund(alloc, rows, figures, year, fund)?;
    }
    Ok(())
}

/// The rows of the statement of revenues, expenditures and changes in fund balances (GASB Statement
/// 34), of the posts of the year alone: of each fund by id its sources, each function, and other
/// financing. Revenues and financing sources have their sign turned; transfers out stand as they
/// are, and are subtracted.
pub fn operating_statement<F: Figures>(
    alloc: Global,
    figures: &F,
    year: u16,
) -> Result<Vec<Row>, AllocError>
    requires { IsYear year }
    ensures { IfOk result
        (λ rows. rows.items ≡ spec.operating_rows (F.plan figures.now) (F.sums figures.now) year) }
{
    let mut rows = Vec::new(alloc);
    put_funds(alloc, &mut rows, figures, year, figures.chart().funds())?;
    Ok(rows)
}
