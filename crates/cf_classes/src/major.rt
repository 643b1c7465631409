//! Major funds.
ghost use Rattle.std.specs.Prelude.{◌≡◌, ◌≤◌, ◌<◌, ◌^◌, ◌*◌, ◌++◌, IfOk, OnOk, flat_map, length, unsigned_abs};
ghost use Rattle.cf_calls.specs.Common.{IsYear};
ghost use Rattle.cf_chart.specs.Common.{is_general as is_general_fund};
ghost use Rattle.cf_classes.specs.Major as spec;
ghost use Rattle.cf_classes.specs.Major.{AreWithin, FundsSum, element_rows, fund_rows, major_rows};

use crate::elements::{Elements, elements_of, less, plus};
use crate::rows::put_rows;
use cf_calls::Row;
use cf_chart::{Fund, FundType};
use cf_statements::{Figures, put_heading};
use std::alloc::{AllocError, Global};

const NOTHING: Elements = Elements {
    assets: 0,
    liabilities: 0,
    revenues: 0,
    expenditures: 0,
};

/// Whether a value is at least a tenth of a total that is above zero.
#[tactic(auto, unfolding(crate::specs::Major::is_tenth))]
fn is_tenth(value: i128, total: i128) -> bool
    requires { unsigned_abs value ≤ 2 ^ 114 }
    ensures { result ≡ spec.is_tenth value total }
{
    0 < total && total <= 10 * value
}

fn stock_has_tenth(one: &Elements, total: &Elements) -> bool
    requires { AreWithin (2 ^ 114) one.now }
    ensures { result ≡ spec.stock_has_tenth one.now total.now }
{
    is_tenth(one.assets, total.assets) || is_tenth(one.liabilities, total.liabilities)
}

fn flow_has_tenth(one: &Elements, total: &Elements) -> bool
    requires { AreWithin (2 ^ 114) one.now }
    ensures { result ≡ spec.flow_has_tenth one.now total.now }
{
    is_tenth(one.revenues, total.revenues) || is_tenth(one.expenditures, total.expenditures)
}

fn has_tenth(one: &Elements, total: &Elements) -> bool
    requires { AreWithin (2 ^ 114) one.now }
    ensures { result ≡ spec.has_tenth one.now total.now }
{
    stock_has_tenth(one, total) || flow_has_tenth(one, total)
}

fn is_general(fund: &Fund) -> bool
    ensures { result ≡ is_general_fund fund.now }
{
    match fund.fund_type {
        FundType::General => true,
        FundType::SpecialRevenue => false,
        FundType::CapitalProjects => false,
        FundType::DebtService => false,
        FundType::Permanent => false,
    }
}

/// Whether a fund of these elements is major.
fn is_major(fund: &Fund, one: &Elements, total: &Elements) -> bool
    requires { AreWithin (2 ^ 114) one.now }
    ensures { result ≡ spec.is_major_by fund.now one.now total.now }
{
    is_general(fund) || has_tenth(one, total)
}

/// The elements of these funds together.
fn total_of<F: Figures>(figures: &F, year: u16, funds: &[Fund]) -> Elements
    requires year { IsYear year }
    requires few { length funds.now ≤ 64 }
    ensures value { result
        ≡ spec.over (spec.elements_of (F.plan figures.now) (F.sums figures.now) year) funds.now }
    ensures small { AreWithin (64 * 2 ^ 114) result }
{
    let mut total = NOTHING;
    for fund in funds {
        total = plus(total, elements_of(figures, year, fund));
    }
    total
}

/// The elements of a fund where it is major, and else nothing.
fn major_part<F: Figures>(figures: &F, year: u16, fund: &Fund, total: &Elements) -> Elements
    requires { IsYear year }
    ensures value { result
        ≡ spec.major_part (F.plan figures.now) (F.sums figures.now) year total.now fund.now }
    ensures small { AreWithin (2 ^ 114) result }
{
    let one = elements_of(figures, year, fund);
    if is_major(fund, &one, total) {
        one
    } else {
        NOTHING
    }
}

/// The elements of the major ones of these funds together.
fn major_of<F: Figures>(figures: &F, year: u16, funds: &[Fund], total: &Elements) -> Elements
    requires year { IsYear year }
    requires few { length funds.now ≤ 64 }
    ensures value { result
        ≡ spec.over (spec.major_part (F.plan figures.now) (F.sums figures.now) year total.now)
        funds.now }
    ensures small { AreWithin (64 * 2 ^ 114) result }
{
    let mut sum = NOTHING;
    for fund in funds {
        sum = plus(sum, major_part(figures, year, fund, total));
    }
    sum
}

fn put_elements(
    alloc: Global,
    rows: &mut Vec<Row>,
    name: &str,
    one: &Elements,
) -> Result<(), AllocError>
    ensures { OnOk result (rows.new.items ≡ rows.old.items ++ element_rows name.now one.now) }
{
    put_heading(alloc, rows, name)?;
    put_amounts(alloc, rows, one)
}

fn put_amounts(alloc: Global, rows: &mut Vec<Row>, one: &Elements) -> Result<(), AllocError>
    ensures { OnOk result (rows.new.items ≡ rows.old.items ++ spec.amount_rows one.now) }
{
    put_rows(
        alloc,
        rows,
        &[
            ("Assets", one.assets),
            ("Liabilities", one.liabilities),
            ("Revenues", one.revenues),
            ("Expenditures", one.expenditures),
        ],
    )
}

fn put_fund<F: Figures>(
    alloc: Global,
    rows: &mut Vec<Row>,
    figures: &F,
    year: u16,
    fund: &Fund,
    total: &Elements,
) -> Result<(), AllocError>
    requires { IsYear year }
    ensures { OnOk result
        (rows.new.items ≡ rows.old.items
        ++ fund_rows (F.plan figures.now) (F.sums figures.now) year total.now fund.now) }
{
    let one = elements_of(figures, year, fund);
    if is_major(fund, &one, total) {
        return put_elements(alloc, rows, fund.name.as_str(), &one);
    }
    Ok(())
}

fn put_funds<F: Figures>(
    alloc: Global,
    rows: &mut Vec<Row>,
    figures: &F,
    year: u16,
    funds: &[Fund],
    total: &Elements,
) -> Result<(), AllocError>
    requires { IsYear year }
    ensures { OnOk result
        (rows.new.items ≡ rows.old.items
        ++ flat_map (fund_rows (F.plan figures.now) (F.sums figures.now) year total.now)
        funds.now) }
{
    for fund in funds {
        put_fund(alloc, rows, figures, year, fund, total)?;
    }
    Ok(())
}

fn put_ends(
    alloc: Global,
    rows: &mut Vec<Row>,
    others: &Elements,
    total: &Elements,
) -> Result<(), AllocError>
    ensures { OnOk result (rows.new.items ≡ rows.old.items ++ spec.end_rows others.now total.now) }
{
    put_elements(alloc, rows, "Other governmental funds", others)?;
    put_elements(alloc, rows, "Total", total)
}

fn rows_by<F: Figures>(
    alloc: Global,
    figures: &F,
    year: u16,
    total: &Elements,
    others: &Elements,
    funds: &[Fund],
) -> Result<Vec<Row>, AllocError>
    requires { IsYear year }
    ensures { IfOk result
        (λ rows. rows.items
        ≡ spec.rows_by (F.plan figures.now)
        (F.sums figures.now) year total.now others.now funds.now) }
{
    let mut rows = Vec::new(alloc);
    put_funds(alloc, &mut rows, figures, year, funds, total)?;
    put_ends(alloc, &mut rows, others, total)?;
    Ok(rows)
}

/// The elements of all funds, and of those that aren't major together.
fn totals<F: Figures>(figures: &F, year: u16, funds: &[Fund]) -> (Elements, Elements)
    requires year { IsYear year }
    requires few { length funds.now ≤ 64 }
    requires all { funds.now ≡ (F.plan figures.now).funds }
    ensures total { result.0 ≡ spec.total_of (F.plan figures.now) (F.sums figures.now) year }
    ensures others { result.1 ≡ spec.others_of (F.plan figures.now) (F.sums figures.now) year }
{
    let total = total_of(figures, year, funds);
    let major = major_of(figures, year, funds, &total);
    (total, less(total, major))
}

/// The rows of the major funds (GASB Statement 34), in cents: the assets and the liabilities with
/// deferred inflows through the year, and the revenues and expenditures of the year, of each major
/// fund by id, then of the other funds together, and of all. The general fund is major, and each
/// other that has a tenth of some element of all funds, where that is above zero. It fails exactly
/// for want of memory.
pub fn major_funds<F: Figures>(
    alloc: Global,
    figures: &F,
    year: u16,
) -> Result<Vec<Row>, AllocError>
    requires { IsYear year }
    ensures rows { IfOk result
        (λ rows. rows.items ≡ major_rows (F.plan figures.now) (F.sums figures.now) year) }
    ensures whole { FundsSum (F.plan figures.now) (F.sums figures.now) year }
{
    let funds = figures.chart().funds();
    let (total, others) = totals(figures, year, funds);
    rows_by(alloc, figures, year, &total, &others, funds)
}
