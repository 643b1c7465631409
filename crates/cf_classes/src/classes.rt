//! The classes of fund balances.
ghost use Rattle.std.specs.Prelude.{◌≡◌, ◌≤◌, ◌<◌, ◌^◌, ◌*◌, ◌++◌, ◌∷◌, [], ℕ, true, IfOk, OnOk, flat_map, length, unsigned_abs};
ghost use Rattle.cf_calls.specs.Common.{IsYear};
ghost use Rattle.cf_classes.specs.Classes as spec;
ghost use Rattle.cf_classes.specs.Classes.{ClassesSum, class_rows, class_sum, classes_rows, fund_rows};
ghost use Rattle.cf_classes.specs.Sizes.{AreSmall};
ghost use Rattle.cf_statements.specs.Sums.{single};

use crate::rows::put_rows;
use cf_calls::Row;
use cf_chart::{BalanceClass, Fund, FundType, Line};
use cf_statements::{Figures, put_heading, put_single};
use std::alloc::{AllocError, Global};

/// The classes of a fund balance, in cents (GASB Statement 54).
#[derive(Clone, Copy)]
pub struct Classes {
    pub nonspendable: i128,
    pub restricted: i128,
    pub committed: i128,
    pub assigned: i128,
    pub unassigned: i128,
}

const NONE: Classes = Classes {
    nonspendable: 0,
    restricted: 0,
    committed: 0,
    assigned: 0,
    unassigned: 0,
};

/// What a fund's balance is constrained to: what the chart states, else assigned for capital
/// projects and restricted for others.
fn class_of(fund_type: FundType, stated: Option<BalanceClass>) -> BalanceClass
    ensures { result ≡ spec.class_of fund_type stated }
{
    match stated {
        Some(class) => class,
        None => match fund_type {
            FundType::CapitalProjects => BalanceClass::Assigned,
            _ => BalanceClass::Restricted,
        },
    }
}

fn in_class(constrained: BalanceClass, balance: i128) -> Classes
    ensures { result ≡ spec.in_class constrained balance }
{
    let mut classes = NONE;
    match constrained {
        BalanceClass::Restricted => classes.restricted = balance,
        BalanceClass::Committed => classes.committed = balance,
        BalanceClass::Assigned => classes.assigned = balance,
    }
    classes
}

/// The general fund's classes: what is encumbered is assigned, up to the balance, and the rest
/// unassigned.
fn general(balance: i128, encumbered: i128) -> Classes
    requires balance { unsigned_abs balance < 2 ^ 120 }
    requires encumbered { unsigned_abs encumbered ≤ 2 ^ 124 }
    ensures { result ≡ spec.general balance encumbered }
{
    let assigned = if encumbered < balance {
        encumbered
    } else {
        balance
    };
    let mut classes = NONE;
    classes.assigned = assigned;
    classes.unassigned = balance - assigned;
    classes
}

fn above_zero(
    fund_type: FundType,
    constrained: BalanceClass,
    balance: i128,
    encumbered: i128,
) -> Classes
    requires balance { unsigned_abs balance < 2 ^ 120 }
    requires encumbered { unsigned_abs encumbered ≤ 2 ^ 124 }
    ensures { result ≡ spec.above_zero fund_type constrained balance encumbered }
{
    match fund_type {
        FundType::Permanent => {
            let mut classes = NONE;
            classes.nonspendable = balance;
            classes
        }
        FundType::General => general(balance, encumbered),
        _ => in_class(constrained, balance),
    }
}

/// The classes of a balance: five amounts that sum to it.
#[tactic(auto, using(crate::proofs::Whole::whole))]
fn classes_by(
    fund_type: FundType,
    constrained: BalanceClass,
    balance: i128,
    encumbered: i128,
) -> Classes
    requires balance { unsigned_abs balance < 2 ^ 120 }
    requires encumbered { unsigned_abs encumbered ≤ 2 ^ 124 }
    ensures value { result ≡ spec.classes_by fund_type constrained balance encumbered }
    ensures whole { class_sum (spec.classes_by fund_type constrained balance encumbered) ≡ balance }
{
    if 0 < balance {
        return above_zero(fund_type, constrained, balance, encumbered);
    }
    let mut classes = NONE;
    classes.unassigned = balance;
    classes
}

/// What a line has encumbered in the year.
fn encumbrance<F: Figures>(figures: &F, year: u16, number: u16) -> i128
    requires line { number < length (F.plan figures.now).lines }
    requires year { year < 2201 }
    requires lent { F.lends figures.now number ≡ true }
    requires small { AreSmall (F.plan figures.now) (F.sums figures.now) year }
    ensures value { result ≡ ((F.sums figures.now).numbers number year).encumbered }
    ensures small { unsigned_abs result < 2 ^ 111 }
{
    figures.numbers(number, year).encumbered
}

/// What the lines of a fund have encumbered in the year.
fn encumbered<F: Figures>(figures: &F, year: u16, fund: u16, lines: &[Line]) -> i128
    requires all { lines.now ≡ (F.plan figures.now).lines }
    requires few { length lines.now ≤ 4096 }
    requires year { year < 2201 }
    requires lent { (line : ℕ) → F.lends figures.now line ≡ true }
    requires small { AreSmall (F.plan figures.now) (F.sums figures.now) year }
    ensures value { result ≡ spec.encumbered_from (F.sums figures.now) year fund 0 lines.now }
    ensures small { unsigned_abs result ≤ 4096 * 2 ^ 111 }
{
    let mut total = 0;
    let mut number = 0;
    for line in lines {
        if line.fund == fund {
            total += encumbrance(figures, year, number);
        }
        number += 1;
    }
    total
}

/// The classes of a fund's balance through the year.
pub(crate) fn classes_of<F: Figures>(figures: &F, year: u16, fund: &Fund) -> Classes
    requires year { IsYear year }
    requires lent { (line : ℕ) → F.lends figures.now line ≡ true }
    requires small { AreSmall (F.plan figures.now) (F.sums figures.now) year }
    ensures value { result
        ≡ spec.classes_of (F.plan figures.now) (F.sums figures.now) year fund.now }
    ensures whole { class_sum
        (spec.classes_of (F.plan figures.now) (F.sums figures.now) year fund.now)
        ≡ (F.sums figures.now).fund_balance year fund.now.id }
{
    let lines = figures.chart().lines();
    let encumbered = encumbered(figures, year, fund.id, lines);
    classes_by(
        fund.fund_type,
        class_of(fund.fund_type, fund.balance_class),
        figures.fund_balance(year, fund.id),
        encumbered,
    )
}

fn put_fund<F: Figures>(
    alloc: Global,
    rows: &mut Vec<Row>,
    figures: &F,
    year: u16,
    fund: &Fund,
) -> Result<(), AllocError>
    requires year { IsYear year }
    requires lent { (line : ℕ) → F.lends figures.now line ≡ true }
    requires small { AreSmall (F.plan figures.now) (F.sums figures.now) year }
    ensures { OnOk result
        (rows.new.items ≡ rows.old.items
        ++ fund_rows (F.plan figures.now) (F.sums figures.now) year fund.now) }
{
    let classes = classes_of(figures, year, fund);
    put_heading(alloc, rows, fund.name.as_str())?;
    put_classes(alloc, rows, &classes, figures.fund_balance(year, fund.id))
}

fn put_classes(
    alloc: Global,
    rows: &mut Vec<Row>,
    classes: &Classes,
    balance: i128,
) -> Result<(), AllocError>
    ensures { OnOk result (rows.new.items ≡ rows.old.items ++ class_rows classes.now balance) }
{
    put_rows(
        alloc,
        rows,
        &[
            ("Nonspendable", classes.nonspendable),
            ("Restricted", classes.restricted),
            ("Committed", classes.committed),
            ("Assigned", classes.assigned),
            ("Unassigned", classes.unassigned),
            ("Fund balance", balance),
        ],
    )
}

fn put_funds<F: Figures>(
    alloc: Global,
    rows: &mut Vec<Row>,
    figures: &F,
    year: u16,
    funds: &[Fund],
) -> Result<(), AllocError>
    requires year { IsYear year }
    requires lent { (line : ℕ) → F.lends figures.now line ≡ true }
    requires small { AreSmall (F.plan figures.now) (F.sums figures.now) year }
    ensures { OnOk result
        (rows.new.items ≡ rows.old.items
        ++ flat_map (fund_rows (F.plan figures.now) (F.sums figures.now) year) funds.now) }
{
    for fund in funds {
        put_fund(alloc, rows, figures, year, fund)?;
    }
    Ok(())
}

fn put_total<F: Figures>(
    alloc: Global,
    rows: &mut Vec<Row>,
    figures: &F,
    year: u16,
    label: &str,
) -> Result<(), AllocError>
    requires { IsYear year }
    ensures { OnOk result
        (rows.new.items ≡ rows.old.items ++ single label.now ((F.sums figures.now).total year)
        ∷ []) }
{
    put_single(alloc, rows, label, figures.total(year))
}

/// The rows of the classes of fund balances (GASB Statement 54), through the year, in cents: of
/// each fund by id its five classes, which sum to its balance, and its balance; at the end the
/// total of all. It fails exactly for want of memory.
#[tactic(auto, using(crate::proofs::Whole::classes_sum))]
pub fn fund_classes<F: Figures>(
    alloc: Global,
    figures: &F,
    year: u16,
) -> Result<Vec<Row>, AllocError>
    requires year { IsYear year }
    requires lent { (line : ℕ) → F.lends figures.now line ≡ true }
    requires small { AreSmall (F.plan figures.now) (F.sums figures.now) year }
    ensures rows { IfOk result
        (λ rows. rows.items ≡ classes_rows (F.plan figures.now) (F.sums figures.now) year) }
    ensures whole { ClassesSum (F.plan figures.now) (F.sums figures.now) year }
{
    let mut rows = Vec::new(alloc);
    put_funds(alloc, &mut rows, figures, year, figures.chart().funds())?;
    put_total(alloc, &mut rows, figures, year, "Total fund balances")?;
    Ok(rows)
}
