//! The statement of activities.
ghost use Rattle.std.specs.Prelude.{◌≡◌, ◌<◌, ◌≤◌, ◌^◌, ◌++◌, ◌∷◌, [], IfOk, OnOk, length, unsigned_abs};
ghost use Rattle.cf_calls.specs.Common.{IsYear};
ghost use Rattle.cf_statements.specs.Activities as spec;
ghost use Rattle.cf_statements.specs.Activities.{AreWithin};
ghost use Rattle.cf_statements.specs.Sums.{single};

use crate::activity::{
    Activity, RevenueClass, activity_of, interest_of, is_in, net_expense, revenue, revenues,
    total_activity,
};
use crate::amounts::{difference, sum};
use crate::figures::{Figures, gov_in};
use crate::rows::{put_row, put_single};
use cf_calls::Row;
use cf_chart::{Function, RevenueSource};
use std::alloc::{AllocError, Global};

fn put_activity(
    alloc: Global,
    rows: &mut Vec<Row>,
    label: &str,
    activity: Activity,
) -> Result<(), AllocError>
    requires { AreWithin (2 ^ 120) activity }
    ensures { OnOk result
        (rows.new.items ≡ rows.old.items ++ spec.activity_row label.now activity ∷ []) }
{
    let amounts = [
        activity.expenses,
        activity.charges,
        activity.operating_grants,
        activity.capital_grants,
        net_expense(activity),
    ];
    put_row(alloc, rows, label, amounts.as_slice())
}

fn put_functions<F: Figures>(
    alloc: Global,
    rows: &mut Vec<Row>,
    figures: &F,
    year: u16,
    sources: &[RevenueSource],
    functions: &[Function],
) -> Result<(), AllocError>
    requires year { 1 ≤ year }
    requires few { length sources.now ≤ 256 }
    ensures { OnOk result
        (rows.new.items ≡ rows.old.items
        ++ spec.function_rows (F.sums figures.now) year sources.now functions.now) }
{
    for function in functions {
        let activity = activity_of(figures, year, sources, function.id);
        put_activity(alloc, rows, function.name.as_str(), activity)?;
    }
    Ok(())
}

fn put_general<F: Figures>(
    alloc: Global,
    rows: &mut Vec<Row>,
    figures: &F,
    year: u16,
    sources: &[RevenueSource],
) -> Result<(), AllocError>
    requires { 1 ≤ year }
    ensures { OnOk result
        (rows.new.items ≡ rows.old.items
        ++ spec.general_rows (F.sums figures.now) year sources.now) }
{
    for source in sources {
        if is_in(RevenueClass::General, source.kind) {
            let revenue = revenue(figures, year, source);
            put_single(alloc, rows, source.name.as_str(), revenue)?;
        }
    }
    Ok(())
}

/// What sales of capital assets brought above their book value.
fn gains<F: Figures>(figures: &F, year: u16) -> i128
    requires { 1 ≤ year }
    ensures value { result ≡ spec.gains (F.sums figures.now) year }
    ensures small { unsigned_abs result < 2 ^ 105 }
{
    -gov_in(figures, year, 460_000)
}

/// The change in net position: general revenues and gains, less what the activities cost on the
/// whole.
fn change<F: Figures>(figures: &F, year: u16) -> i128
    requires { 1 ≤ year }
    ensures { result ≡ spec.change (F.plan figures.now) (F.sums figures.now) year }
{
    let general = revenues(
        figures,
        year,
        RevenueClass::General,
        figures.chart().sources(),
    );
    let revenues = sum(general, gains(figures, year));
    difference(revenues, net_expense(total_activity(figures, year)))
}

/// The rows of the programs, of interest, and of their total.
fn put_programs<F: Figures>(
    alloc: Global,
    rows: &mut Vec<Row>,
    figures: &F,
    year: u16,
    interest: &str,
    total: &str,
) -> Result<(), AllocError>
    requires { 1 ≤ year }
    ensures { OnOk result
        (rows.new.items ≡ rows.old.items
        ++ (spec.function_rows (F.sums figures.now) year (F.plan figures.now).sources
        (F.plan figures.now).functions
        ++ (spec.activity_row interest.now (spec.interest_of (F.sums figures.now) year)
        ∷ spec.activity_row total.now
        (spec.total_activity (F.plan figures.now) (F.sums figures.now) year) ∷ []))) }
{
    let chart = figures.chart();
    put_functions(
        alloc,
        rows,
        figures,
        year,
        chart.sources(),
        chart.functions(),
    )?;
    put_activity(alloc, rows, interest, interest_of(figures, year))?;
    put_activity(alloc, rows, total, total_activity(figures, year))?;
    Ok(())
}

/// The rows of the general revenues, of gains, and of the change in net position.
fn put_rest<F: Figures>(
    alloc: Global,
    rows: &mut Vec<Row>,
    figures: &F,
    year: u16,
    gain: &str,
    net: &str,
) -> Result<(), AllocError>
    requires { 1 ≤ year }
    ensures { OnOk result
        (rows.new.items ≡ rows.old.items
        ++ (spec.general_rows (F.sums figures.now) year (F.plan figures.now).sources
        ++ (single gain.now (spec.gains (F.sums figures.now) year)
        ∷ single net.now (spec.change (F.plan figures.now) (F.sums figures.now) year) ∷ []))) }
{
    put_general(alloc, rows, figures, year, figures.chart().sources())?;
    put_single(alloc, rows, gain, gains(figures, year))?;
    put_single(alloc, rows, net, change(figures, year))?;
    Ok(())
}

/// The rows of the statement of activities (GASB Statement 34), of the posts of the year alone:
/// expenses, charges, operating grants, capital grants with donated assets, and net expense of each
/// function by id, of interest, and of all; then each general revenue by id, gains on sales, and
/// the change in net position.
pub fn statement_of_activities<F: Figures>(
    alloc: Global,
    figures: &F,
    year: u16,
) -> Result<Vec<Row>, AllocError>
    requires { IsYear year }
    ensures { IfOk result
        (λ rows. rows.items ≡ spec.activities_rows (F.plan figures.now) (F.sums figures.now) year) }
{
    let mut rows = Vec::new(alloc);
    put_programs(alloc, &mut rows, figures, year, "Interest on debt", "Total")?;
    put_rest(
        alloc,
        &mut rows,
        figures,
        year,
        "Gain on sales",
        "Change in net position",
    )?;
    Ok(rows)
}
