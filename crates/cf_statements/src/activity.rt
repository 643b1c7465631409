//! What a program costs, and what revenues it has.
ghost use Rattle.std.specs.Prelude.{◌≡◌, ◌<◌, ◌≤◌, ◌^◌, ◌*◌, length, unsigned_abs};
ghost use Rattle.cf_statements.specs.Activities as spec;
ghost use Rattle.cf_statements.specs.Activities.{AreWithin};

use crate::amounts::{difference, sum};
use crate::figures::{Figures, gov_in};
use cf_chart::{Function, RevenueKind, RevenueSource};

/// The cost of a program, and its program revenues (GASB Statement 34: net cost format), in cents.
#[derive(Clone, Copy)]
pub struct Activity {
    pub expenses: i128,
    /// Charges for services.
    pub charges: i128,
    /// Operating grants and contributions.
    pub operating_grants: i128,
    /// Capital grants and contributions, donated capital assets among them.
    pub capital_grants: i128,
}

/// The revenues of a program, which is a function, and the general ones (GASB Statement 34).
#[derive(Clone, Copy)]
pub enum RevenueClass {
    Charges { function: u16 },
    OperatingGrants { function: u16 },
    CapitalGrants { function: u16 },
    General,
}

/// Whether a source of this kind is of this class.
pub(crate) fn is_in(class: RevenueClass, kind: RevenueKind) -> bool
    ensures { result ≡ spec.is_in class kind }
{
    match class {
        RevenueClass::Charges { function } => match kind {
            RevenueKind::Charges { function: own } => own == function,
            _ => false,
        },
        RevenueClass::OperatingGrants { function } => match kind {
            RevenueKind::OperatingGrant { function: own } => own == function,
            _ => false,
        },
        RevenueClass::CapitalGrants { function } => match kind {
            RevenueKind::CapitalGrant { function: own } => own == function,
            _ => false,
        },
        RevenueClass::General => match kind {
            RevenueKind::PropertyTax | RevenueKind::Tax | RevenueKind::General => true,
            _ => false,
        },
    }
}

/// The revenue of a source in the year, on the accrual basis.
pub(crate) fn revenue<F: Figures>(figures: &F, year: u16, source: &RevenueSource) -> i128
    requires { 1 ≤ year }
    ensures value { result ≡ spec.revenue (F.sums figures.now) year source.now }
    ensures small { unsigned_abs result < 2 ^ 105 }
{
    -gov_in(figures, year, 400_000 + u32::from(source.id))
}

/// The revenues of a class in the year.
pub(crate) fn revenues<F: Figures>(
    figures: &F,
    year: u16,
    class: RevenueClass,
    sources: &[RevenueSource],
) -> i128
    requires year { 1 ≤ year }
    requires few { length sources.now ≤ 256 }
    ensures value { result ≡ spec.revenues (F.sums figures.now) year class sources.now }
    ensures small { unsigned_abs result ≤ 256 * 2 ^ 105 }
{
    let mut total = 0;
    for source in sources {
        if is_in(class, source.kind) {
            total += revenue(figures, year, source);
        }
    }
    total
}

/// The capital grants of a function with the assets that were donated to it.
fn capital_grants<F: Figures>(
    figures: &F,
    year: u16,
    sources: &[RevenueSource],
    function: u16,
) -> i128
    requires year { 1 ≤ year }
    requires few { length sources.now ≤ 256 }
    ensures value { result
        ≡ (spec.activity_of (F.sums figures.now) year sources.now function).capital_grants }
    ensures small { unsigned_abs result ≤ 257 * 2 ^ 105 }
{
    let donated = -gov_in(figures, year, 450_000 + u32::from(function));
    revenues(
        figures,
        year,
        RevenueClass::CapitalGrants { function },
        sources,
    ) + donated
}

/// A function's cost and revenues in the year.
pub(crate) fn activity_of<F: Figures>(
    figures: &F,
    year: u16,
    sources: &[RevenueSource],
    function: u16,
) -> Activity
    requires year { 1 ≤ year }
    requires few { length sources.now ≤ 256 }
    ensures value { result ≡ spec.activity_of (F.sums figures.now) year sources.now function }
    ensures small { AreWithin (257 * 2 ^ 105) result }
{
    Activity {
        expenses: gov_in(figures, year, 500_000 + u32::from(function)),
        charges: revenues(figures, year, RevenueClass::Charges { function }, sources),
        operating_grants: revenues(
            figures,
            year,
            RevenueClass::OperatingGrants { function },
            sources,
        ),
        capital_grants: capital_grants(figures, year, sources, function),
    }
}

/// The interest of the year, which is of no function.
pub(crate) fn interest_of<F: Figures>(figures: &F, year: u16) -> Activity
    requires { 1 ≤ year }
    ensures value { result ≡ spec.interest_of (F.sums figures.now) year }
    ensures small { AreWithin (257 * 2 ^ 105) result }
{
    Activity {
        expenses: gov_in(figures, year, 530_000),
        charges: 0,
        operating_grants: 0,
        capital_grants: 0,
    }
}

/// Two activities together.
fn plus(one: Activity, other: Activity) -> Activity
    requires one { AreWithin (2 ^ 120) one }
    requires other { AreWithin (2 ^ 120) other }
    ensures { result ≡ spec.plus one other }
{
    Activity {
        expenses: sum(one.expenses, other.expenses),
        charges: sum(one.charges, other.charges),
        operating_grants: sum(one.operating_grants, other.operating_grants),
        capital_grants: sum(one.capital_grants, other.capital_grants),
    }
}

/// All functions' cost and revenues in the year.
fn of_functions<F: Figures>(
    figures: &F,
    year: u16,
    sources: &[RevenueSource],
    functions: &[Function],
) -> Activity
    requires year { 1 ≤ year }
    requires few { length sources.now ≤ 256 }
    requires few_functions { length functions.now ≤ 64 }
    ensures value { result ≡ spec.of_functions (F.sums figures.now) year sources.now functions.now }
    ensures small { AreWithin (64 * (257 * 2 ^ 105)) result }
{
    let mut total = Activity {
        expenses: 0,
        charges: 0,
        operating_grants: 0,
        capital_grants: 0,
    };
    for function in functions {
        total = plus(total, activity_of(figures, year, sources, function.id));
    }
    total
}

/// The cost and the program revenues of the whole city in the year.
pub(crate) fn total_activity<F: Figures>(figures: &F, year: u16) -> Activity
    requires { 1 ≤ year }
    ensures value { result ≡ spec.total_activity (F.plan figures.now) (F.sums figures.now) year }
    ensures small { AreWithin (65 * (257 * 2 ^ 105)) result }
{
    let chart = figures.chart();
    let functions = of_functions(figures, year, chart.sources(), chart.functions());
    plus(functions, interest_of(figures, year))
}

fn program_revenues(activity: Activity) -> i128
    requires { AreWithin (2 ^ 120) activity }
    ensures value { result ≡ spec.program_revenues activity }
    ensures small { unsigned_abs result ≤ 3 * 2 ^ 120 }
{
    let grants = sum(activity.operating_grants, activity.capital_grants);
    sum(activity.charges, grants)
}

/// What the program revenues leave of the expenses.
pub(crate) fn net_expense(activity: Activity) -> i128
    requires { AreWithin (2 ^ 120) activity }
    ensures value { result ≡ spec.net_expense activity }
    ensures small { unsigned_abs result ≤ 4 * 2 ^ 120 }
{
    difference(activity.expenses, program_revenues(activity))
}
