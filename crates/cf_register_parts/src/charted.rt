//! What a chart says of an object, a department, a revenue source and a fund.

ghost use Rattle.std.specs.Prelude.{◌≡◌};
ghost use Rattle.cf_chart.specs.Common.{fund_at, object_at, source_at, is_capital_kind, is_spending_kind};
ghost use Rattle.cf_model.specs.Assets as assets;
ghost use Rattle.cf_model.specs.Charted as charted;
ghost use Rattle.cf_model.specs.OrderItems as order_items;
ghost use Rattle.cf_model.specs.Receivables as receivables;
ghost use Rattle.cf_model.specs.Rules as rules;

use cf_calls::items::AccountItem;
use cf_chart::{Chart, ObjectKind, Policy};

/// The function that a department works for.
pub fn function_of(chart: &Chart, dept: u16) -> u16
    ensures { result ≡ charted.function_of chart.now dept }
{
    match chart.dept(dept) {
        Some(row) => row.function,
        None => 0,
    }
}

/// The fund of a revenue source.
pub fn fund_of(chart: &Chart, source: u16) -> u16
    ensures { result ≡ charted.fund_of chart.now source }
{
    match chart.source(source) {
        Some(row) => row.fund,
        None => 0,
    }
}

/// The availability period of a revenue source, in days.
pub fn window_of(chart: &Chart, source: u16) -> u16
    ensures { result ≡ receivables.window_if (source_at chart.now source) }
{
    match chart.source(source) {
        Some(row) => row.window,
        None => 0,
    }
}

/// Whether a fund carries its open encumbrances into the year after (GFOA Blue Book).
pub fn carries(chart: &Chart, fund: u16) -> bool
    ensures { result ≡ order_items.carries_fund (fund_at chart.now fund) }
{
    match chart.fund(fund) {
        Some(row) => matches!(row.policy, Policy::Carry),
        None => false,
    }
}

/// Whether an account has a line in a fiscal year.
pub fn has_line(chart: &Chart, account: AccountItem, year: u16) -> bool
    ensures { result ≡ order_items.has_line chart.now account year }
{
    chart
        .line_of(account.fund, account.dept, account.object, year)
        .is_some()
}

fn is_capital_kind(kind: &ObjectKind) -> bool
    ensures { result ≡ is_capital_kind kind.now }
{
    matches!(kind, ObjectKind::Capital { .. })
}

/// Whether the chart has an object, and it is of capital outlay, so that what is bought on it is a
/// capital asset.
pub fn is_capital(chart: &Chart, object: u16) -> bool
    ensures { result ≡ charted.is_capital (object_at chart.now object) }
{
    match chart.object(object) {
        Some(row) => is_capital_kind(&row.kind),
        None => false,
    }
}

/// Whether the chart has an object, and it is of current spending.
pub fn is_current(chart: &Chart, object: u16) -> bool
    ensures { result ≡ charted.is_current (object_at chart.now object) }
{
    match chart.object(object) {
        Some(row) => matches!(row.kind, ObjectKind::Current),
        None => false,
    }
}

/// Whether the chart has an object, and it is of principal.
pub fn is_principal(chart: &Chart, object: u16) -> bool
    ensures { result ≡ charted.is_principal (object_at chart.now object) }
{
    match chart.object(object) {
        Some(row) => matches!(row.kind, ObjectKind::Principal),
        None => false,
    }
}

/// Whether the chart has an object, and it is of interest.
pub fn is_interest(chart: &Chart, object: u16) -> bool
    ensures { result ≡ charted.is_interest (object_at chart.now object) }
{
    match chart.object(object) {
        Some(row) => matches!(row.kind, ObjectKind::Interest),
        None => false,
    }
}

fn is_spending_kind(kind: &ObjectKind) -> bool
    ensures { result ≡ is_spending_kind kind.now }
{
    match kind {
        ObjectKind::Current | ObjectKind::Capital { .. } => true,
        ObjectKind::Principal | ObjectKind::Interest => false,
    }
}

/// Whether the chart has an object, and departments spend on it: it is current or capital.
pub fn is_spending(chart: &Chart, object: u16) -> bool
    ensures { result ≡ rules.is_spending (object_at chart.now object) }
{
    match chart.object(object) {
        Some(row) => is_spending_kind(&row.kind),
        None => false,
    }
}

fn life_of_kind(kind: ObjectKind) -> u16
    ensures { result ≡ assets.life_of_kind kind }
{
    match kind {
        ObjectKind::Capital { life } => life,
        ObjectKind::Current | ObjectKind::Principal | ObjectKind::Interest => 0,
    }
}

/// The life of an asset on an object, in months: 0 where the object isn't capital.
pub fn life_of(chart: &Chart, object: u16) -> u16
    ensures { result ≡ assets.life_of chart.now object }
{
    match chart.object(object) {
        Some(row) => life_of_kind(row.kind),
        None => 0,
    }
}
