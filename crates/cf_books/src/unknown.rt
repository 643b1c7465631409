//! What the words name that a chart doesn't have.

ghost use Rattle.std.specs.Prelude.{◌≡◌};
ghost use Rattle.cf_books.specs.Unknown as spec;

use cf_base::{Day, LAST_YEAR, fiscal_year, month_of};
use cf_books_words::{LedgerFilter, PostFilter};
use cf_chart::Chart;

/// What of a chart a number names.
#[derive(Clone, Copy)]
pub enum NameKind {
    Fund,
    Department,
    /// A control line.
    Line,
    /// An object of expenditure.
    Object,
    /// A revenue source.
    Source,
}

/// What the words name that a chart doesn't have.
#[derive(Clone, Copy)]
pub enum Unknown {
    /// The chart has no row of this kind with this number: the id of a fund, department, object or
    /// source, or the number of a control line.
    Name { kind: NameKind, number: u16 },
    /// The day lies before the chart's first fiscal year.
    Early { day: Day },
}

/// Whether a chart has a row of this kind with this number.
fn has_name(chart: &Chart, kind: NameKind, number: u16) -> bool
    ensures { result ≡ spec.has_name chart.now kind number }
{
    match kind {
        NameKind::Fund => chart.fund(number).is_some(),
        NameKind::Department => chart.dept(number).is_some(),
        NameKind::Line => chart.line(number).is_some(),
        NameKind::Object => chart.object(number).is_some(),
        NameKind::Source => chart.source(number).is_some(),
    }
}

/// The number that is given, where the chart has no row of it.
fn missing(chart: &Chart, kind: NameKind, number: Option<u16>) -> Option<Unknown>
    ensures { result ≡ spec.missing chart.now kind number }
{
    match number {
        None => None,
        Some(number) => {
            if has_name(chart, kind, number) {
                None
            } else {
                Some(Unknown::Name { kind, number })
            }
        }
    }
}

/// Whether a day lies before a chart's first fiscal year.
fn is_early(chart: &Chart, day: Day) -> bool
    ensures { result ≡ spec.is_early chart.now day }
{
    let first = chart.first_year();
    day.year <= LAST_YEAR && fiscal_year(chart.first_month(), month_of(day)) < first
}

/// The day that is given, where it lies before the chart's first fiscal year.
pub fn early(chart: &Chart, day: Option<Day>) -> Option<Unknown>
    ensures { result ≡ spec.early chart.now day }
{
    match day {
        None => None,
        Some(day) => {
            if is_early(chart, day) {
                Some(Unknown::Early { day })
            } else {
                None
            }
        }
    }
}

/// The fund of a chart that posts are wanted of: 0 is the city as a whole.
fn row_fund(fund: Option<u16>) -> Option<u16>
    ensures { result ≡ spec.row_fund fund }
{
    match fund {
        None => None,
        Some(id) => { if id == 0 { None } else { Some(id) } }
    }
}

/// What the words of `posts` name that the chart doesn't have.
pub fn unknown_in_posts(chart: &Chart, filter: PostFilter, through: Option<Day>) -> Option<Unknown>
    ensures { result ≡ spec.unknown_in_posts chart.now filter through }
{
    missing(chart, NameKind::Fund, row_fund(filter.fund)).or(early(chart, through))
}

/// The fund, department or object of a filter that the chart doesn't have.
fn unknown_account(chart: &Chart, filter: LedgerFilter) -> Option<Unknown>
    ensures { result ≡ spec.unknown_account chart.now filter }
{
    let fund = missing(chart, NameKind::Fund, filter.fund);
    let dept = missing(chart, NameKind::Department, filter.dept);
    let object = missing(chart, NameKind::Object, filter.object);
    fund.or(dept.or(object))
}

/// What the words of `ledger` name that the chart doesn't have. Of several the first is told, in
/// the order of fund, department, object, line, source, first day and last day.
pub fn unknown_in_ledger(chart: &Chart, filter: LedgerFilter) -> Option<Unknown>
    ensures { result ≡ spec.unknown_in_ledger chart.now filter }
{
    let account = unknown_account(chart, filter);
    let line = missing(chart, NameKind::Line, filter.line);
    let source = missing(chart, NameKind::Source, filter.source);
    let days = early(chart, filter.from).or(early(chart, filter.through));
    account.or(line.or(source.or(days)))
}
