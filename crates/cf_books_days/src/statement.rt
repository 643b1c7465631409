//! A statement of a fiscal year, made of the entries that are dated through a day.

ghost use Rattle.std.specs.Prelude.{◌≡◌, true, IfOk};
ghost use Rattle.std.specs.List.{AllByRecursion};
ghost use Rattle.cf_journal_book.specs.Watching.{all_posted};
ghost use Rattle.cf_books_lists.specs.Statement.{statement_text};
ghost use Rattle.cf_calls.specs.Common.{IsYear};
ghost use Rattle.cf_books_days.specs.Gathered.{IsOf};
ghost use Rattle.cf_books_days.specs.Statement as spec;
ghost use Rattle.cf_books_days.specs.Through.{is_through, sums_through};

use crate::gathered::Dated;
use crate::sums::{DaySums, day_sums};
use cf_base::{Day, Kind};
use cf_books_lists::{Layout, text_of_rows};
use cf_calls::Row;
use cf_office_history::Rest;
use cf_run_words::ReportKind;
use cf_statements::{
    balance_sheet, comparison, net_position, operating_statement, statement_of_activities,
};
use std::alloc::{AllocError, Global};

/// A statement that is made of sums alone, so that it can be made of the entries through a day.
#[derive(Clone, Copy)]
pub enum DatedKind {
    Balance,
    Operating,
    Budget,
    Position,
    Activities,
}

impl DatedKind {
    /// The statement as `report` names it.
    pub fn report_kind(self) -> ReportKind
        ensures { result ≡ spec.report_kind self }
    {
        match self {
            DatedKind::Balance => ReportKind::Look(Kind::Balance),
            DatedKind::Operating => ReportKind::Look(Kind::Operating),
            DatedKind::Budget => ReportKind::Look(Kind::Budget),
            DatedKind::Position => ReportKind::Look(Kind::Position),
            DatedKind::Activities => ReportKind::Look(Kind::Activities),
        }
    }
}

/// The rows of a statement of a fiscal year.
fn rows_of(
    alloc: Global,
    sums: &DaySums,
    year: u16,
    kind: DatedKind,
) -> Result<Vec<Row>, AllocError>
    requires { IsYear year }
    ensures { IfOk result (λ rows. rows.items ≡ spec.rows_by sums.now.rest.now.plan
        (sums_through sums.now.rest.now.plan sums.now.day sums.now.rest.now.entries) year kind) }
{
    match kind {
        DatedKind::Balance => balance_sheet(alloc, sums, year),
        DatedKind::Operating => operating_statement(alloc, sums, year),
        DatedKind::Budget => comparison(alloc, sums, year),
        DatedKind::Position => net_position(alloc, sums, year),
        DatedKind::Activities => statement_of_activities(alloc, sums, year),
    }
}

/// Where no entry is dated later than a day, a statement through it is that of the history. It does
/// nothing: its clause is the law.
fn same_where_all(csv: bool, rest: &Rest, day: Day, year: u16, kind: DatedKind)
    requires { IsYear year }
    ensures { AllByRecursion (λ e. is_through day e.change.on ≡ true) rest.now.entries
        → spec.through_text csv day year kind rest.now.plan rest.now.entries
        ≡ statement_text csv year (spec.report_kind kind) rest.now.plan rest.now.entries }
{
    let _legal = rest.entries();
}

/// A statement of a fiscal year from 1971 to 2199 as records, as `statement_text` of
/// `cf_books_lists` lays it out, but made of the entries alone that are dated through a day, as
/// they were entered. Where no entry is dated later it is the same statement.
pub fn statement_through_text(
    layout: Layout,
    rest: &Rest,
    dated: &Dated,
    day: Day,
    year: u16,
    kind: DatedKind,
) -> Result<Vec<u8>, AllocError>
    requires year { IsYear year }
    requires dated { IsOf rest.now.plan (all_posted rest.now.plan rest.now.entries) dated.now }
    ensures text { IfOk result (λ v. v.items ≡ spec.through_text layout.csv day year kind
        rest.now.plan rest.now.entries) }
    ensures same { AllByRecursion (λ e. is_through day e.change.on ≡ true) rest.now.entries
        → spec.through_text layout.csv day year kind rest.now.plan rest.now.entries
        ≡ statement_text layout.csv year (spec.report_kind kind) rest.now.plan rest.now.entries }
{
    same_where_all(layout.csv, rest, day, year, kind);
    let chart = rest.chart();
    let sums = day_sums(layout.alloc, rest, dated, day)?;
    let rows = rows_of(layout.alloc, &sums, year, kind)?;
    text_of_rows(layout, chart, year, kind.report_kind(), rows.as_slice())
}
