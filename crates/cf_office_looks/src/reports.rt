//! The statements of a history.

ghost use Rattle.std.specs.Prelude.{◌≡◌, ℕ, true, IfOk};
ghost use Rattle.cf_budget.specs.Tables.{has_line};
ghost use Rattle.cf_calls.specs.Common.{IsYear};
ghost use Rattle.cf_model.specs.Report as spec;

use crate::books::Books;
use cf_base::Kind;
use cf_calls::{Label, List, Row, Shown};
use cf_office_history::History;
use cf_recon::{change_rows, recon_rows};
use cf_statements::{
    balance_sheet, comparison, net_position, operating_statement, statement_of_activities, title,
};
use std::alloc::{AllocError, Global};

/// The rows of a statement of a fiscal year from 1971 to 2199. They are read off running numbers:
/// it takes no longer with more entries. It fails exactly for want of memory.
pub fn report_rows(
    alloc: Global,
    history: &History,
    year: u16,
    kind: Kind,
) -> Result<Vec<Row>, AllocError>
    requires year { IsYear year }
    requires lent { (line : ℕ) → has_line history.now.lines line ≡ true }
    ensures { IfOk result
        (λ rows. rows.items ≡ spec.report_rows history.now.plan history.now.entries year kind) }
{
    let books = Books::of(history);
    match kind {
        Kind::Balance => balance_sheet(alloc, &books, year),
        Kind::Operating => operating_statement(alloc, &books, year),
        Kind::Budget => comparison(alloc, &books, year),
        Kind::Position => net_position(alloc, &books, year),
        Kind::Activities => statement_of_activities(alloc, &books, year),
        Kind::Reconcile => recon_rows(alloc, &history.recon(year)),
        Kind::Changes => change_rows(alloc, &history.changes(year)),
    }
}

/// What a look at a statement shows: its rows, and its title without city and year.
pub(crate) fn show_report(
    alloc: Global,
    history: &History,
    year: u16,
    kind: Kind,
) -> Result<Shown, AllocError>
    requires year { IsYear year }
    requires lent { (line : ℕ) → has_line history.now.lines line ≡ true }
    ensures { IfOk result
        (λ s. s ≡ spec.report_shown history.now.plan history.now.entries year kind) }
{
    let rows = report_rows(alloc, history, year, kind)?;
    let title = Label::new(alloc, title(kind))?;
    Ok(Shown::Report {
        rows: List::of(rows),
        title,
    })
}
