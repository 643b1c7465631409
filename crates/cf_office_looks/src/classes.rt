//! The classes of a history's fund balances, the components of its net position, and its major
//! funds.

ghost use Rattle.std.specs.Prelude.{◌≡◌, ℕ, true, IfOk};
ghost use Rattle.cf_budget.specs.Tables.{has_line};
ghost use Rattle.cf_calls.specs.Common.{IsYear};
ghost use Rattle.cf_classes.specs.Statements as spec;

use crate::books::Books;
use cf_calls::Row;
use cf_classes::{components, fund_classes, major_funds};
use cf_office_history::History;
use std::alloc::{AllocError, Global};

/// The rows of the classes of fund balances through a fiscal year from 1971 to 2199 (GASB Statement
/// 54), in cents. They are read off running numbers: it takes no longer with more entries. It fails
/// exactly for want of memory.
pub fn class_rows(alloc: Global, history: &History, year: u16) -> Result<Vec<Row>, AllocError>
    requires year { IsYear year }
    requires lent { (line : ℕ) → has_line history.now.lines line ≡ true }
    ensures { IfOk result
        (λ rows. rows.items ≡ spec.class_rows history.now.plan history.now.entries year) }
{
    // So that the proof knows that the history is legal, and how long it may be.
    let _chart = history.chart();
    let _len = history.len();
    fund_classes(alloc, &Books::of(history), year)
}

/// The rows of the components of net position through a fiscal year from 1971 to 2199 (GASB
/// Statement 34), in cents. They are read off running numbers: it takes no longer with more
/// entries. It fails exactly for want of memory.
pub fn component_rows(alloc: Global, history: &History, year: u16) -> Result<Vec<Row>, AllocError>
    requires year { IsYear year }
    requires lent { (line : ℕ) → has_line history.now.lines line ≡ true }
    ensures { IfOk result
        (λ rows. rows.items ≡ spec.component_rows history.now.plan history.now.entries year) }
{
    // As above.
    let _chart = history.chart();
    let _len = history.len();
    components(alloc, &Books::of(history), &history.recon(year), year)
}

/// The rows of the major funds of a fiscal year from 1971 to 2199 (GASB Statement 34), in cents.
/// They are read off running numbers: it takes no longer with more entries. It fails exactly for
/// want of memory.
pub fn major_rows(alloc: Global, history: &History, year: u16) -> Result<Vec<Row>, AllocError>
    requires { IsYear year }
    ensures { IfOk result
        (λ rows. rows.items ≡ spec.major_rows history.now.plan history.now.entries year) }
{
    major_funds(alloc, &Books::of(history), year)
}
