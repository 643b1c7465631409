//! What the roll of a fiscal year changes of line numbers.

ghost use Rattle.std.specs.Prelude.{◌≡◌, ◌<◌, ◌≤ℤ◌, ◌++◌, ◌-ℤ◌, ◌^◌, ℕ, true, pos, length, IfOk, OnOk};
ghost use Rattle.cf_base.specs.Common.{last_fiscal_year};
ghost use Rattle.cf_budget.specs.Tables.{has_line};
ghost use Rattle.cf_budget.specs.Tables.{zero_row};
ghost use Rattle.cf_model.specs.Common.{documents_of};
ghost use Rattle.cf_model.specs.Moves as model;
ghost use Rattle.cf_office.specs.Rolled as spec;

use cf_budget::{LineChange, Row, ZERO};
use cf_calls::LineNumbers;
use cf_chart::LineId;
use cf_office_history::History;
use std::alloc::{AllocError, Global};

/// What the year that is rolled loses: all that is held and encumbered, which is not below zero.
fn cleared(numbers: &LineNumbers) -> Row
    requires held { pos 0 ≤ℤ numbers.now.held }
    requires encumbered { pos 0 ≤ℤ numbers.now.encumbered }
    ensures { result ≡ record zero_row
        { held = pos 0 -ℤ numbers.now.held; encumbered = pos 0 -ℤ numbers.now.encumbered } }
{
    let mut row = ZERO;
    row.held = 0 - numbers.held;
    row.encumbered = 0 - numbers.encumbered;
    row
}

/// What the year after gets: an encumbrance, and as much appropriation.
fn carried(amount: i128) -> Row
    ensures { result ≡ record zero_row { appropriated = amount; encumbered = amount } }
{
    let mut row = ZERO;
    row.appropriated = amount;
    row.encumbered = amount;
    row
}

/// Adds the changes of a line in the year that is rolled, and in the year after, in which so much
/// is carried onto it.
fn push_line(
    changes: &mut Vec<LineChange>,
    history: &History,
    year: u16,
    line: u16,
    amount: u128,
) -> Result<(), AllocError>
    requires line { line < length history.now.plan.lines }
    requires year { year < last_fiscal_year }
    requires lent { has_line history.now.lines line ≡ true }
    requires small { amount < 2 ^ 100 }
    requires carried { amount
        ≡ model.carried_to history.now.plan line year
        (documents_of history.now.plan history.now.entries).items }
    ensures { OnOk result
        (changes.new.items ≡ changes.old.items
        ++ spec.line_changes history.now.plan history.now.entries year line) }
{
    let numbers = history.numbers(line, year);
    changes.push(LineChange {
        line: LineId { number: line },
        year,
        by: cleared(&numbers),
    })?;
    changes.push(LineChange {
        line: LineId { number: line },
        year: year + 1,
        by: carried(amount as i128),
    })?;
    Ok(())
}

/// What the roll of a fiscal year changes: in the year, nothing of a line stays held or encumbered,
/// and in the year after a line is encumbered by what is carried onto it, and has as much
/// appropriation.
pub fn roll_changes(
    alloc: Global,
    history: &History,
    year: u16,
) -> Result<Vec<LineChange>, AllocError>
    requires year { year < last_fiscal_year }
    requires lent { (line : ℕ) → has_line history.now.lines line ≡ true }
    ensures { IfOk result
        (λ v. v.items ≡ spec.changes_to history.now.plan history.now.entries year
        (length history.now.plan.lines)) }
{
    let chart = history.chart();
    let amounts = history.orders().carried_amounts(alloc, chart, year)?;
    let count = chart.lines().len() as u16;
    let mut changes = Vec::new(alloc);
    for line in 0..count {
        push_line(&mut changes, history, year, line, amounts[line as usize])?;
    }
    Ok(changes)
}
