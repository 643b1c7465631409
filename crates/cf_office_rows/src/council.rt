//! What the council moves: adopted budgets, amendments and transfers between lines.

ghost use Rattle.std.specs.Prelude.{◌≡◌, ◌++◌, ◌∷◌, [], OnOk};
ghost use Rattle.cf_office_rows.specs.Council.{adopted_rows, transfer_rows};
ghost use Rattle.cf_office_rows.specs.Rows.{appropriates, kept, on_line as line_row, origin};

use crate::rows::{Amounts, LedgerRow, NOTHING, Origin, on_line, put};
use cf_calls::acts::LineTransfer;
use cf_calls::items::LineAmount;
use cf_chart::Chart;
use std::alloc::AllocError;

/// A change of an appropriation.
fn appropriation(by: i128) -> Amounts
    ensures { result ≡ appropriates by }
{
    let mut amounts = NOTHING;
    amounts.appropriated = by;
    amounts
}

/// An entry that is of no document.
fn of_entry(place: u64) -> Origin
    ensures { result ≡ origin place 0 0 }
{
    Origin {
        place,
        document: 0,
        item: 0,
    }
}

/// Adds the row of a change of a line's appropriation.
pub fn put_change(
    out: &mut Vec<LedgerRow>,
    chart: &Chart,
    place: u64,
    line: u16,
    year: u16,
    by: i128,
) -> Result<(), AllocError>
    ensures { OnOk result (out.new.items
        ≡ out.old.items ++ kept
        (line_row chart.now (origin place 0 0) line year (appropriates by) ∷ [])) }
{
    let row = on_line(chart, of_entry(place), line, year, appropriation(by));
    put(out, row)
}

/// Adds the rows of the lines that an adoption names.
pub fn put_adopted(
    out: &mut Vec<LedgerRow>,
    chart: &Chart,
    place: u64,
    year: u16,
    lines: &[LineAmount],
) -> Result<(), AllocError>
    ensures { OnOk result (out.new.items
        ≡ out.old.items ++ kept (adopted_rows chart.now place year lines.now)) }
{
    for line in lines {
        put_change(out, chart, place, line.line, year, i128::from(line.amount))?;
    }
    Ok(())
}

/// Adds the rows of a transfer: of the line that it lowers, and of the one that it raises.
pub fn put_transfer(
    out: &mut Vec<LedgerRow>,
    chart: &Chart,
    place: u64,
    transfer: &LineTransfer,
) -> Result<(), AllocError>
    ensures { OnOk result (out.new.items
        ≡ out.old.items ++ kept (transfer_rows chart.now place transfer.now)) }
{
    let amount = i128::from(transfer.amount);
    put_change(out, chart, place, transfer.from, transfer.year, -amount)?;
    put_change(out, chart, place, transfer.to, transfer.year, amount)
}
