//! The statement of net position.
ghost use Rattle.std.specs.Prelude.{◌≡◌, IfOk};
ghost use Rattle.cf_calls.specs.Common.{IsYear};
ghost use Rattle.cf_statements.specs.Position.{position_rows};

use crate::figures::Figures;
use crate::rows::put_single;
use crate::tables::Side::{Credit, Debit};
use crate::tables::{AccountRow, Balances, put_table};
use cf_calls::Row;
use std::alloc::{AllocError, Global};

const ASSETS: [AccountRow; 6] = [
    AccountRow(Debit, "Cash", 100_000),
    AccountRow(Debit, "Receivables", 110_000),
    AccountRow(Debit, "Capital assets", 150_000),
    AccountRow(Debit, "Accumulated depreciation", 159_000),
    AccountRow(Debit, "Right-to-use assets", 151_000),
    AccountRow(Debit, "Accumulated amortization", 159_100),
];

const LIABILITIES: [AccountRow; 6] = [
    AccountRow(Credit, "Vouchers payable", 200_000),
    AccountRow(Credit, "Debt due", 210_000),
    AccountRow(Credit, "Bonds payable", 250_000),
    AccountRow(Credit, "Leases payable", 251_000),
    AccountRow(Credit, "Accrued interest", 260_000),
    AccountRow(Credit, "Compensated absences", 270_000),
];

/// The rows of the statement of net position (GASB Statement 34), through the year. Liabilities
/// have their sign turned; accumulated depreciation and amortization stand as they are, usually
/// below zero.
pub fn net_position<F: Figures>(
    alloc: Global,
    figures: &F,
    year: u16,
) -> Result<Vec<Row>, AllocError>
    requires { IsYear year }
    ensures { IfOk result (λ rows. rows.items ≡ position_rows (F.sums figures.now) year) }
{
    let mut rows = Vec::new(alloc);
    put_table(alloc, &mut rows, figures, year, Balances::Gov, &ASSETS)?;
    put_table(alloc, &mut rows, figures, year, Balances::Gov, &LIABILITIES)?;
    put_single(alloc, &mut rows, "Net position", figures.net_position(year))?;
    Ok(rows)
}
