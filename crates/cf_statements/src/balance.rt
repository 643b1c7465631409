//! The balance sheet.
ghost use Rattle.std.specs.Prelude.{◌≡◌, ◌≤◌, ◌++◌, ◌∷◌, [], IfOk, OnOk, flat_map};
ghost use Rattle.cf_calls.specs.Common.{IsYear};
ghost use Rattle.cf_statements.specs.Balance as spec;

use crate::figures::Figures;
use crate::rows::{put_heading, put_single};
use crate::tables::Side::{Credit, Debit};
use crate::tables::{AccountRow, Balances, put_table};
use cf_calls::Row;
use cf_chart::Fund;
use std::alloc::{AllocError, Global};

const ASSETS: [AccountRow; 3] = [
    AccountRow(Debit, "Cash", 100_000),
    AccountRow(Debit, "Receivables", 110_000),
    AccountRow(Debit, "Due from other funds", 120_000),
];

/// Liabilities, and the deferred inflow of resources (GASB Statement 65).
const LIABILITIES: [AccountRow; 4] = [
    AccountRow(Credit, "Vouchers payable", 200_000),
    AccountRow(Credit, "Debt due", 210_000),
    AccountRow(Credit, "Due to other funds", 220_000),
    AccountRow(Credit, "Unavailable revenue", 290_000),
];

fn put_fund<F: Figures>(
    alloc: Global,
    rows: &mut Vec<Row>,
    figures: &F,
    year: u16,
    fund: &Fund,
) -> Result<(), AllocError>
    requires { 1 ≤ year }
    ensures { OnOk result
        (rows.new.items ≡ rows.old.items ++ spec.fund_rows (F.sums figures.now) year fund.now) }
{
    let of = Balances::Fund { fund: fund.id };
    put_heading(alloc, rows, fund.name.as_str())?;
    put_table(alloc, rows, figures, year, of, &ASSETS)?;
    put_table(alloc, rows, figures, year, of, &LIABILITIES)?;
    put_single(
        alloc,
        rows,
        "Fund balance",
        figures.fund_balance(year, fund.id),
    )?;
    Ok(())
}

fn put_funds<F: Figures>(
    alloc: Global,
    rows: &mut Vec<Row>,
    figures: &F,
    year: u16,
    funds: &[Fund],
) -> Result<(), AllocError>
    requires { 1 ≤ year }
    ensures { OnOk result
        (rows.new.items ≡ rows.old.items
        ++ flat_map (spec.fund_rows (F.sums figures.now) year) funds.now) }
{
    for fund in funds {
        put_fund(alloc, rows, figures, year, fund)?;
    }
    Ok(())
}

fn put_total<F: Figures>(
    alloc: Global,
    rows: &mut Vec<Row>,
    figures: &F,
    year: u16,
    label: &str,
) -> Result<(), AllocError>
    requires { IsYear year }
    ensures { OnOk result
        (rows.new.items ≡ rows.old.items ++ spec.total_row (F.sums figures.now) year label.now
        ∷ []) }
{
    put_single(alloc, rows, label, figures.total(year))
}

/// The rows of the balance sheet (GASB Statement 34), through the year: the assets, liabilities and
/// unavailable revenue of each fund by id, its fund balance, and the total of all. Liabilities and
/// unavailable revenue have their sign turned.
pub fn balance_sheet<F: Figures>(
    alloc: Global,
    figures: &F,
    year: u16,
) -> Result<Vec<Row>, AllocError>
    requires { IsYear year }
    ensures { IfOk result
        (λ rows. rows.items ≡ spec.balance_rows (F.plan figures.now) (F.sums figures.now) year) }
{
    let mut rows = Vec::new(alloc);
    put_funds(alloc, &mut rows, figures, year, figures.chart().funds())?;
    put_total(alloc, &mut rows, figures, year, "Total fund balances")?;
    Ok(rows)
}
