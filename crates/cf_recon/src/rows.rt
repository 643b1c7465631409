//! The rows of both statements.

ghost use Rattle.std.specs.Prelude.{◌≡◌, map, IfOk};
ghost use Rattle.cf_model.specs.Common.{recon_rows as recon_table};
ghost use Rattle.cf_recon.specs.Rows.{row_of, change_rows as change_table};
ghost use Rattle.cf_statements.specs.Sums.{single};

use crate::changes::Changes;
use cf_calls::shown::ReconShown;
use cf_calls::{Label, List, Row};
use std::alloc::{AllocError, Global};

/// The rows of the reconciliation to net position, in the order in which they are added.
pub fn recon_rows(alloc: Global, recon: &ReconShown) -> Result<Vec<Row>, AllocError>
    ensures { IfOk result (λ v. v.items ≡ recon_table recon.now) }
{
    rows(
        alloc,
        &[
            ("Total fund balances", recon.fund_balances),
            ("Capital assets, net", recon.capital_assets),
            ("Right-to-use assets, net", recon.right_to_use),
            ("Unavailable revenue", recon.unavailable),
            ("Bonds payable", recon.bonds),
            ("Leases payable", recon.leases),
            ("Accrued interest", recon.accrued_interest),
            ("Compensated absences", recon.leave),
            ("Net position", recon.net_position),
        ],
    )
}

/// The rows of the reconciliation to the change in net position, in the order in which they are
/// added.
pub fn change_rows(alloc: Global, changes: &Changes) -> Result<Vec<Row>, AllocError>
    ensures { IfOk result (λ v. v.items ≡ change_table changes.now) }
{
    rows(
        alloc,
        &[
            ("Net change in fund balances", changes.fund_balances),
            ("Capital outlay", changes.capital_outlay),
            ("Donated capital assets", changes.donated),
            ("Right-to-use assets", changes.right_to_use),
            ("Depreciation", changes.depreciation),
            ("Amortization", changes.amortization),
            ("Book value of disposals", changes.disposals),
            ("Change in unavailable revenue", changes.unavailable),
            ("Debt proceeds", changes.proceeds),
            ("Leases issued", changes.leases_issued),
            ("Principal paid", changes.principal_paid),
            ("Change in accrued interest", changes.accrued_interest),
            ("Change in compensated absences", changes.leave),
            ("Change in net position", changes.net_position),
        ],
    )
}

/// Rows of one amount each.
fn rows(alloc: Global, amounts: &[(&str, i128)]) -> Result<Vec<Row>, AllocError>
    ensures { IfOk result (λ v. v.items ≡ map row_of amounts.now) }
{
    let mut rows = Vec::new(alloc);
    for amount in amounts {
        rows.push(row(alloc, amount.0, amount.1)?)?;
    }
    Ok(rows)
}

fn row(alloc: Global, label: &str, amount: i128) -> Result<Row, AllocError>
    ensures { IfOk result (λ r. r ≡ single label.now amount) }
{
    let mut amounts = List::new(alloc);
    amounts.push(amount)?;
    Ok(Row {
        label: Label::new(alloc, label)?,
        amounts,
    })
}
