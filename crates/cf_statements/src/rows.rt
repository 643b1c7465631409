//! Rows, one after another.
ghost use Rattle.std.specs.Prelude.{◌≡◌, ◌++◌, ◌∷◌, [], OnOk};
ghost use Rattle.cf_statements.specs.Sums.{heading, single};

use cf_calls::{Label, List, Row};
use std::alloc::{AllocError, Global};

/// Adds a row of these amounts.
pub(crate) fn put_row(
    alloc: Global,
    rows: &mut Vec<Row>,
    label: &str,
    amounts: &[i128],
) -> Result<(), AllocError>
    ensures { OnOk result
        (rows.new.items ≡ rows.old.items ++ record { label = label.now; amounts = amounts.now }
        ∷ []) }
{
    let row = Row {
        label: Label::new(alloc, label)?,
        amounts: List::of(Vec::from_slice(alloc, amounts)?),
    };
    rows.push(row)?;
    Ok(())
}

/// Adds a row that is its label alone.
pub fn put_heading(alloc: Global, rows: &mut Vec<Row>, name: &str) -> Result<(), AllocError>
    ensures { OnOk result (rows.new.items ≡ rows.old.items ++ heading name.now ∷ []) }
{
    put_row(alloc, rows, name, [].as_slice())
}

/// Adds a row of one amount.
pub fn put_single(
    alloc: Global,
    rows: &mut Vec<Row>,
    label: &str,
    amount: i128,
) -> Result<(), AllocError>
    ensures { OnOk result (rows.new.items ≡ rows.old.items ++ single label.now amount ∷ []) }
{
    put_row(alloc, rows, label, [amount].as_slice())
}
