//! Rows, one after another.
ghost use Rattle.std.specs.Prelude.{◌≡◌, ◌++◌, map, OnOk};
ghost use Rattle.cf_classes.specs.Rows.{row_of};

use cf_calls::Row;
use cf_statements::put_single;
use std::alloc::{AllocError, Global};

/// Adds rows of one amount each.
pub(crate) fn put_rows(
    alloc: Global,
    rows: &mut Vec<Row>,
    amounts: &[(&str, i128)],
) -> Result<(), AllocError>
    ensures { OnOk result (rows.new.items ≡ rows.old.items ++ map row_of amounts.now) }
{
    for amount in amounts {
        put_single(alloc, rows, amount.0, amount.1)?;
    }
    Ok(())
}
