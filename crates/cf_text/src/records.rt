//! A statement as comma-separated records.
ghost use Rattle.std.specs.Prelude.{◌≡◌, ◌++◌, List, ℕ, IfOk, OnOk, string_bytes};
ghost use Rattle.cf_text.specs.Records.{field_at, record_line, records_text};
ghost use Rattle.cf_text.specs.Writers.{Wrote};

use cf_base::money_text;
use cf_calls::Row;
use csv::Writer;
use std::alloc::{AllocError, Global};

/// The text of the amount at this place, empty where there is none.
fn field_text(alloc: Global, amounts: &[i128], place: usize) -> Result<String, AllocError>
    ensures { IfOk result (λ t. string_bytes t ≡ field_at amounts.now place) }
{
    match amounts.get(place) {
        Some(amount) => money_text(alloc, *amount),
        None => Ok(String::new(alloc)),
    }
}

/// Writes a row as a record.
fn put_record(alloc: Global, out: &mut Writer<Vec<u8>>, row: &Row) -> Result<(), AllocError>
    ensures { OnOk result
        ((text : List ℕ) → Wrote text out.old → Wrote (text ++ record_line row.now) out.new) }
{
    let amounts = row.amounts.as_slice();
    let first = field_text(alloc, amounts, 0)?;
    let second = field_text(alloc, amounts, 1)?;
    let third = field_text(alloc, amounts, 2)?;
    let fourth = field_text(alloc, amounts, 3)?;
    let fifth = field_text(alloc, amounts, 4)?;
    let fields = [
        row.label.as_str().as_bytes(),
        first.as_str().as_bytes(),
        second.as_str().as_bytes(),
        third.as_str().as_bytes(),
        fourth.as_str().as_bytes(),
        fifth.as_str().as_bytes(),
    ];
    match out.write_fields(fields.as_slice()) {
        Ok(()) => Ok(()),
        Err(_) => Err(AllocError),
    }
}

/// The rows as records of six fields, by the crate's default writer.
pub fn records_of(alloc: Global, rows: &[Row]) -> Result<Vec<u8>, AllocError>
    ensures { IfOk result (λ bytes. bytes.items ≡ records_text rows.now) }
{
    let mut out = Writer::from_writer(Vec::new(alloc));
    for row in rows {
        put_record(alloc, &mut out, row)?;
    }
    match out.into_inner() {
        Ok(bytes) => Ok(bytes),
        Err(_) => Err(AllocError),
    }
}
