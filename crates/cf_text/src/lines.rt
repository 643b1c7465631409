//! A statement as lines of text.
ghost use Rattle.std.specs.Prelude.{◌≡◌, ◌++◌, OnOk, OnErr, unsigned_abs};
ghost use Rattle.cf_base.specs.Common.{sign_text};
ghost use Rattle.cf_text.specs.Statement.{amount_text, blanks, count_line, label_text, row_line, statement_text};

use cf_calls::Row;
use itoa::Buffer;
use std::alloc::{AllocError, Global};

/// The places of a label that amounts follow.
const LABEL_PLACES: usize = 40;

/// The places of an amount.
const AMOUNT_PLACES: usize = 20;

fn put_blanks(out: &mut Vec<u8>, count: usize) -> Result<(), AllocError>
    ensures { OnOk result (out.new.items ≡ out.old.items ++ blanks count) }
{
    'blanks: for _ in 0..count {
        out.push(b' ')?;
    }
    Ok(())
}

fn sign_of(amount: i128) -> &'static str
    ensures { result.now ≡ sign_text amount }
{
    if amount < 0 { "-" } else { "" }
}

/// The amount at the right of its places.
fn put_amount(out: &mut Vec<u8>, amount: i128) -> Result<(), AllocError>
    ensures { OnOk result (out.new.items ≡ out.old.items ++ amount_text amount) }
{
    let size = amount.unsigned_abs();
    let sign = sign_of(amount);
    let mut buffer = Buffer::new();
    let units = buffer.format(size / 100);
    let len = sign.len() + units.len() + 3;
    put_blanks(out, AMOUNT_PLACES.saturating_sub(len))?;
    out.extend_from_slice(sign.as_bytes())?;
    out.extend_from_slice(units.as_bytes())?;
    out.push(b'.')?;
    out.push(b'0' + (size % 100 / 10) as u8)?;
    out.push(b'0' + (size % 10) as u8)?;
    Ok(())
}

/// The label, filled where amounts follow it.
fn put_label(out: &mut Vec<u8>, row: &Row) -> Result<(), AllocError>
    ensures { OnOk result
        (out.new.items ≡ out.old.items ++ label_text row.now.label row.now.amounts) }
{
    let label = row.label.as_str();
    out.extend_from_slice(label.as_bytes())?;
    if row.amounts.as_slice().is_empty() {
        return Ok(());
    }
    put_blanks(out, LABEL_PLACES.saturating_sub(label.len()))
}

/// Adds a row's line. Where there is no memory, a part of it is added.
pub fn put_row(out: &mut Vec<u8>, row: &Row) -> Result<(), AllocError>
    ensures { OnOk result (out.new.items ≡ out.old.items ++ row_line row.now) }
{
    put_label(out, row)?;
    let amounts = row.amounts.as_slice();
    for amount in amounts {
        put_amount(out, *amount)?;
    }
    out.push(b'\n')?;
    Ok(())
}

/// Adds the line of a row whose amount is a count. Where there is no memory, a part of it is added.
pub fn put_count(out: &mut Vec<u8>, label: &str, count: u64) -> Result<(), AllocError>
    ensures { OnOk result (out.new.items ≡ out.old.items ++ count_line label.now count) }
{
    let mut buffer = Buffer::new();
    let digits = buffer.format(count);
    out.extend_from_slice(label.as_bytes())?;
    put_blanks(out, LABEL_PLACES.saturating_sub(label.len()))?;
    put_blanks(out, AMOUNT_PLACES.saturating_sub(digits.len()))?;
    out.extend_from_slice(digits.as_bytes())?;
    out.push(b'\n')?;
    Ok(())
}

/// Adds the title line, and a line for each row. Where there is no memory, a part of them is added.
pub(crate) fn put_statement(
    title_line: &str,
    rows: &[Row],
    out: &mut Vec<u8>,
) -> Result<(), AllocError>
    ensures { OnOk result
        (out.new.items ≡ out.old.items ++ statement_text title_line.now rows.now) }
{
    out.extend_from_slice(title_line.as_bytes())?;
    out.push(b'\n')?;
    for row in rows {
        put_row(out, row)?;
    }
    Ok(())
}

/// Adds a statement: its title line, and a line for each row. A label is filled to 40 places where
/// amounts follow it, and each amount stands at the right of 20 places (own rule). Where there is
/// no memory, `out` stays.
pub fn text_of(
    alloc: Global,
    title_line: &str,
    rows: &[Row],
    out: &mut Vec<u8>,
) -> Result<(), AllocError>
    ensures ok { OnOk result
        (out.new.items ≡ out.old.items ++ statement_text title_line.now rows.now) }
    ensures err { OnErr result (out.new.items ≡ out.old.items) }
{
    let mut text = Vec::new(alloc);
    put_statement(title_line, rows, &mut text)?;
    out.extend_from_slice(text.as_slice())?;
    Ok(())
}
