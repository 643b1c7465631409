//! The names of control lines.

ghost use Rattle.std.specs.Prelude.{◌≡◌, ◌++◌, decimal, IfOk, OnOk};
ghost use Rattle.std.specs.Option.{option_copied};
ghost use Rattle.cf_books_lists.specs.LineNames as spec;

use crate::texts::put_between;
use cf_chart::{Chart, Fund, LaterLevel, Line, LinePart, Object};
use cf_json_members::parts::put_number;
use std::alloc::{AllocError, Global};

fn object_name(object: Option<&Object>) -> &str
    ensures { result.now ≡ spec.object_name (option_copied object.entry) }
{
    match object {
        Some(object) => object.name.as_str(),
        None => "",
    }
}

/// A word, and a number behind it.
fn numbered(alloc: Global, word: &[u8], number: u64) -> Result<Vec<u8>, AllocError>
    ensures { IfOk result (λ t. t.items ≡ word.now ++ decimal number) }
{
    let mut text = Vec::from_slice(alloc, word)?;
    put_number(&mut text, number)?;
    Ok(text)
}

/// Which part of its department's objects a line has.
fn part_text(alloc: Global, part: LinePart) -> Result<Vec<u8>, AllocError>
    ensures { IfOk result (λ t. t.items ≡ spec.part_text part) }
{
    match part {
        LinePart::Department => Vec::from_slice(alloc, b"all objects"),
        LinePart::Class(class) => numbered(alloc, b"class ", class as u64),
        LinePart::Object(id) => numbered(alloc, b"object ", id as u64),
    }
}

/// The name of an object, where the line has one alone.
pub fn part_name(chart: &Chart, part: LinePart) -> &str
    ensures { result.now ≡ spec.part_name chart.now part }
{
    match part {
        LinePart::Object(id) => object_name(chart.object(id)),
        LinePart::Department | LinePart::Class(_) => "",
    }
}

/// The later level of control of a fund, where it has one.
pub fn later_of(fund: Option<&Fund>) -> Option<LaterLevel>
    ensures { result ≡ spec.later_of (option_copied fund.entry) }
{
    fund?.later
}

/// Appends the fiscal years that a line is of, where its fund has a later level.
fn put_years(out: &mut Vec<u8>, is_later: bool, later: Option<LaterLevel>) -> Result<(), AllocError>
    ensures { OnOk result (out.new.items ≡ out.old.items ++ spec.years_text is_later later) }
{
    match later {
        None => Ok(()),
        Some(later) if is_later => put_between(out, " (from ", later.year as u64, ")"),
        Some(later) => put_between(out, " (through ", later.year.saturating_sub(1) as u64, ")"),
    }
}

/// Which part of its department's objects a line has, and its fiscal years where its fund has a
/// later level.
pub fn part_and_years(
    alloc: Global,
    line: &Line,
    later: Option<LaterLevel>,
) -> Result<Vec<u8>, AllocError>
    ensures { IfOk result (λ t. t.items ≡ spec.part_and_years line.now later) }
{
    let mut text = part_text(alloc, line.part)?;
    put_years(&mut text, line.later, later)?;
    Ok(text)
}
