//! What is written without taking memory where there is room for it.

ghost use Rattle.std.specs.Prelude.{◌≡◌, ◌+◌, ◌*◌, ◌≤◌, ◌∷◌, ◌++◌, true, length, decimal, IsOk, OnOk, vec_len, vec_capacity};
ghost use Rattle.std.specs.Fmt.{signed_decimal};
ghost use Rattle.std.specs.List.{list_all};
ghost use Rattle.json.specs.Print.{quoted};
ghost use Rattle.serde_json.specs.Data.{array};
ghost use Rattle.serde_json.specs.Written.{comma_if};
ghost use Rattle.cf_json_members.specs.Objects.{fields as object_of, head_text, numbers_from, text_of};
ghost use Rattle.cf_json_members.specs.Parts.{part_data, part_room, is_plain, is_plain_part, is_plain_field, fields_of, fields_room};

use cf_base::{Day, Month, day_text, month_text};
use itoa::Buffer;
use std::alloc::AllocError;

/// The value of a field.
#[derive(Clone, Copy)]
pub enum Part<'a> {
    Number(u64),
    /// A text of so many cents.
    Cents(u64),
    /// A text of so many cents, which may be negative.
    Signed(i128),
    Date(Day),
    YearMonth(Month),
    /// A text without bytes that JSON escapes.
    Word(&'a str),
    True,
}

/// Appends a text of plain bytes between quotation marks.
pub fn put_quoted(out: &mut Vec<u8>, text: &[u8]) -> Result<(), AllocError>
    requires { list_all is_plain text.now ≡ true }
    ensures text { OnOk result (out.new.items ≡ out.old.items ++ quoted text.now) }
    ensures longer { vec_len out.new ≤ vec_len out.old + length text.now + 2 }
    ensures room { vec_len out.old + length text.now + 2 ≤ vec_capacity out.old → IsOk result }
    ensures capacity { vec_capacity out.old ≤ vec_capacity out.new }
{
    out.push(b'"')?;
    out.extend_from_slice(text)?;
    out.push(b'"')?;
    Ok(())
}

/// Appends the digits of a number.
pub fn put_number(out: &mut Vec<u8>, n: u64) -> Result<(), AllocError>
    ensures text { OnOk result (out.new.items ≡ out.old.items ++ decimal n) }
    ensures longer { vec_len out.new ≤ vec_len out.old + 20 }
    ensures room { vec_len out.old + 20 ≤ vec_capacity out.old → IsOk result }
    ensures capacity { vec_capacity out.old ≤ vec_capacity out.new }
{
    let mut buffer = Buffer::new();
    out.extend_from_slice(buffer.format(n).as_bytes())
}

/// Appends a number's digits between quotation marks.
fn put_cents(out: &mut Vec<u8>, n: u64) -> Result<(), AllocError>
    ensures text { OnOk result (out.new.items ≡ out.old.items ++ quoted (decimal n)) }
    ensures longer { vec_len out.new ≤ vec_len out.old + 22 }
    ensures room { vec_len out.old + 22 ≤ vec_capacity out.old → IsOk result }
    ensures capacity { vec_capacity out.old ≤ vec_capacity out.new }
{
    let mut buffer = Buffer::new();
    put_quoted(out, buffer.format(n).as_bytes())
}

/// Appends the digits of a number that may be negative, with its sign, between quotation marks.
pub fn put_signed(out: &mut Vec<u8>, n: i128) -> Result<(), AllocError>
    ensures text { OnOk result (out.new.items ≡ out.old.items ++ quoted (signed_decimal n)) }
    ensures longer { vec_len out.new ≤ vec_len out.old + 42 }
    ensures room { vec_len out.old + 42 ≤ vec_capacity out.old → IsOk result }
    ensures capacity { vec_capacity out.old ≤ vec_capacity out.new }
{
    let mut buffer = Buffer::new();
    put_quoted(out, buffer.format(n).as_bytes())
}

/// Appends the value of a field.
#[tactic(auto, unfolding(crate::specs::Objects::text_of))]
fn put_part(out: &mut Vec<u8>, part: &Part<'_>) -> Result<(), AllocError>
    requires { is_plain_part part.now ≡ true }
    ensures text { OnOk result (out.new.items ≡ out.old.items ++ text_of (part_data part.now)) }
    ensures longer { vec_len out.new ≤ vec_len out.old + part_room part.now }
    ensures room { vec_len out.old + part_room part.now ≤ vec_capacity out.old → IsOk result }
    ensures capacity { vec_capacity out.old ≤ vec_capacity out.new }
{
    match part {
        Part::Number(n) => put_number(out, *n),
        Part::Cents(n) => put_cents(out, *n),
        Part::Signed(n) => put_signed(out, *n),
        Part::Date(day) => put_quoted(out, &day_text(*day)),
        Part::YearMonth(month) => put_quoted(out, &month_text(*month)),
        Part::Word(word) => put_quoted(out, word.as_bytes()),
        Part::True => out.extend_from_slice(b"true"),
    }
}

/// Appends a field's name, a colon and its value.
#[tactic(auto, unfolding(crate::specs::Objects::text_of))]
pub fn put_field(out: &mut Vec<u8>, name: &str, part: &Part<'_>) -> Result<(), AllocError>
    requires name { list_all is_plain name.now ≡ true }
    requires part { is_plain_part part.now ≡ true }
    ensures text { OnOk result
        (out.new.items ≡ out.old.items ++ (quoted name.now ++ 58 ∷ text_of (part_data part.now))) }
    ensures longer { vec_len out.new
        ≤ vec_len out.old + (length name.now + part_room part.now + 3) }
    ensures room { vec_len out.old + (length name.now + part_room part.now + 3)
        ≤ vec_capacity out.old → IsOk result }
    ensures capacity { vec_capacity out.old ≤ vec_capacity out.new }
{
    put_quoted(out, name.as_bytes())?;
    out.push(b':')?;
    put_part(out, part)
}

/// Appends a field, after a comma where it isn't the first.
#[tactic(auto, unfolding(crate::specs::Objects::text_of))]
fn put_next_field(
    out: &mut Vec<u8>,
    later: bool,
    name: &str,
    part: &Part<'_>,
) -> Result<(), AllocError>
    requires name { list_all is_plain name.now ≡ true }
    requires part { is_plain_part part.now ≡ true }
    ensures text { OnOk result
        (out.new.items ≡ out.old.items
        ++ (comma_if later ++ (quoted name.now ++ 58 ∷ text_of (part_data part.now)))) }
    ensures longer { vec_len out.new
        ≤ vec_len out.old + (length name.now + part_room part.now + 4) }
    ensures room { vec_len out.old + (length name.now + part_room part.now + 4)
        ≤ vec_capacity out.old → IsOk result }
    ensures capacity { vec_capacity out.old ≤ vec_capacity out.new }
{
    if later {
        out.push(b',')?;
    }
    put_field(out, name, part)
}

/// Appends the fields of an object, from the comma or the opening on to the closing bracket.
#[tactic(auto, unfolding(crate::specs::Objects::text_of))]
pub fn put_object(out: &mut Vec<u8>, fields: &[(&str, Part<'_>)]) -> Result<(), AllocError>
    requires { list_all is_plain_field fields.now ≡ true }
    ensures text { OnOk result
        (out.new.items ≡ out.old.items ++ text_of (object_of (fields_of fields.now))) }
    ensures longer { vec_len out.new ≤ vec_len out.old + (fields_room fields.now + 2) }
    ensures room { vec_len out.old + (fields_room fields.now + 2) ≤ vec_capacity out.old
        → IsOk result }
    ensures capacity { vec_capacity out.old ≤ vec_capacity out.new }
{
    out.push(b'{')?;
    let mut later = false;
    for field in fields {
        put_next_field(out, later, field.0, &field.1)?;
        later = true;
    }
    out.push(b'}')?;
    Ok(())
}

/// Appends an object of two fields up to the second one's value.
#[tactic(auto, unfolding(crate::specs::Objects::text_of))]
pub fn put_head(
    out: &mut Vec<u8>,
    first: &str,
    part: &Part<'_>,
    second: &str,
) -> Result<(), AllocError>
    requires first { list_all is_plain first.now ≡ true }
    requires part { is_plain_part part.now ≡ true }
    requires second { list_all is_plain second.now ≡ true }
    ensures text { OnOk result
        (out.new.items ≡ out.old.items ++ head_text first.now (part_data part.now) second.now) }
    ensures longer { vec_len out.new
        ≤ vec_len out.old + (length first.now + part_room part.now + length second.now + 8) }
    ensures room { vec_len out.old + (length first.now + part_room part.now + length second.now + 8)
        ≤ vec_capacity out.old → IsOk result }
    ensures capacity { vec_capacity out.old ≤ vec_capacity out.new }
{
    out.push(b'{')?;
    put_field(out, first, part)?;
    out.push(b',')?;
    put_quoted(out, second.as_bytes())?;
    out.push(b':')?;
    Ok(())
}

/// Appends a number, after a comma where it isn't the first.
fn put_next_number(out: &mut Vec<u8>, later: bool, n: u64) -> Result<(), AllocError>
    ensures text { OnOk result (out.new.items ≡ out.old.items ++ (comma_if later ++ decimal n)) }
    ensures longer { vec_len out.new ≤ vec_len out.old + 21 }
    ensures room { vec_len out.old + 21 ≤ vec_capacity out.old → IsOk result }
    ensures capacity { vec_capacity out.old ≤ vec_capacity out.new }
{
    if later {
        out.push(b',')?;
    }
    put_number(out, n)
}

/// Appends `count` numbers from `first` on, as an array.
#[tactic(auto, unfolding(crate::specs::Objects::text_of))]
pub fn put_numbers(out: &mut Vec<u8>, first: u32, count: u16) -> Result<(), AllocError>
    ensures text { OnOk result
        (out.new.items ≡ out.old.items ++ text_of (array (numbers_from first count))) }
    ensures longer { vec_len out.new ≤ vec_len out.old + (21 * count + 2) }
    ensures room { vec_len out.old + (21 * count + 2) ≤ vec_capacity out.old → IsOk result }
    ensures capacity { vec_capacity out.old ≤ vec_capacity out.new }
{
    out.push(b'[')?;
    let first = u64::from(first);
    let end = first + u64::from(count);
    for number in first..end {
        put_next_number(out, first < number, number)?;
    }
    out.push(b']')?;
    Ok(())
}
