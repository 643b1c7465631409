//! Texts of numbers and amounts.

ghost use Rattle.std.specs.Prelude.{◌≡◌, ◌++◌, decimal, string_bytes, IfOk, OnOk};
ghost use Rattle.cf_base.specs.Common.{money_of, sign_text};
ghost use Rattle.cf_books_lists.specs.Records as spec;

use cf_base::money_text;
use cf_json_members::parts::put_number;
use itoa::Buffer;
use std::alloc::{AllocError, Global};

/// The digits of a number.
pub fn digits(buffer: &mut Buffer, n: u64) -> &[u8]
    ensures { result.now ≡ decimal n }
{
    buffer.format(n).as_bytes()
}

/// The digits of a number that was drawn, none where none was.
pub fn drawn_digits(buffer: &mut Buffer, n: u64) -> &[u8]
    ensures { result.now ≡ spec.drawn_text n }
{
    if n == 0 {
        return b"";
    }
    digits(buffer, n)
}

fn sign_of(amount: i128) -> &'static str
    ensures { result.now ≡ sign_text amount }
{
    if amount < 0 { "-" } else { "" }
}

/// Appends an amount in units of money.
pub fn put_money(out: &mut Vec<u8>, amount: i128) -> Result<(), AllocError>
    ensures { OnOk result (out.new.items ≡ out.old.items ++ money_of amount) }
{
    let size = amount.unsigned_abs();
    let sign = sign_of(amount);
    let mut buffer = Buffer::new();
    let units = buffer.format(size / 100);
    out.extend_from_slice(sign.as_bytes())?;
    out.extend_from_slice(units.as_bytes())?;
    out.push(b'.')?;
    out.push(b'0' + (size % 100 / 10) as u8)?;
    out.push(b'0' + (size % 10) as u8)?;
    Ok(())
}

/// The digits of a number.
pub fn decimal_text(alloc: Global, n: u64) -> Result<Vec<u8>, AllocError>
    ensures { IfOk result (λ t. t.items ≡ decimal n) }
{
    let mut text = Vec::new(alloc);
    put_number(&mut text, n)?;
    Ok(text)
}

/// The digits of a number that was drawn, none where none was.
pub fn drawn_text(alloc: Global, n: u64) -> Result<Vec<u8>, AllocError>
    ensures { IfOk result (λ t. t.items ≡ spec.drawn_text n) }
{
    if n == 0 {
        return Ok(Vec::new(alloc));
    }
    decimal_text(alloc, n)
}

/// The digits of a number, none where there is none.
pub fn number_text(alloc: Global, number: Option<u16>) -> Result<Vec<u8>, AllocError>
    ensures { IfOk result (λ t. t.items ≡ spec.number_text number) }
{
    match number {
        Some(number) => decimal_text(alloc, u64::from(number)),
        None => Ok(Vec::new(alloc)),
    }
}

/// An amount in units of money, none where there is none.
pub fn money_if(alloc: Global, amount: Option<i128>) -> Result<String, AllocError>
    ensures { IfOk result (λ t. string_bytes t ≡ spec.money_if amount) }
{
    match amount {
        Some(amount) => money_text(alloc, amount),
        None => Ok(String::new(alloc)),
    }
}

/// Appends a text.
pub fn put_text(out: &mut Vec<u8>, text: &str) -> Result<(), AllocError>
    ensures { OnOk result (out.new.items ≡ out.old.items ++ text.now) }
{
    out.extend_from_slice(text.as_bytes())
}

/// Appends a text, a number and a text.
pub fn put_between(out: &mut Vec<u8>, before: &str, n: u64, after: &str) -> Result<(), AllocError>
    ensures { OnOk result (out.new.items ≡ out.old.items
        ++ (before.now ++ (decimal n ++ after.now))) }
{
    out.extend_from_slice(before.as_bytes())?;
    put_number(out, n)?;
    out.extend_from_slice(after.as_bytes())
}
