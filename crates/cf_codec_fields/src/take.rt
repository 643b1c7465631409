//! The readers of single fields. Each gives the value and the bytes after it.

ghost use Rattle.std.specs.Prelude.{◌≡◌, ◌<◌, length};
ghost use Rattle.std.specs.List.{list_all};
ghost use Rattle.cf_calls.specs.Common.{is_key, is_key_byte};
ghost use Rattle.cf_codec_fields.specs.declared.fault.Refused.TheVariants.{Faulty};
ghost use Rattle.cf_codec_fields.specs.Readings.{Gives};
ghost use Rattle.cf_codec_fields.specs.Formats.{or_left, is_between, kept};
ghost use Rattle.cf_codec_fields.specs.Fields as spec;
ghost use Rattle.cf_codec_fields.specs.Kinds as kinds;

use crate::fault::Refused;
use crate::kind::move_value;
use cf_base::{Cents, Day, LAST_YEAR, MOST_CENTS, Month};
use cf_calls::acts::FundMoveKind;
use cf_calls::{ActKind, Key};
use std::alloc::Global;

/// The fault of the field that these bytes begin with.
pub fn faulty(bytes: &[u8]) -> Refused
    ensures { result ≡ Faulty (length bytes.now) }
{
    Refused::Faulty(bytes.len())
}

/// A value that was read, with the bytes after it, or the fault of the field at `bytes` if there is
/// none.
pub fn or_faulty<'a, T: Copy>(
    value: Option<T>,
    rest: &'a [u8],
    bytes: &[u8],
) -> Result<(T, &'a [u8]), Refused>
    ensures { Gives (λ x. (x.0, x.1.now)) result (or_left value rest.now (length bytes.now)) }
{
    match value {
        Some(value) => Ok((value, rest)),
        None => Err(faulty(bytes)),
    }
}

/// A number of 1 byte.
#[tactic(auto, unfolding(crate::specs::Formats::number_at))]
pub fn take_byte(bytes: &[u8]) -> Result<(u8, &[u8]), Refused>
    ensures { Gives (λ x. (x.0, x.1.now)) result (spec.byte.read bytes.now) }
{
    if bytes.is_empty() {
        return Err(faulty(bytes));
    }
    let (front, rest) = bytes.split_at(1);
    Ok((u8::from_be_bytes([front[0]]), rest))
}

/// A number of 2 bytes, the highest first, as all numbers.
#[tactic(auto, unfolding(crate::specs::Formats::number_at))]
pub fn take_half(bytes: &[u8]) -> Result<(u16, &[u8]), Refused>
    ensures { Gives (λ x. (x.0, x.1.now)) result (spec.half.read bytes.now) }
{
    if bytes.len() < 2 {
        return Err(faulty(bytes));
    }
    let (front, rest) = bytes.split_at(2);
    Ok((u16::from_be_bytes([front[0], front[1]]), rest))
}

/// A number of 4 bytes.
#[tactic(auto, unfolding(crate::specs::Formats::number_at))]
pub fn take_word(bytes: &[u8]) -> Result<(u32, &[u8]), Refused>
    ensures { Gives (λ x. (x.0, x.1.now)) result (spec.word.read bytes.now) }
{
    if bytes.len() < 4 {
        return Err(faulty(bytes));
    }
    let (front, rest) = bytes.split_at(4);
    let number = u32::from_be_bytes([front[0], front[1], front[2], front[3]]);
    Ok((number, rest))
}

/// A number of 8 bytes.
#[tactic(auto, unfolding(crate::specs::Formats::number_at))]
pub fn take_long(bytes: &[u8]) -> Result<(u64, &[u8]), Refused>
    ensures { Gives (λ x. (x.0, x.1.now)) result (spec.long.read bytes.now) }
{
    if bytes.len() < 8 {
        return Err(faulty(bytes));
    }
    let (front, rest) = bytes.split_at(8);
    let number = u64::from_be_bytes([
        front[0], front[1], front[2], front[3], front[4], front[5], front[6], front[7],
    ]);
    Ok((number, rest))
}

/// A byte below `count`, which says what follows.
pub fn take_one_of(count: u8, bytes: &[u8]) -> Result<(u8, &[u8]), Refused>
    ensures { Gives (λ x. (x.0, x.1.now)) result ((spec.one_of count).read bytes.now) }
{
    let (n, rest) = take_byte(bytes)?;
    or_faulty((n < count).then_some(n), rest, bytes)
}

fn flag_value(n: u8) -> Option<bool>
    ensures { result ≡ spec.flag_value n }
{
    match n {
        0 => Some(false),
        1 => Some(true),
        _ => None,
    }
}

/// False as 0, true as 1.
pub fn take_flag(bytes: &[u8]) -> Result<(bool, &[u8]), Refused>
    ensures { Gives (λ x. (x.0, x.1.now)) result (spec.flag.read bytes.now) }
{
    let (n, rest) = take_byte(bytes)?;
    or_faulty(flag_value(n), rest, bytes)
}

/// A number of two bytes within a range.
pub fn take_between(least: u16, most: u16, bytes: &[u8]) -> Result<(u16, &[u8]), Refused>
    ensures { Gives (λ x. (x.0, x.1.now)) result
        ((kept (is_between least most) spec.half).read bytes.now) }
{
    let (n, rest) = take_half(bytes)?;
    or_faulty((least <= n && n <= most).then_some(n), rest, bytes)
}

/// A fiscal year from 1971 to 2199.
pub fn take_year(bytes: &[u8]) -> Result<(u16, &[u8]), Refused>
    ensures { Gives (λ x. (x.0, x.1.now)) result (spec.year.read bytes.now) }
{
    take_between(1971, LAST_YEAR, bytes)
}

/// An amount from 1 to 10,000,000,000,000 cents.
pub fn take_amount(bytes: &[u8]) -> Result<(u64, &[u8]), Refused>
    ensures { Gives (λ x. (x.0, x.1.now)) result (spec.amount.read bytes.now) }
{
    let (n, rest) = take_long(bytes)?;
    or_faulty(Cents::new(n).is_some().then_some(n), rest, bytes)
}

/// An amount from 0 to 10,000,000,000,000 cents.
pub fn take_most_amount(bytes: &[u8]) -> Result<(u64, &[u8]), Refused>
    ensures { Gives (λ x. (x.0, x.1.now)) result (spec.most_amount.read bytes.now) }
{
    let (n, rest) = take_long(bytes)?;
    or_faulty((n <= MOST_CENTS).then_some(n), rest, bytes)
}

/// An amount below 0 where `negative` says so.
fn with_sign(negative: bool, size: u64) -> i64
    requires { size < 9223372036854775808 }
    ensures { result ≡ spec.with_sign negative size }
{
    let amount = size as i64;
    if negative { -amount } else { amount }
}

/// A sign, and a size from 1 to 10,000,000,000,000 cents.
pub fn take_signed(bytes: &[u8]) -> Result<(i64, &[u8]), Refused>
    ensures { Gives (λ x. (x.0, x.1.now)) result (spec.signed.read bytes.now) }
{
    let (negative, rest) = take_flag(bytes)?;
    let (size, rest) = take_amount(rest)?;
    Ok((with_sign(negative, size), rest))
}

/// A month from January 1970 to December 2199.
pub fn take_month(bytes: &[u8]) -> Result<(Month, &[u8]), Refused>
    ensures { Gives (λ x. (x.0, x.1.now)) result (spec.month.read bytes.now) }
{
    let (year, rest) = take_between(1970, LAST_YEAR, bytes)?;
    let (month, after) = take_byte(rest)?;
    let (month, after) = or_faulty((1 <= month && month <= 12).then_some(month), after, rest)?;
    Ok((Month { year, month }, after))
}

#[tactic(auto, unfolding(crate::specs::Fields::day_value))]
fn day_value(n: u32) -> Option<Day>
    ensures { result ≡ spec.day_value n }
{
    if n > 84_005 { None } else { Day::new(n as i32) }
}

/// A day from 1970-01-01 to 2199-12-31, by its number.
pub fn take_day(bytes: &[u8]) -> Result<(Day, &[u8]), Refused>
    ensures { Gives (λ x. (x.0, x.1.now)) result (spec.day.read bytes.now) }
{
    let (n, rest) = take_word(bytes)?;
    or_faulty(day_value(n), rest, bytes)
}

fn are_key_bytes(bytes: &[u8]) -> bool
    ensures { result ≡ list_all is_key_byte bytes.now }
{
    bytes.iter().all(|c| 33 <= *c && *c <= 126)
}

/// Whether bytes may name a change.
fn is_key_text(bytes: &[u8]) -> bool
    ensures { result ≡ is_key bytes.now }
{
    1 <= bytes.len() && bytes.len() <= 40 && are_key_bytes(bytes)
}

/// A key: its length, from 1 to 40, and so many bytes from 0x21 to 0x7E.
#[tactic(auto, unfolding(crate::specs::Fields::key_at))]
pub fn take_key(alloc: Global, bytes: &[u8]) -> Result<(Key, &[u8]), Refused>
    ensures { Gives (λ x. (x.0, x.1.now)) result (spec.key.read bytes.now) }
{
    let Some((length, rest)) = bytes.split_first() else {
        return Err(faulty(bytes));
    };
    let length = usize::from(*length);
    if rest.len() < length {
        return Err(faulty(bytes));
    }
    let (text, rest) = rest.split_at(length);
    if !is_key_text(text) {
        return Err(faulty(bytes));
    }
    match str::from_utf8(text) {
        Ok(text) => Ok((Key::new(alloc, text)?, rest)),
        Err(_) => Err(faulty(bytes)),
    }
}

/// The kind of an entry.
pub fn take_kind(bytes: &[u8]) -> Result<(ActKind, &[u8]), Refused>
    ensures { Gives (λ x. (x.0, x.1.now)) result (kinds.kind.read bytes.now) }
{
    let (n, rest) = take_byte(bytes)?;
    or_faulty(ActKind::of_code(n), rest, bytes)
}

/// The kind of a movement of cash.
pub fn take_move_kind(bytes: &[u8]) -> Result<(FundMoveKind, &[u8]), Refused>
    ensures { Gives (λ x. (x.0, x.1.now)) result (kinds.move_kind.read bytes.now) }
{
    let (n, rest) = take_byte(bytes)?;
    or_faulty(move_value(n), rest, bytes)
}
