//! Lists: a count, and the elements one after another.

ghost use Rattle.std.specs.Prelude.{◌≡◌, ◌+◌, ◌<◌, ◌≤◌, Bool, Option, IfOk, length, vec_len, vec_capacity};
ghost use Rattle.cf_calls.specs.Common.{is_distinct};
ghost use Rattle.cf_calls.specs.Keys.{same_key};
ghost use Rattle.cf_codec_fields.specs.Readings.{Gives};
ghost use Rattle.cf_codec_fields.specs.Formats.{Format, kept, list, each_bytes, each_size, each_fits, each_at};
ghost use Rattle.cf_codec_fields.specs.Puts.{Adds, HasRoom, Puts};

use crate::fault::Refused;
use crate::put::put_half;
use crate::take::{faulty, take_between};
use cf_calls::List;
use std::alloc::{AllocError, Global};

/// What stands in a list.
pub trait Element {
    type Value: Copy;

    ghost format: { Format Self.Value };

    /// How many bytes the element has.
    fn len(value: Self::Value) -> u8
        ensures { result ≡ format.size value };

    /// Writes the element, where there is room for it.
    fn put(out: &mut Vec<u8>, value: Self::Value)
        requires { HasRoom format value out.old }
        ensures { Puts format value out.old out.new };

    /// Reads an element, and gives the bytes after it.
    fn take(bytes: &[u8]) -> Result<(Self::Value, &[u8]), Refused>
        ensures { Gives (λ x. (x.0, x.1.now)) result (format.read bytes.now) };
}

/// An element of which a list may not have two that clash.
pub trait DistinctElement: Element {
    type Key: Ord + Copy;

    ghost clash: { Self.Value → Self.Value → Bool };

    ghost key: { Self.Value → Option Self.Key };

    /// What no other of a list may have, if it has such a thing.
    fn key(value: Self::Value) -> Option<Self::Key>
        ensures { result ≡ key value };

    /// Two clash where their keys are there and equal.
    ghost clash_by_key: { (a b : Self.Value) → clash a b ≡ same_key Self.Key.eq (key a) (key b) };
}

/// How many bytes a list has.
#[tactic(auto, unfolding(crate::specs::Formats::each_size))]
pub fn list_len<E: Element>(items: &[E::Value]) -> u64
    requires { length items.now < 65536 }
    ensures size { result ≡ 2 + each_size E.format items.now }
    ensures small { result ≤ 16711682 }
{
    let mut len = 2;
    for item in items {
        len += u64::from(E::len(*item));
    }
    len
}

/// Writes the elements one after another, where there is room for them.
#[tactic(auto, unfolding(crate::specs::Formats::each_bytes, crate::specs::Formats::each_size, crate::specs::Formats::each_fits))]
fn put_each<E: Element>(out: &mut Vec<u8>, items: &[E::Value])
    requires { vec_len out.old + each_size E.format items.now ≤ vec_capacity out.old }
    ensures { Adds (each_bytes E.format items.now) (each_size E.format items.now)
        (each_fits E.format items.now) out.old out.new }
{
    for item in items {
        E::put(out, *item);
    }
}

/// Writes a list, where there is room for it.
pub fn put_list<E: Element>(out: &mut Vec<u8>, items: &[E::Value])
    requires few { length items.now < 65536 }
    requires room { HasRoom (list 0 0 E.format) items.now out.old }
    ensures { Puts (list 0 0 E.format) items.now out.old out.new }
{
    put_half(out, items.len() as u16);
    put_each::<E>(out, items);
}

/// So many elements, and the bytes after them.
#[tactic(auto, unfolding(crate::specs::Formats::each_at))]
fn take_each<E: Element>(
    alloc: Global,
    count: u16,
    bytes: &[u8],
) -> Result<(Vec<E::Value>, &[u8]), Refused>
    ensures { Gives (λ x. (x.0.items, x.1.now)) result (each_at E.format count bytes.now) }
{
    let mut items = Vec::with_capacity(alloc, usize::from(count))?;
    let mut rest = bytes;
    for _ in 0..count {
        let (item, after) = E::take(rest)?;
        items.push(item)?;
        rest = after;
    }
    Ok((items, rest))
}

/// A list of `least` to `most` elements.
pub fn take_list<E: Element>(
    alloc: Global,
    least: u16,
    most: u16,
    bytes: &[u8],
) -> Result<(List<E::Value>, &[u8]), Refused>
    ensures { Gives (λ x. (x.0, x.1.now)) result ((list least most E.format).read bytes.now) }
{
    let (count, rest) = take_between(least, most, bytes)?;
    let (items, rest) = take_each::<E>(alloc, count, rest)?;
    Ok((List::of(items), rest))
}

fn are_distinct<E: DistinctElement>(alloc: Global, items: &[E::Value]) -> Result<bool, AllocError>
    ensures { IfOk result (λ b. b ≡ is_distinct E.clash items.now) }
{
    let mut keys = Vec::with_capacity(alloc, items.len())?;
    for item in items {
        keys.push(E::key(*item))?;
    }
    cf_calls::are_distinct(alloc, keys.as_slice())
}

/// A list of `least` to `most` elements, of which no two clash.
pub fn take_distinct<E: DistinctElement>(
    alloc: Global,
    least: u16,
    most: u16,
    bytes: &[u8],
) -> Result<(List<E::Value>, &[u8]), Refused>
    ensures { Gives (λ x. (x.0, x.1.now)) result
        ((kept (is_distinct E.clash) (list least most E.Element.format)).read bytes.now) }
{
    let (items, rest) = take_list::<E>(alloc, least, most, bytes)?;
    if are_distinct::<E>(alloc, items.as_slice())? {
        Ok((items, rest))
    } else {
        Err(faulty(bytes))
    }
}
