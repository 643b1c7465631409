//! Lists of items.

ghost use Rattle.std.specs.Prelude.{◌≡◌, ◌&&◌, nat_le, length, Bool, Option, option_map, IfOk, IfSome};
ghost use Rattle.std.specs.List.{All};
ghost use Rattle.serde_json.specs.View.{view, items_view};
ghost use Rattle.cf_calls.specs.Common.{is_distinct};
ghost use Rattle.cf_calls.specs.Keys.{same_key};
ghost use Rattle.cf_json_members.specs.Faults.{Gives};
ghost use Rattle.cf_json_members.specs.Fields.{field};
ghost use Rattle.cf_json_members.specs.Lists.{as_list, each, IsListOf};

use crate::fault::CallRefused;
use crate::fields::fault;
use crate::kinds::FieldKind;
use cf_calls::List;
use serde_json::Value;
use std::alloc::{AllocError, Global};

/// What stands in a list.
pub trait Item: FieldKind {
    type Key: Ord + Copy;

    /// Which two may not stand in one list.
    ghost clash: { Self.Out → Self.Out → Bool };

    ghost key: { Self.Out → Option Self.Key };

    /// What no other of a list may have, if it has such a thing.
    fn key(item: &Self::Out) -> Option<Self::Key>
        ensures { result ≡ key item.now };

    /// Two clash where their keys are there and equal.
    ghost clash_by_key: { (a b : Self.Out) → clash a b ≡ same_key Self.Key.eq (key a) (key b) };
}

/// The items of the values, or `None` where one of them is no item.
fn read_all<T: Item>(alloc: Global, values: &[Value]) -> Result<Option<Vec<T::Out>>, AllocError>
    ensures answer { IfOk result
        (λ o. option_map (λ v. v.items) o ≡ each T.FieldKind.kind (items_view values.now)) }
    ensures form { IfOk result (λ o. IfSome o (λ v. All T.FieldKind.fits v.items)) }
{
    let mut items = Vec::with_capacity(alloc, values.len())?;
    for value in values {
        match T::read(value) {
            Some(item) => items.push(item)?,
            None => return Ok(None),
        }
    }
    Ok(Some(items))
}

fn are_distinct<T: Item>(alloc: Global, items: &[T::Out]) -> Result<bool, AllocError>
    ensures { IfOk result (λ b. b ≡ is_distinct T.clash items.now) }
{
    let mut keys = Vec::with_capacity(alloc, items.len())?;
    for item in items {
        keys.push(T::key(item))?;
    }
    cf_calls::are_distinct(alloc, keys.as_slice())
}

/// Whether there are `least` to `most` items, of which no two clash.
fn is_list<T: Item>(
    alloc: Global,
    items: &[T::Out],
    least: usize,
    most: usize,
) -> Result<bool, AllocError>
    ensures { IfOk result
        (λ b. b ≡ (nat_le least (length items.now) && nat_le (length items.now) most
        && is_distinct T.clash items.now)) }
{
    let count = items.len();
    if count < least || most < count {
        return Ok(false);
    }
    are_distinct::<T>(alloc, items)
}

/// The field that holds a list of `least` to `most` items, of which no two clash.
pub fn list<T: Item>(
    alloc: Global,
    value: &Value,
    name: &str,
    least: usize,
    most: usize,
) -> Result<List<T::Out>, CallRefused>
    ensures answer { Gives result
        (field (as_list T.FieldKind.kind T.clash least most) name.now (view value.now)) }
    ensures form { IfOk result (IsListOf T.FieldKind.fits T.clash least most) }
{
    let Some(values) = value.get(name).and_then(Value::as_array) else {
        return Err(fault(alloc, name));
    };
    match read_all::<T>(alloc, values.as_slice()) {
        Err(_) => Err(CallRefused::NoMemory),
        Ok(None) => Err(fault(alloc, name)),
        Ok(Some(items)) => match is_list::<T>(alloc, items.as_slice(), least, most) {
            Err(_) => Err(CallRefused::NoMemory),
            Ok(true) => Ok(List::of(items)),
            Ok(false) => Err(fault(alloc, name)),
        },
    }
}
