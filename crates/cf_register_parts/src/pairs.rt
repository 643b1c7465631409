//! Values by two numbers: those of a line and a fiscal year, of a fund and its department, of two
//! funds.

ghost use Rattle.std.specs.Prelude.{◌≡◌, true, OnOk};
ghost use Rattle.cf_register_parts.specs.Pairs.{value_of, has_value, PutsValue, KeepsValues, ReadsSame};
ghost use Rattle.cf_register_parts.specs.Pairs as spec;

use std::alloc::AllocError;
use std::collections::BTreeMap;

/// Two numbers that a value stands under.
#[derive(Clone, Copy, PartialEq, Eq, PartialOrd, Ord)]
pub struct NumberPair {
    pub first: u16,
    pub second: u16,
}

/// The value of two numbers.
pub fn value_in<V: Copy>(map: &BTreeMap<NumberPair, V>, pair: NumberPair) -> Option<V>
    ensures { result ≡ value_of map.now.entries pair.first pair.second }
{
    map.get(&pair).copied()
}

/// The amount of two numbers, 0 where there is none.
pub fn amount_at(map: &BTreeMap<NumberPair, u64>, pair: NumberPair) -> u64
    ensures { result ≡ spec.amount_at map.now.entries pair.first pair.second }
{
    value_in(map, pair).unwrap_or(0)
}

/// Puts a value where there is none, so that a later one takes no memory. Where there is no memory
/// for it, nothing changes.
pub fn reserve_in<V: Copy>(
    map: &mut BTreeMap<NumberPair, V>,
    pair: NumberPair,
    none: V,
) -> Result<(), AllocError>
    ensures has { OnOk result (has_value map.new.entries pair.first pair.second ≡ true) }
    ensures keeps { KeepsValues map.old.entries map.new.entries }
    ensures same { ReadsSame none map.old.entries map.new.entries }
{
    if map.contains_key(&pair) {
        return Ok(());
    }
    map.insert(pair, none)?;
    Ok(())
}

/// Puts a value in the place of one that is there. It takes no memory.
pub fn put_in<V: Copy>(map: &mut BTreeMap<NumberPair, V>, pair: NumberPair, value: V)
    requires { has_value map.old.entries pair.first pair.second ≡ true }
    ensures value { PutsValue map.old.entries map.new.entries pair.first pair.second value }
    ensures keeps { KeepsValues map.old.entries map.new.entries }
{
    if let Some(slot) = map.get_mut(&pair) {
        *slot = value;
    }
}
