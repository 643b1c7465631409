//! The places of entries by desk and key, with 0 for a key that is only reserved.

ghost use Rattle.std.specs.Prelude.{◌≡◌, ℕ, List, OnOk, if◌then◌else◌, true};
ghost use Rattle.std.specs.Str.{bytes_eq};
ghost use Rattle.cf_office_history.specs.Keys.{key_number, has_key, has_desk, text_number, has_text, SameKeys, PutsKey};

use std::alloc::{AllocError, Global};
use std::collections::BTreeMap;

pub type Keys = BTreeMap<String, u64>;

pub type Known = BTreeMap<u16, Keys>;

/// The place of a desk's key, and 0 where it has none.
pub fn place_in(known: &Known, desk: u16, key: &str) -> u64
    ensures { result ≡ key_number known.now desk key.now }
{
    match known.get(&desk) {
        Some(keys) => text_place(keys, key),
        None => 0,
    }
}

fn text_place(keys: &Keys, key: &str) -> u64
    ensures { result ≡ text_number keys.now key.now }
{
    match keys.get(key) {
        Some(place) => *place,
        None => 0,
    }
}

/// Reserves a desk's key, so that its place takes no memory. No place changes.
pub fn reserve_key(alloc: Global, known: &mut Known, desk: u16, key: &str) -> Result<(), AllocError>
    ensures has { OnOk result (has_key known.new desk key.now ≡ true) }
    ensures same { SameKeys known.old known.new }
{
    reserve_desk(alloc, known, desk)?;
    reserve_of(alloc, known, desk, key)
}

fn reserve_of(alloc: Global, known: &mut Known, desk: u16, key: &str) -> Result<(), AllocError>
    requires { has_desk known.old desk ≡ true }
    ensures has { OnOk result (has_key known.new desk key.now ≡ true) }
    ensures same { SameKeys known.old known.new }
{
    if let Some(keys) = known.get_mut(&desk) {
        return reserve_text(alloc, keys, key);
    }
    Ok(())
}

fn reserve_desk(alloc: Global, known: &mut Known, desk: u16) -> Result<(), AllocError>
    ensures has { OnOk result (has_desk known.new desk ≡ true) }
    ensures same { SameKeys known.old known.new }
{
    if known.contains_key(&desk) {
        return Ok(());
    }
    known.insert(desk, BTreeMap::new(alloc))?;
    Ok(())
}

fn reserve_text(alloc: Global, keys: &mut Keys, key: &str) -> Result<(), AllocError>
    ensures has { OnOk result (has_text keys.new key.now ≡ true) }
    ensures same { (q : List ℕ) → text_number keys.new q ≡ text_number keys.old q }
{
    if keys.contains_key(key) {
        return Ok(());
    }
    let owned = String::from_str(alloc, key)?;
    keys.insert(owned, 0)?;
    Ok(())
}

/// Puts the place of a reserved key. It takes no memory.
pub fn put_place(known: &mut Known, desk: u16, key: &str, place: u64)
    requires { has_key known.old desk key.now ≡ true }
    ensures { PutsKey known.old known.new desk key.now place }
{
    if let Some(keys) = known.get_mut(&desk) {
        put_text(keys, key, place);
    }
}

fn put_text(keys: &mut Keys, key: &str, place: u64)
    requires { has_text keys.old key.now ≡ true }
    ensures { (q : List ℕ)
        → text_number keys.new q ≡ (if bytes_eq key.now q then place else text_number keys.old q) }
{
    if let Some(slot) = keys.get_mut(key) {
        *slot = place;
    }
}
