//! The fields of a JSON object.

ghost use Rattle.std.specs.Prelude.{◌≡◌, ◌||◌, [], map, option_map, string_bytes, find, true, IfOk};
ghost use Rattle.std.specs.BTreeMap.{keys};
ghost use Rattle.std.specs.List.{list_any, list_all};
ghost use Rattle.std.specs.List.Sorted.{IsStrictlySortedBy};
ghost use Rattle.std.specs.String.{string_cmp};
ghost use Rattle.std.specs.Str.{bytes_eq};
ghost use Rattle.serde_json.specs.View.{view};
ghost use Rattle.cf_calls.specs.Common.{is_key, is_key_byte};
ghost use Rattle.cf_json_members.specs.declared.fault.FormFault.TheVariants.{Fields};
ghost use Rattle.cf_json_members.specs.Faults.{Gives, Says};
ghost use Rattle.cf_json_members.specs.Faults as faults;
ghost use Rattle.cf_json_members.specs.Fields as spec;
ghost use Rattle.cf_json_members.specs.Kinds.{as_key};

use crate::fault::{CallRefused, FormFault};
use crate::kinds::FieldKind;
use cf_calls::{Key, Label};
use serde_json::{Map, Value};
use std::alloc::Global;

/// The fault of a field.
pub fn fault(alloc: Global, name: &str) -> CallRefused
    ensures { Says result (Fields name.now) }
{
    match Label::new(alloc, name) {
        Ok(name) => CallRefused::Form(FormFault::Fields { name }),
        Err(_) => CallRefused::NoMemory,
    }
}

/// A rule of form, which speaks under the name of a field.
pub fn must(alloc: Global, holds: bool, name: &str) -> Result<(), CallRefused>
    ensures answer { Gives result (faults.must holds name.now) }
    ensures kept { IfOk result (λ _. holds ≡ true) }
{
    if holds {
        Ok(())
    } else {
        Err(fault(alloc, name))
    }
}

/// A field that must be there.
pub fn need<K: FieldKind>(alloc: Global, value: &Value, name: &str) -> Result<K::Out, CallRefused>
    ensures answer { Gives result (spec.field K.kind name.now (view value.now)) }
    ensures form { IfOk result K.fits }
{
    match value.get(name) {
        Some(found) => match K::read(found) {
            Some(out) => Ok(out),
            None => Err(fault(alloc, name)),
        },
        None => Err(fault(alloc, name)),
    }
}

/// A field that may be absent.
pub fn may<K: FieldKind>(
    alloc: Global,
    value: &Value,
    name: &str,
) -> Result<Option<K::Out>, CallRefused>
    ensures { Gives result (spec.optional K.kind name.now (view value.now)) }
{
    match value.get(name) {
        Some(found) => match K::read(found) {
            Some(out) => Ok(Some(out)),
            None => Err(fault(alloc, name)),
        },
        None => Ok(None),
    }
}

fn are_key_bytes(bytes: &[u8]) -> bool
    ensures { result ≡ list_all is_key_byte bytes.now }
{
    bytes.iter().all(|c| 33 <= *c && *c <= 126)
}

/// Whether a text may name a change.
fn is_key_text(text: &str) -> bool
    ensures { result ≡ is_key text.now }
{
    1 <= text.len() && text.len() <= 40 && are_key_bytes(text.as_bytes())
}

/// The field that holds a change's key.
pub fn key(alloc: Global, value: &Value, name: &str) -> Result<Key, CallRefused>
    ensures answer { Gives result (spec.field as_key name.now (view value.now)) }
    ensures form { IfOk result (λ k. is_key k ≡ true) }
{
    let Some(text) = value.get(name).and_then(Value::as_str) else {
        return Err(fault(alloc, name));
    };
    if !is_key_text(text) {
        return Err(fault(alloc, name));
    }
    match Key::new(alloc, text) {
        Ok(key) => Ok(key),
        Err(_) => Err(CallRefused::NoMemory),
    }
}

fn is_listed(names: &[&str], key: &str) -> bool
    ensures { result ≡ list_any (λ n. bytes_eq n.now key.now) names.now }
{
    names.iter().any(|name| *name == key)
}

#[tactic(auto, using(crate::proofs::Names::listed_names))]
fn is_stranger(shared: &[&str], own: &[&str], key: &str) -> bool
    ensures { result ≡ spec.is_stranger (map (λ n. n.now) shared.now)
        (map (λ n. n.now) own.now) key.now }
{
    !(is_listed(shared, key) || is_listed(own, key))
}

/// The first key that neither list has. Keys stand in order.
fn strange_key<'a>(
    fields: &'a Map<String, Value>,
    shared: &[&str],
    own: &[&str],
) -> Option<&'a String>
    ensures found { option_map (λ k. k.now) result
        ≡ find (λ k. spec.is_stranger (map (λ n. n.now) shared.now) (map (λ n. n.now) own.now)
        (string_bytes k)) (keys fields.now) }
    ensures ordered { IsStrictlySortedBy string_cmp (keys fields.now) }
{
    fields
        .keys()
        .find(|key| is_stranger(shared, own, key.as_str()))
}

/// The least field that neither list has.
fn stranger<'a>(value: &'a Value, shared: &[&str], own: &[&str]) -> Option<&'a String>
    ensures { option_map (λ k. string_bytes k.now) result
        ≡ spec.stranger (map (λ n. n.now) shared.now) (map (λ n. n.now) own.now) (view value.now) }
{
    match value.as_object() {
        Some(fields) => strange_key(fields, shared, own),
        None => None,
    }
}

/// Whether each field is listed.
pub fn has_only(value: &Value, names: &[&str]) -> bool
    ensures { result ≡ spec.has_only (map (λ n. n.now) names.now) (view value.now) }
{
    stranger(value, &[], names).is_none()
}

/// Refuses a field that neither list has.
pub fn only(alloc: Global, value: &Value, shared: &[&str], own: &[&str]) -> Result<(), CallRefused>
    ensures { Gives result
        (spec.only (map (λ n. n.now) shared.now) (map (λ n. n.now) own.now) (view value.now)) }
{
    match stranger(value, shared, own) {
        None => Ok(()),
        Some(name) => Err(fault(alloc, name.as_str())),
    }
}
