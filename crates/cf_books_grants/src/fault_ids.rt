//! The id of the row that a fault is in, which tells more than its place.

ghost use Rattle.std.specs.Prelude.{◌≡◌, ◌++◌, IfOk, OnOk};
ghost use Rattle.toml.specs.View.{view};
ghost use Rattle.cf_chart.specs.Common.{natural as a_natural};
ghost use Rattle.cf_grants.specs.Reading.{value_of};
ghost use Rattle.cf_books_grants.specs.FaultIds as spec;

use cf_books_lists::put_between;
use cf_grants::{GrantFault, GrantKey};
use std::alloc::{AllocError, Global};
use toml::Value;

/// Whether a fault of this key is one of a grant whose id is another key.
fn is_beside_id(key: GrantKey) -> bool
    ensures { result ≡ spec.is_beside_id key }
{
    !matches!(key, GrantKey::Grant | GrantKey::Id)
}

/// This place, where it is wanted.
fn place_if(wanted: bool, at: u64) -> Option<u64>
    ensures { result ≡ spec.place_if wanted at }
{
    if wanted { Some(at) } else { None }
}

/// The place of the grant that a fault is in, where its id can say so.
fn place_of(fault: GrantFault) -> Option<u64>
    ensures { result ≡ spec.place_of fault }
{
    match fault {
        GrantFault::Missing { at, key } => place_if(is_beside_id(key), at),
        GrantFault::Bad { at, key } => place_if(is_beside_id(key), at),
        GrantFault::Twice { at } => Some(at),
        _ => None,
    }
}

/// A number that isn't negative.
fn natural(n: i64) -> Option<u64>
    ensures { result ≡ a_natural n }
{
    u64::try_from(n).ok()
}

/// The id of a row of a document, 0 to 65535, where it is in form.
pub fn id_in(row: &Value) -> Option<u16>
    ensures { result ≡ spec.id_in (view row.now) }
{
    match row.get("id")?.as_integer().and_then(natural) {
        Some(id) if id <= 65_535 => Some(id as u16),
        _ => None,
    }
}

/// Appends the id of a row, where it is known.
pub fn put_id(out: &mut Vec<u8>, id: Option<u16>) -> Result<(), AllocError>
    ensures { OnOk result (out.new.items ≡ out.old.items ++ spec.id_text id) }
{
    match id {
        None => Ok(()),
        Some(id) => put_between(out, " (id ", id as u64, ")"),
    }
}

/// The id of the grant at a place of a document.
fn id_at(document: &Value, at: u64) -> Option<u16>
    ensures { result ≡ spec.id_at at (view document.now) }
{
    id_in(document.get("grant")?.get(at as usize)?)
}

/// The id of the grant at a place of the document that these bytes are. It has none where they are
/// no document.
fn id_under(alloc: Global, bytes: &[u8], at: u64) -> Result<Option<u16>, AllocError>
    ensures { IfOk result (λ id. id ≡ spec.id_under at (value_of bytes.now)) }
{
    match toml::table_from_slice(alloc, bytes) {
        Ok(table) => Ok(id_at(&Value::from(table), at)),
        Err(error) if error.is_memory() => Err(AllocError),
        Err(_) => Ok(None),
    }
}

/// The id of the grant that a fault of a document is in, where it has one in form.
pub fn fault_id(alloc: Global, bytes: &[u8], fault: GrantFault) -> Result<Option<u16>, AllocError>
    ensures { IfOk result (λ id. id ≡ spec.fault_id bytes.now fault) }
{
    match place_of(fault) {
        Some(at) => id_under(alloc, bytes, at),
        None => Ok(None),
    }
}
