//! The fault of a document of grants, in words.

ghost use Rattle.std.specs.Prelude.{◌≡◌, ◌++◌, OnOk};
ghost use Rattle.cf_grants.specs.Faults.{word_of};
ghost use Rattle.cf_books_grants.specs.Faults as spec;

use crate::document::put_count;
use crate::fault_ids::put_id;
use cf_books_lists::put_text;
use cf_grants::{GrantFault, GrantKey};
use std::alloc::AllocError;

/// Appends the place of a grant and its id.
fn put_row(out: &mut Vec<u8>, at: u64, id: Option<u16>) -> Result<(), AllocError>
    ensures { OnOk result (out.new.items ≡ out.old.items ++ spec.row_text at id) }
{
    put_count(out, "grant ", at)?;
    put_id(out, id)
}

/// Appends what is wrong with a key.
fn put_key(out: &mut Vec<u8>, wrong: &str, key: GrantKey) -> Result<(), AllocError>
    ensures { OnOk result (out.new.items ≡ out.old.items ++ (wrong.now ++ word_of key)) }
{
    out.extend_from_slice(wrong.as_bytes())?;
    out.extend_from_slice(key.word().as_bytes())
}

/// Appends the fault of a document of grants, which is in a row of this id.
pub fn put_fault(out: &mut Vec<u8>, fault: GrantFault, id: Option<u16>) -> Result<(), AllocError>
    ensures { OnOk result (out.new.items ≡ out.old.items ++ spec.fault_text fault id) }
{
    match fault {
        GrantFault::TooLong => out.extend_from_slice(b"longer than 1048576 bytes"),
        GrantFault::NotToml => out.extend_from_slice(b"no TOML document"),
        GrantFault::TooMany => out.extend_from_slice(b"more than 64 grants"),
        GrantFault::Missing { at, key } => {
            put_row(out, at, id)?;
            put_key(out, " has no ", key)
        }
        GrantFault::Bad { at, key } => {
            put_row(out, at, id)?;
            put_key(out, " has a bad ", key)
        }
        GrantFault::Twice { at } => {
            put_row(out, at, id)?;
            put_text(out, " stands twice")
        }
        GrantFault::Unknown { id } => put_count(out, "no grant ", id as u64),
    }
}
