//! What a document of grants has.

ghost use Rattle.std.specs.Prelude.{◌≡◌, ◌++◌, decimal, pos, string_bytes, IfOk, OnOk};
ghost use Rattle.cf_base.specs.Common.{money_of};
ghost use Rattle.cf_books_grants.specs.Documents as spec;

use cf_base::money_text;
use cf_grants::{Grant, Grants};
use cf_json_members::parts::put_number;
use std::alloc::{AllocError, Global};

/// Appends a text and a number.
pub fn put_count(out: &mut Vec<u8>, text: &str, n: u64) -> Result<(), AllocError>
    ensures { OnOk result (out.new.items ≡ out.old.items ++ (text.now ++ decimal n)) }
{
    out.extend_from_slice(text.as_bytes())?;
    put_number(out, n)
}

/// An amount of cents in units of money.
pub fn money(alloc: Global, cents: u64) -> Result<String, AllocError>
    ensures { IfOk result (λ t. string_bytes t ≡ money_of (pos cents)) }
{
    money_text(alloc, cents as i128)
}

/// Appends a text and an amount in units of money.
fn put_money(alloc: Global, out: &mut Vec<u8>, text: &str, cents: u64) -> Result<(), AllocError>
    ensures { OnOk result (out.new.items ≡ out.old.items ++ (text.now ++ money_of (pos cents))) }
{
    let amount = money(alloc, cents)?;
    out.extend_from_slice(text.as_bytes())?;
    out.extend_from_slice(amount.as_str().as_bytes())
}

/// Appends the line of a grant.
fn put_grant(alloc: Global, out: &mut Vec<u8>, grant: &Grant) -> Result<(), AllocError>
    ensures { OnOk result (out.new.items ≡ out.old.items ++ spec.grant_line grant.now) }
{
    put_count(out, "grant ", grant.id as u64)?;
    put_count(out, ": source ", grant.source as u64)?;
    put_count(out, ", payer ", grant.payer as u64)?;
    put_money(alloc, out, ", award ", grant.award)?;
    put_count(out, ", rate_bp ", grant.rate_bp as u64)?;
    put_count(out, ", lines ", grant.lines.as_slice().len() as u64)?;
    out.push(b'\n')?;
    Ok(())
}

/// Appends the lines of grants.
fn put_grants(alloc: Global, out: &mut Vec<u8>, grants: &[Grant]) -> Result<(), AllocError>
    ensures { OnOk result (out.new.items ≡ out.old.items ++ spec.grants_text grants.now) }
{
    for grant in grants {
        put_grant(alloc, out, grant)?;
    }
    Ok(())
}

/// What a document of grants has: how many, and a line a grant.
pub fn document_text(alloc: Global, grants: &Grants) -> Result<Vec<u8>, AllocError>
    ensures { IfOk result (λ text. text.items ≡ spec.document_text grants.now) }
{
    let grants = grants.as_slice();
    let mut out = Vec::new(alloc);
    put_count(&mut out, "grants: ", grants.len() as u64)?;
    out.push(b'\n')?;
    put_grants(alloc, &mut out, grants)?;
    Ok(out)
}
