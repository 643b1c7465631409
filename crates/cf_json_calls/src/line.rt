//! The line of a change.

ghost use Rattle.std.specs.Prelude.{◌≡◌, ◌++◌, false, true, codes, Ok, OnOk};
ghost use Rattle.std.specs.List.{list_all};
ghost use Rattle.cf_calls.specs.declared.call.Call.TheVariants as call;
ghost use Rattle.cf_calls.specs.Common.{IsChangeInForm, is_key};
ghost use Rattle.cf_json.specs.Calls.{call_of};
ghost use Rattle.cf_json_members.specs.Parts.{is_plain};
ghost use Rattle.cf_json_calls.specs.CallText as spec;
ghost use Rattle.cf_json_calls.specs.CallText.{call_text, fields_text};
ghost use Rattle.cf_json_calls.specs.Fits.{ChangeFits, HasFit, IsN16, IsN64};

use crate::acts::put_own;
use crate::pieces::{put_fields, put_key_field};
use cf_calls::{Act, Change};
use cf_json_members::parts::Part::{Date, Number, Word};
use std::alloc::AllocError;

/// The word of an act's call.
pub fn call_word(act: &Act) -> &'static str
    ensures value { result.now ≡ spec.call_word act.now }
    ensures plain { list_all is_plain result.now ≡ true }
{
    act.kind().row().word
}

/// Appends the fields that every changing call has.
fn put_front(out: &mut Vec<u8>, change: &Change) -> Result<(), AllocError>
    requires { is_key change.now.key ≡ true }
    ensures text { OnOk result
        (out.new.items ≡ out.old.items ++ fields_text false (spec.first_fields change.now)) }
    ensures fits { OnOk result (IsN16 change.now.desk) }
{
    put_fields(
        out,
        false,
        &[
            ("call", Word(call_word(&change.act))),
            ("desk", Number(change.desk as u64)),
        ],
    )?;
    put_key_field(out, "key", change.key.as_str().as_bytes())?;
    put_fields(out, true, &[("on", Date(change.on))])
}

/// Appends the length of the history that the caller has seen, where the change states one.
fn put_after(out: &mut Vec<u8>, after: Option<u64>) -> Result<(), AllocError>
    ensures text { OnOk result
        (out.new.items ≡ out.old.items
        ++ fields_text true (spec.optional_field (codes "after") after)) }
    ensures fits { HasFit IsN64 after }
{
    match after {
        None => Ok(()),
        Some(count) => put_fields(out, true, &[("after", Number(count))]),
    }
}

/// Appends the line of a change, and shows that its numbers fit their types.
fn put_call(out: &mut Vec<u8>, change: &Change) -> Result<(), AllocError>
    requires { is_key change.now.key ≡ true }
    ensures text { OnOk result (out.new.items ≡ out.old.items ++ call_text change.now) }
    ensures fits { OnOk result (ChangeFits change.now) }
{
    out.push(b'{')?;
    put_front(out, change)?;
    put_own(out, &change.act)?;
    put_after(out, change.after)?;
    out.push(b'}')?;
    Ok(())
}

/// Appends the line that a desk sends for a change, with no newline: compact, its fields in the
/// order of the call, and a field that may be absent only where it says something. What is read of
/// it is this change again. Where there is no memory a part of the line may be appended.
pub fn write_call(change: &Change, out: &mut Vec<u8>) -> Result<(), AllocError>
    requires { IsChangeInForm change.now }
    ensures text { OnOk result (out.new.items ≡ out.old.items ++ call_text change.now) }
    ensures call { OnOk result (call_of (call_text change.now) ≡ Ok (call.Change change.now)) }
{
    put_call(out, change)
}
