//! The pieces that a call's line is made of.

ghost use Rattle.std.specs.Prelude.{◌≡◌, [], ◌∷◌, ◌++◌, true, OnOk};
ghost use Rattle.std.specs.List.{list_all};
ghost use Rattle.json.specs.Print.{escape_byte, quoted};
ghost use Rattle.serde_json.specs.Data.{string};
ghost use Rattle.serde_json.specs.Written.{comma_if};
ghost use Rattle.cf_calls.specs.Common.{is_key_byte};
ghost use Rattle.cf_json_members.specs.Objects.{text_of};
ghost use Rattle.cf_json_members.specs.Parts.{is_plain, is_plain_field, fields_of};
ghost use Rattle.cf_json_calls.specs.CallText.{fields_text};
ghost use Rattle.cf_json_calls.specs.Values.{signed};

use cf_json_members::parts::{Part, put_field, put_quoted};
use itoa::Buffer;
use std::alloc::AllocError;

/// Appends a comma, where something stands before.
pub fn put_comma(out: &mut Vec<u8>, later: bool) -> Result<(), AllocError>
    ensures { OnOk result (out.new.items ≡ out.old.items ++ comma_if later) }
{
    if later {
        out.push(b',')?;
    }
    Ok(())
}

/// Appends fields with their names, each behind a comma where something stands before it.
#[tactic(auto, unfolding(cf_json_members::specs::Objects::text_of))]
pub fn put_fields(
    out: &mut Vec<u8>,
    later: bool,
    fields: &[(&str, Part<'_>)],
) -> Result<(), AllocError>
    requires { list_all is_plain_field fields.now ≡ true }
    ensures { OnOk result
        (out.new.items ≡ out.old.items ++ fields_text later (fields_of fields.now)) }
{
    let mut later = later;
    for field in fields {
        put_comma(out, later)?;
        put_field(out, field.0, &field.1)?;
        later = true;
    }
    Ok(())
}

/// Appends the name of a further field, up to its value.
pub fn put_name(out: &mut Vec<u8>, name: &str) -> Result<(), AllocError>
    requires { list_all is_plain name.now ≡ true }
    ensures { OnOk result (out.new.items ≡ out.old.items ++ 44 ∷ (quoted name.now ++ 58 ∷ [])) }
{
    out.push(b',')?;
    put_quoted(out, name.as_bytes())?;
    out.push(b':')?;
    Ok(())
}

/// Appends a number that may be negative.
#[tactic(auto, unfolding(cf_json_members::specs::Objects::text_of))]
fn put_signed(out: &mut Vec<u8>, n: i64) -> Result<(), AllocError>
    ensures { OnOk result (out.new.items ≡ out.old.items ++ text_of (signed n)) }
{
    let mut buffer = Buffer::new();
    out.extend_from_slice(buffer.format(n).as_bytes())
}

/// Appends a key's byte. A quotation mark and a backslash are escaped.
#[tactic(auto, unfolding(json::specs::Print::escape_byte))]
fn put_key_byte(out: &mut Vec<u8>, byte: u8) -> Result<(), AllocError>
    requires { is_key_byte byte ≡ true }
    ensures { OnOk result (out.new.items ≡ out.old.items ++ escape_byte byte) }
{
    if byte == b'"' {
        return out.extend_from_slice(b"\\\"");
    }
    if byte == b'\\' {
        return out.extend_from_slice(b"\\\\");
    }
    out.push(byte)?;
    Ok(())
}

/// Appends a key as a JSON text.
fn put_key(out: &mut Vec<u8>, key: &[u8]) -> Result<(), AllocError>
    requires { list_all is_key_byte key.now ≡ true }
    ensures { OnOk result (out.new.items ≡ out.old.items ++ quoted key.now) }
{
    out.push(b'"')?;
    for byte in key {
        put_key_byte(out, *byte)?;
    }
    out.push(b'"')?;
    Ok(())
}

/// Appends a further field that is a key.
#[tactic(auto, unfolding(cf_json_members::specs::Objects::text_of))]
pub fn put_key_field(out: &mut Vec<u8>, name: &str, key: &[u8]) -> Result<(), AllocError>
    requires name { list_all is_plain name.now ≡ true }
    requires key { list_all is_key_byte key.now ≡ true }
    ensures { OnOk result
        (out.new.items ≡ out.old.items ++ fields_text true ((name.now, string key.now) ∷ [])) }
{
    put_name(out, name)?;
    put_key(out, key)
}

/// Appends a further field that is a number which may be negative.
pub fn put_signed_field(out: &mut Vec<u8>, name: &str, n: i64) -> Result<(), AllocError>
    requires { list_all is_plain name.now ≡ true }
    ensures { OnOk result
        (out.new.items ≡ out.old.items ++ fields_text true ((name.now, signed n) ∷ [])) }
{
    put_name(out, name)?;
    put_signed(out, n)
}
