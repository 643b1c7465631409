//! Form replies in JSON.

ghost use Rattle.std.specs.Prelude.{◌≡◌, ◌+◌, ◌≤◌, [], ◌∷◌, ◌++◌, true, length, codes, string_bytes, IfOk, OnOk, OnErr, IsOk, vec_len, vec_capacity};
ghost use Rattle.std.specs.List.{list_all};
ghost use Rattle.serde_json.specs.Data.{string};
ghost use Rattle.cf_json_members.specs.Objects.{fields, head_text, text_of};
ghost use Rattle.cf_json_members.specs.Parts.{is_plain};
ghost use Rattle.cf_json_replies.specs.Replies as spec;

use cf_json_members::FormFault;
use cf_json_members::parts::Part::Word;
use cf_json_members::parts::{put_head, put_object};
use serde_json::Value;
use std::alloc::{AllocError, Global};

/// The JSON of a text.
#[tactic(auto, unfolding(cf_json_members::specs::Objects::text_of))]
pub fn quoted(alloc: Global, text: &str) -> Result<String, AllocError>
    ensures { IfOk result (λ s. string_bytes s ≡ text_of (string text.now)) }
{
    let value = Value::String(String::from_str(alloc, text)?);
    value.to_string(alloc)
}

/// Appends the form reply of one word, and keeps room for one byte more.
fn write_word(out: &mut Vec<u8>, word: &str) -> Result<(), AllocError>
    requires plain { list_all is_plain word.now ≡ true }
    requires short { length word.now ≤ 100 }
    ensures text { OnOk result
        (out.new.items ≡ out.old.items ++ text_of (fields ((codes "form", string word.now) ∷ []))) }
    ensures room { vec_len out.old + 1024 ≤ vec_capacity out.old → IsOk result }
    ensures err { OnErr result (out.new.items ≡ out.old.items) }
    ensures capacity { vec_capacity out.old ≤ vec_capacity out.new }
    ensures newline { OnOk result (vec_len out.new + 1 ≤ vec_capacity out.new) }
{
    out.reserve(128)?;
    put_object(out, &[("form", Word(word))])
}

/// Appends the form reply that names a field, whose name is already JSON.
#[tactic(auto, unfolding(cf_json_members::specs::Objects::text_of))]
fn put_name(out: &mut Vec<u8>, json: &str) -> Result<(), AllocError>
    ensures text { OnOk result
        (out.new.items ≡ out.old.items
        ++ (head_text (codes "form") (string (codes "fields")) (codes "name")
        ++ (json.now ++ 125 ∷ []))) }
    ensures longer { vec_len out.new ≤ vec_len out.old + (length json.now + 32) }
    ensures room { vec_len out.old + (length json.now + 32) ≤ vec_capacity out.old → IsOk result }
    ensures capacity { vec_capacity out.old ≤ vec_capacity out.new }
{
    put_head(out, "form", &Word("fields"), "name")?;
    out.extend_from_slice(json.as_bytes())?;
    out.push(b'}')?;
    Ok(())
}

/// Appends the form reply that names a field, and keeps room for one byte more.
#[tactic(auto, unfolding(cf_json_members::specs::Objects::text_of))]
fn write_fields(alloc: Global, name: &str, out: &mut Vec<u8>) -> Result<(), AllocError>
    ensures text { OnOk result
        (out.new.items ≡ out.old.items
        ++ text_of (fields ((codes "form", string (codes "fields"))
        ∷ (codes "name", string name.now) ∷ []))) }
    ensures err { OnErr result (out.new.items ≡ out.old.items) }
    ensures capacity { vec_capacity out.old ≤ vec_capacity out.new }
    ensures newline { OnOk result (vec_len out.new + 1 ≤ vec_capacity out.new) }
{
    let json = quoted(alloc, name)?;
    out.reserve(json.len() + 64)?;
    put_name(out, json.as_str())
}

/// Appends the form reply of a fault, and keeps room for one byte more. Where there is no memory
/// `out` stays. A name takes memory; the other faults take none where 1,024 bytes are free.
pub fn write_form(alloc: Global, fault: &FormFault, out: &mut Vec<u8>) -> Result<(), AllocError>
    ensures text { OnOk result (out.new.items ≡ out.old.items ++ spec.form_text fault.now) }
    ensures room { vec_len out.old + 1024 ≤ vec_capacity out.old → spec.IsNameless fault.now
        → IsOk result }
    ensures err { OnErr result (out.new.items ≡ out.old.items) }
    ensures capacity { vec_capacity out.old ≤ vec_capacity out.new }
    ensures newline { OnOk result (vec_len out.new + 1 ≤ vec_capacity out.new) }
{
    match fault {
        FormFault::Json => write_word(out, "json"),
        FormFault::Call => write_word(out, "call"),
        FormFault::Fields { name } => write_fields(alloc, name.as_str(), out),
        FormFault::Long => write_word(out, "long"),
    }
}
