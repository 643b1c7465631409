//! From a line to a call.

ghost use Rattle.std.specs.Prelude.{◌≡◌, IfOk};
ghost use Rattle.serde_json.specs.View.{view};
ghost use Rattle.cf_calls.specs.Common.{IsCallInForm};
ghost use Rattle.cf_json_members.specs.Faults.{Gives};
ghost use Rattle.cf_json.specs.Calls as spec;

use crate::acts::{act_of, own_names};
use crate::looks::{look_names, read_of};
use crate::words::{LookWord, change_word, look_word};
use cf_calls::{ActKind, Call, Change, Look};
use cf_json_members::fields::{key, may, need, only};
use cf_json_members::kinds::{Count, DayText, N16};
use cf_json_members::{CallRefused, FormFault};
use serde_json::Value;
use serde_json::error::Category;
use std::alloc::Global;

fn change_of(alloc: Global, word: ActKind, value: &Value) -> Result<Call, CallRefused>
    ensures answer { Gives result (spec.change_of word (view value.now)) }
    ensures form { IfOk result IsCallInForm }
{
    let desk = need::<N16>(alloc, value, "desk")?;
    let key = key(alloc, value, "key")?;
    let on = need::<DayText>(alloc, value, "on")?;
    let act = act_of(alloc, word, on, value)?;
    let after = may::<Count>(alloc, value, "after")?;
    let shared = ["call", "desk", "key", "on", "after"];
    only(alloc, value, &shared, own_names(&act))?;
    Ok(Call::Change(Change {
        desk,
        key,
        on,
        after,
        act,
    }))
}

fn look_of(alloc: Global, word: LookWord, value: &Value) -> Result<Call, CallRefused>
    ensures answer { Gives result (spec.look_of word (view value.now)) }
    ensures form { IfOk result IsCallInForm }
{
    let read = read_of(alloc, word, value)?;
    let after = may::<Count>(alloc, value, "after")?;
    only(alloc, value, &["call", "after"], look_names(word))?;
    Ok(Call::Look(Look { after, read }))
}

/// Whether a field is there that changing calls alone have.
fn has_hand(value: &Value) -> bool
    ensures { result ≡ spec.has_hand (view value.now) }
{
    value.get("desk").is_some() || value.get("key").is_some() || value.get("on").is_some()
}

fn call_by(
    alloc: Global,
    change: Option<ActKind>,
    look: Option<LookWord>,
    value: &Value,
) -> Result<Call, CallRefused>
    ensures answer { Gives result (spec.call_by change look (view value.now)) }
    ensures form { IfOk result IsCallInForm }
{
    match (change, look) {
        (None, None) => Err(CallRefused::Form(FormFault::Call)),
        (Some(word), None) => change_of(alloc, word, value),
        (None, Some(word)) => look_of(alloc, word, value),
        (Some(change), Some(look)) => if has_hand(value) {
            change_of(alloc, change, value)
        } else {
            look_of(alloc, look, value)
        },
    }
}

fn object_call(alloc: Global, value: &Value) -> Result<Call, CallRefused>
    ensures answer { Gives result (spec.object_call_of (view value.now)) }
    ensures form { IfOk result IsCallInForm }
{
    if value.as_object().is_none() {
        return Err(CallRefused::Form(FormFault::Json));
    }
    match value.get("call") {
        Some(word) => call_by(alloc, change_word(word), look_word(word), value),
        None => Err(CallRefused::Form(FormFault::Call)),
    }
}

/// The call that a line is, which is in form, or the first fault of its form. Its value is what
/// `serde_json` reads. Otherwise `NoMemory`.
pub fn read_call(alloc: Global, bytes: &[u8]) -> Result<Call, CallRefused>
    ensures call { Gives result (spec.call_of bytes.now) }
    ensures form { IfOk result IsCallInForm }
{
    let Ok(text) = str::from_utf8(bytes) else {
        return Err(CallRefused::Form(FormFault::Json));
    };
    match Value::from_str(alloc, text) {
        Ok(value) => object_call(alloc, &value),
        Err(error) => match error.classify() {
            Category::Memory => Err(CallRefused::NoMemory),
            _ => Err(CallRefused::Form(FormFault::Json)),
        },
    }
}
