//! An entry written as its payload.

ghost use Rattle.std.specs.Prelude.{◌≡◌, ◌+◌, ◌≤◌, ◌++◌, length, IsOk, OnOk, OnErr, vec_len, vec_capacity};
ghost use Rattle.cf_calls.specs.Common.{IsEntryInForm};
ghost use Rattle.cf_codec.specs.Entries.{HasPayload, IsDrawnShort, drawn_as, payload};
ghost use Rattle.cf_codec.specs.Entries as spec;
ghost use Rattle.cf_codec_fields.specs.Puts.{HasRoom, Puts};

use crate::fault::NoMemory;
use crate::measure::entry_len;
use crate::put_acts::put_act;
use cf_calls::{Drawn, Draws, Entry};
use cf_codec_fields::put::{put_day, put_half, put_key, put_kind, put_word};

/// Writes drawn numbers.
fn put_drawn(out: &mut Vec<u8>, draws: Draws, drawn: Drawn)
    requires payment { IsDrawnShort draws drawn }
    requires room { HasRoom (drawn_as draws) drawn out.old }
    ensures { Puts (drawn_as draws) drawn out.old out.new }
{
    match draws {
        Draws::Nothing => {}
        Draws::Number => put_word(out, drawn.number),
        Draws::Both => {
            put_word(out, drawn.number);
            put_word(out, drawn.second);
        }
        Draws::Payment => put_half(out, drawn.number as u16),
    }
}

/// Writes an entry in form, where there is room for it.
fn put_entry(out: &mut Vec<u8>, e: &Entry)
    requires form { IsEntryInForm e.now }
    requires room { HasRoom spec.entry e.now out.old }
    ensures { Puts spec.entry e.now out.old out.new }
{
    put_kind(out, e.change.act.kind());
    put_half(out, e.change.desk);
    put_key(out, &e.change.key);
    put_day(out, e.change.on);
    put_act(out, e.change.on, &e.change.act);
    put_drawn(out, e.change.act.draws(), e.drawn);
}

/// How many bytes the payload of an entry in form has: from 12 to 43,576, which is the longest
/// adoption.
pub fn payload_len(entry: &Entry) -> u64
    requires form { IsEntryInForm entry.now }
    ensures size { result ≡ length (payload entry.now) }
    ensures small { result ≤ 33423424 }
{
    entry_len(entry)
}

/// Appends the payload of an entry in form. It takes no memory where `out` has room for it. Where
/// there is none, `out` stays.
#[tactic(auto, unfolding(crate::specs::Entries::payload))]
pub fn write_entry(entry: &Entry, out: &mut Vec<u8>) -> Result<(), NoMemory>
    requires form { IsEntryInForm entry.now }
    ensures text { OnOk result (out.new.items ≡ out.old.items ++ payload entry.now) }
    ensures room { vec_len out.old + length (payload entry.now) ≤ vec_capacity out.old
        → IsOk result }
    ensures err { OnErr result (out.new.items ≡ out.old.items) }
    ensures entry { OnOk result (HasPayload entry.now) }
    ensures capacity { vec_capacity out.old ≤ vec_capacity out.new }
{
    match out.reserve(payload_len(entry) as usize) {
        Ok(()) => {
            put_entry(out, entry);
            Ok(())
        }
        Err(_) => Err(NoMemory),
    }
}
