//! How answers get to the sink. They gather, and are written only here.

ghost use Rattle.std.specs.Prelude.{◌≡◌, ◌+◌, ◌≤◌, ℕ, List, [], OnOk, OnErr, vec_len, vec_capacity};
ghost use Rattle.std.specs.Io.KnownBytes.{Appends};
ghost use Rattle.cf_base.specs.Common.{HasCause};
ghost use Rattle.cf_base_lines.specs.Sinks.{Wrote};

use cf_base::{Failed, Sink};

// The room that an answer needs: one that is longer makes its own.
const ANSWER_ROOM: usize = 1024;

/// Writes all of it, or a front of it where a write fails.
pub fn write_all<K: Sink>(sink: &mut K, bytes: &[u8]) -> Result<(), Failed>
    ensures ok { OnOk result (Appends (K.held sink.old) (K.held sink.new) bytes.now) }
    ensures err { OnErr result
        ((rest : List ℕ) × Wrote (K.held sink.old) (K.held sink.new) bytes.now rest) }
    ensures cause { HasCause (K.faults sink.old) (K.faults sink.new) result }
    ensures quiet { OnOk result (K.faults sink.new ≡ K.faults sink.old) }
{
    let mut rest = bytes;
    while !rest.is_empty() {
        let count = sink.write(rest)?;
        (_, rest) = rest.split_at(count);
    }
    Ok(())
}

/// Writes the answers that wait.
pub fn flush<K: Sink>(sink: &mut K, pending: &mut Vec<u8>) -> Result<(), Failed>
    ensures ok { OnOk result
        (Wrote (K.held sink.old) (K.held sink.new) pending.old.items pending.new.items) }
    ensures all { OnOk result (pending.new.items ≡ []) }
    ensures err { OnErr result
        ((rest : List ℕ) × Wrote (K.held sink.old) (K.held sink.new) pending.old.items rest) }
    ensures capacity { vec_capacity pending.old ≤ vec_capacity pending.new }
    ensures cause { HasCause (K.faults sink.old) (K.faults sink.new) result }
    ensures quiet { OnOk result (K.faults sink.new ≡ K.faults sink.old) }
{
    write_all(sink, pending.as_slice())?;
    pending.clear();
    Ok(())
}

/// Before a line is answered: writes the answers that wait where one more has no room.
pub fn make_room<K: Sink>(sink: &mut K, pending: &mut Vec<u8>) -> Result<(), Failed>
    requires { 1024 ≤ vec_capacity pending.old }
    ensures ok { OnOk result
        (Wrote (K.held sink.old) (K.held sink.new) pending.old.items pending.new.items) }
    ensures room { OnOk result (vec_len pending.new + 1024 ≤ vec_capacity pending.new) }
    ensures err { OnErr result
        ((rest : List ℕ) × Wrote (K.held sink.old) (K.held sink.new) pending.old.items rest) }
    ensures capacity { vec_capacity pending.old ≤ vec_capacity pending.new }
    ensures cause { HasCause (K.faults sink.old) (K.faults sink.new) result }
    ensures quiet { OnOk result (K.faults sink.new ≡ K.faults sink.old) }
{
    if pending.len() + ANSWER_ROOM <= pending.capacity() {
        return Ok(());
    }
    flush(sink, pending)
}
