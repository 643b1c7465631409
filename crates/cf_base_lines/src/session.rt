//! Bytes are taken piece by piece, and the lines that end in them are answered.

ghost use Rattle.std.specs.Prelude.{◌≡◌, ◌≢◌, ◌≤◌, ◌∷◌, [], vec_capacity, OnOk, OnErr};
ghost use Rattle.cf_base.specs.Common.{HasCause};
ghost use Rattle.cf_base_lines.specs.Run.{moment_of};
ghost use Rattle.cf_base_lines.specs.State.{Feeds, Breaks, state_of};

use crate::line::{Line, newline_in};
use crate::office::Office;
use crate::output::{flush, make_room};
use crate::reply::put_reply;
use cf_base::{Failed, Sink};

// Takes a newline, and answers the line. The answer to an accepted change is written at once.
fn end_line<O: Office, K: Sink>(
    office: &mut O,
    sink: &mut K,
    line: &mut Line,
    pending: &mut Vec<u8>,
) -> Result<(), Failed>
    requires { 1024 ≤ vec_capacity pending.old }
    ensures ok { OnOk result (Feeds O.answers O.accepted
        (state_of office.old (K.held sink.old) line.old pending.old.items)
        (state_of office.new (K.held sink.new) line.new pending.new.items) (10 ∷ [])) }
    ensures err { OnErr result (Breaks O.answers O.accepted
        (state_of office.old (K.held sink.old) line.old pending.old.items)
        (moment_of office.new (K.held sink.new)) (10 ∷ [])) }
    ensures written { OnOk result
        (O.accepted office.new ≢ O.accepted office.old → pending.new.items ≡ []) }
    ensures capacity { vec_capacity pending.old ≤ vec_capacity pending.new }
    ensures cause { HasCause (K.faults sink.old) (K.faults sink.new) result }
    ensures quiet { OnOk result (K.faults sink.new ≡ K.faults sink.old) }
{
    match make_room(sink, pending) {
        Ok(()) => {}
        Err(failed) => return Err(failed),
    }
    let must_write = put_reply(office, line, pending);
    line.clear();
    if !must_write {
        return Ok(());
    }
    match flush(sink, pending) {
        Ok(()) => Ok(()),
        Err(failed) => Err(failed),
    }
}

// Takes bytes, and answers the lines that end in them.
fn feed<O: Office, K: Sink>(
    office: &mut O,
    sink: &mut K,
    line: &mut Line,
    pending: &mut Vec<u8>,
    piece: &[u8],
) -> Result<(), Failed>
    requires { 1024 ≤ vec_capacity pending.old }
    ensures ok { OnOk result (Feeds O.answers O.accepted
        (state_of office.old (K.held sink.old) line.old pending.old.items)
        (state_of office.new (K.held sink.new) line.new pending.new.items) piece.now) }
    ensures err { OnErr result (Breaks O.answers O.accepted
        (state_of office.old (K.held sink.old) line.old pending.old.items)
        (moment_of office.new (K.held sink.new)) piece.now) }
    ensures capacity { vec_capacity pending.old ≤ vec_capacity pending.new }
    ensures cause { HasCause (K.faults sink.old) (K.faults sink.new) result }
    ensures quiet { OnOk result (K.faults sink.new ≡ K.faults sink.old) }
{
    let mut rest = piece;
    while let Some(place) = newline_in(rest) {
        let (front, back) = rest.split_at(place);
        line.push(front);
        match end_line(office, sink, line, pending) {
            Ok(()) => {}
            Err(failed) => return Err(failed),
        }
        (_, rest) = back.split_at(1);
    }
    line.push(rest);
    Ok(())
}

/// Takes bytes, answers the lines that end in them, and writes the answers: the next read may wait.
pub fn feed_whole<O: Office, K: Sink>(
    office: &mut O,
    sink: &mut K,
    line: &mut Line,
    pending: &mut Vec<u8>,
    piece: &[u8],
) -> Result<(), Failed>
    requires { 1024 ≤ vec_capacity pending.old }
    ensures ok { OnOk result (Feeds O.answers O.accepted
        (state_of office.old (K.held sink.old) line.old pending.old.items)
        (state_of office.new (K.held sink.new) line.new pending.new.items) piece.now) }
    ensures written { OnOk result (pending.new.items ≡ []) }
    ensures err { OnErr result (Breaks O.answers O.accepted
        (state_of office.old (K.held sink.old) line.old pending.old.items)
        (moment_of office.new (K.held sink.new)) piece.now) }
    ensures capacity { vec_capacity pending.old ≤ vec_capacity pending.new }
    ensures cause { HasCause (K.faults sink.old) (K.faults sink.new) result }
    ensures quiet { OnOk result (K.faults sink.new ≡ K.faults sink.old) }
{
    match feed(office, sink, line, pending, piece) {
        Ok(()) => {}
        Err(failed) => return Err(failed),
    }
    match flush(sink, pending) {
        Ok(()) => Ok(()),
        Err(failed) => Err(failed),
    }
}
