ghost use Rattle.std.specs.Prelude.{◌≡◌, ◌≢◌, ◌+◌, ◌≤◌, ◌<◌, ◌∷◌, ℕ, List, [], length, vec_len, vec_capacity, OnOk, OnErr, IsTrue, false};
ghost use Rattle.cf_base.specs.Common.{HasCause, Rose};
ghost use Rattle.cf_base_lines.specs.Lines.{OfAllLines, last_line};
ghost use Rattle.cf_base_lines.specs.Run.{Moment, moment_of, Gave, GaveFront, Outcome};
ghost use Rattle.cf_base_lines.specs.State.{IsLine, IsAt, state_of};

use crate::chunk::{CHUNK, read_chunk};
use crate::ended::Ended;
use crate::line::Line;
use crate::office::Office;
use crate::output::flush;
use crate::reply::put_reply;
use crate::session::feed_whole;
use cf_base::{Failed, Sink, Source};
use std::alloc::Global;

/// The most bytes that a run takes of its input.
pub const MOST_BYTES: u64 = 1_099_511_627_776;

// Whether there are bytes of a line that has no newline.
fn has_bytes(line: &Line) -> bool
    ensures yes { IsTrue result → (text : List ℕ) → IsLine line.now text
        → last_line text ≡ text ∷ [] }
    ensures no { result ≡ false → (text : List ℕ) → IsLine line.now text → text ≡ [] }
{
    line.long || !line.bytes.is_empty()
}

// At the end of the input: answers a last line that has no newline, and writes its answer.
fn end_input<O: Office, K: Sink>(
    office: &mut O,
    sink: &mut K,
    line: &Line,
    pending: &mut Vec<u8>,
) -> Result<(), Failed>
    requires room { vec_len pending.old + 1024 ≤ vec_capacity pending.old }
    requires written { pending.old.items ≡ [] }
    ensures ok { OnOk result ((start : Moment O) (fed : List ℕ)
        → IsAt O.answers O.accepted start
        (state_of office.old (K.held sink.old) line.now pending.old.items) fed
        → OfAllLines (Gave O.answers start (moment_of office.new (K.held sink.new))) fed) }
    ensures err { OnErr result ((start : Moment O) (fed : List ℕ)
        → IsAt O.answers O.accepted start
        (state_of office.old (K.held sink.old) line.now pending.old.items) fed
        → OfAllLines (GaveFront O.answers O.accepted start (moment_of office.new (K.held sink.new)))
        fed) }
    ensures cause { HasCause (K.faults sink.old) (K.faults sink.new) result }
    ensures quiet { OnOk result (K.faults sink.new ≡ K.faults sink.old) }
{
    if !has_bytes(line) {
        return Ok(());
    }
    put_reply(office, line, pending);
    match flush(sink, pending) {
        Ok(()) => Ok(()),
        Err(failed) => Err(failed),
    }
}

/// Reads lines to the end of the input, has each answered by the office, and writes the answers to
/// `out`, one a line.
///
/// A line ends with a newline byte or the end of the input; a final newline begins no further line.
/// A line of more than 262,144 bytes, the newline aside, is answered `{"form":"long"}` and never
/// reaches the office. Answers gather, and all of them are written before each read. Bytes are
/// taken in large pieces, so under `WriteFault` some may have been taken whose lines were not
/// answered. At most 1,099,511,627,776 bytes are taken, and one more to see that there are more.
/// `NoMemory` comes only before the first read. No fault is passed over: the input's count of
/// faults rises only under `ReadFault`, the output's only under `WriteFault`.
pub fn run_lines<I: Source, O: Office, K: Sink>(
    alloc: Global,
    office: &mut O,
    input: &mut I,
    out: &mut K,
) -> Ended
    ensures outcome { Outcome O.answers O.accepted
        (moment_of office.old (K.held out.old))
        (moment_of office.new (K.held out.new))
        (I.left input.old) (I.left input.new) result }
    ensures read { result ≡ Ended.ReadFault → Rose (I.faults input.old) (I.faults input.new) }
    ensures write { result ≡ Ended.WriteFault → Rose (K.faults out.old) (K.faults out.new) }
    ensures input_quiet { result ≢ Ended.ReadFault → I.faults input.new ≡ I.faults input.old }
    ensures out_quiet { result ≢ Ended.WriteFault → K.faults out.new ≡ K.faults out.old }
    ensures input_count { I.faults input.old ≤ I.faults input.new }
    ensures out_count { K.faults out.old ≤ K.faults out.new }
{
    let Ok(mut line) = Line::new(alloc) else {
        return Ended::NoMemory;
    };
    let mut pending = Vec::new(alloc);
    let Ok(()) = pending.reserve(CHUNK) else {
        return Ended::NoMemory;
    };
    let Ok(mut chunk) = vec![in alloc; 0u8; CHUNK] else {
        return Ended::NoMemory;
    };
    read_lines(
        office,
        input,
        out,
        &mut line,
        &mut pending,
        chunk.as_mut_slice(),
    )
}

// Reads to the end, over what a run needs.
fn read_lines<I: Source, O: Office, K: Sink>(
    office: &mut O,
    input: &mut I,
    out: &mut K,
    line: &mut Line,
    pending: &mut Vec<u8>,
    chunk: &mut [u8],
) -> Ended
    requires fresh { IsLine line.old [] }
    requires written { pending.old.items ≡ [] }
    requires room { 1024 ≤ vec_capacity pending.old }
    requires chunk { 0 < length chunk.old }
    ensures outcome { Outcome O.answers O.accepted
        (moment_of office.old (K.held out.old))
        (moment_of office.new (K.held out.new))
        (I.left input.old) (I.left input.new) result }
    ensures read { result ≡ Ended.ReadFault → Rose (I.faults input.old) (I.faults input.new) }
    ensures write { result ≡ Ended.WriteFault → Rose (K.faults out.old) (K.faults out.new) }
    ensures input_quiet { result ≢ Ended.ReadFault → I.faults input.new ≡ I.faults input.old }
    ensures out_quiet { result ≢ Ended.WriteFault → K.faults out.new ≡ K.faults out.old }
    ensures input_count { I.faults input.old ≤ I.faults input.new }
    ensures out_count { K.faults out.old ≤ K.faults out.new }
{
    let mut most = MOST_BYTES + 1;
    while most > 0 {
        let count = match read_chunk(input, chunk, most) {
            Ok(count) => count,
            Err(_) => return Ended::ReadFault,
        };
        if count == 0 {
            return match end_input(office, out, line, pending) {
                Ok(()) => Ended::Ok,
                Err(_) => Ended::WriteFault,
            };
        }
        most -= count as u64;
        if most == 0 {
            let (piece, _) = chunk.split_at(count - 1);
            return match feed_whole(office, out, line, pending, piece) {
                Ok(()) => Ended::InputLimit,
                Err(_) => Ended::WriteFault,
            };
        }
        let (piece, _) = chunk.split_at(count);
        match feed_whole(office, out, line, pending, piece) {
            Ok(()) => {}
            Err(_) => return Ended::WriteFault,
        }
    }
    Ended::InputLimit
}
