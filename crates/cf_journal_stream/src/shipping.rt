//! Shipping a history.

ghost use Rattle.std.specs.Prelude.{◌≡◌, ◌≢◌, ◌<◌, ◌≤◌, ◌++◌, ◌∷◌, [], All, ℕ, List, drop, length, IfOk, IfErr, OnOk, OnErr};
ghost use Rattle.cf_base.specs.Common.{Rose};
ghost use Rattle.cf_calls.specs.Common.{IsEntryInForm};
ghost use Rattle.cf_base_lines.specs.Sinks.{Wrote};
ghost use Rattle.cf_journal.specs.Records.{record_of, records_of};
ghost use Rattle.cf_journal_stream.specs.Streams.{most_chart, head_of, stream_of};
ghost use Rattle.cf_journal_stream.specs.Readings.{Ships};

use cf_base::Sink;
use cf_base_lines::write_all;
use cf_calls::Entry;
use cf_codec::{payload_len, write_entry};
use std::alloc::{AllocError, Global};

/// How shipping ended.
#[derive(Clone, Copy)]
pub enum ShipEnd {
    /// The whole stream was written.
    Done,
    /// The output failed. A front of the stream was written.
    WriteFault,
    /// There was no memory for a piece of the stream. A front of it was written.
    NoMemory,
}

/// The bytes that gather before they are written.
const CHUNK: usize = 65_536;

/// FROM and the chart.
fn head_bytes(alloc: Global, chart: &[u8], from: u64) -> Result<Vec<u8>, AllocError>
    requires { length chart.now ≤ most_chart }
    ensures { IfOk result (λ head. head.items ≡ head_of from chart.now) }
{
    let mut head = Vec::new(alloc);
    head.extend_from_slice(&from.to_be_bytes())?;
    head.extend_from_slice(&(chart.len() as u32).to_be_bytes())?;
    head.extend_from_slice(chart)?;
    Ok(head)
}

/// Appends the record of an entry.
fn put_record(entry: &Entry, out: &mut Vec<u8>) -> Result<(), AllocError>
    requires { IsEntryInForm entry.now }
    ensures { OnOk result (out.new.items ≡ out.old.items ++ 1 ∷ record_of entry.now) }
{
    let size = payload_len(entry);
    out.push(1)?;
    out.extend_from_slice(&(size as u32).to_be_bytes())?;
    match write_entry(entry, out) {
        Ok(()) => Ok(()),
        Err(_) => Err(AllocError),
    }
}

/// Writes what gathered.
fn flush<O: Sink>(out: &mut O, pending: &mut Vec<u8>) -> Result<(), ShipEnd>
    ensures ok { OnOk result
        (Wrote (O.held out.old) (O.held out.new) pending.old.items pending.new.items) }
    ensures all { OnOk result (pending.new.items ≡ []) }
    ensures err { OnErr result
        ((rest : List ℕ) × Wrote (O.held out.old) (O.held out.new) pending.old.items rest) }
    ensures write { IfErr result
        (λ end. (end ≡ ShipEnd.WriteFault) × Rose (O.faults out.old) (O.faults out.new)) }
    ensures quiet { OnOk result (O.faults out.new ≡ O.faults out.old) }
{
    match write_all(out, pending.as_slice()) {
        Ok(()) => {
            pending.clear();
            Ok(())
        }
        Err(_) => Err(ShipEnd::WriteFault),
    }
}

/// Writes what is pending where it is a chunk or more.
fn flush_full<O: Sink>(out: &mut O, pending: &mut Vec<u8>) -> Result<(), ShipEnd>
    ensures ok { OnOk result
        (Wrote (O.held out.old) (O.held out.new) pending.old.items pending.new.items) }
    ensures little { OnOk result (length pending.new.items < 65536) }
    ensures err { OnErr result
        ((rest : List ℕ) × Wrote (O.held out.old) (O.held out.new) pending.old.items rest) }
    ensures write { IfErr result
        (λ end. (end ≡ ShipEnd.WriteFault) × Rose (O.faults out.old) (O.faults out.new)) }
    ensures quiet { OnOk result (O.faults out.new ≡ O.faults out.old) }
{
    if pending.len() < CHUNK {
        return Ok(());
    }
    match flush(out, pending) {
        Ok(()) => Ok(()),
        Err(end) => Err(end),
    }
}

/// Writes what gathered and the records of entries, but for what gathers then.
fn ship_records<O: Sink>(
    entries: &[Entry],
    pending: &mut Vec<u8>,
    out: &mut O,
) -> Result<(), ShipEnd>
    requires { All IsEntryInForm entries.now }
    ensures ok { OnOk result
        (Wrote (O.held out.old) (O.held out.new)
        (pending.old.items ++ records_of entries.now) pending.new.items) }
    ensures little { OnOk result (entries.now ≢ [] → length pending.new.items < 65536) }
    ensures err { OnErr result
        ((rest : List ℕ) × Wrote (O.held out.old) (O.held out.new)
        (pending.old.items ++ records_of entries.now) rest) }
    ensures write { IfErr result
        (λ end. end ≡ ShipEnd.WriteFault → Rose (O.faults out.old) (O.faults out.new)) }
    ensures unwritten { IfErr result (λ end. end ≢ ShipEnd.WriteFault → O.faults out.new ≡ O.faults out.old) }
    ensures done { IfErr result (λ end. end ≢ ShipEnd.Done) }
    ensures quiet { OnOk result (O.faults out.new ≡ O.faults out.old) }
{
    for entry in entries {
        match put_record(entry, pending) {
            Ok(()) => {}
            Err(_) => return Err(ShipEnd::NoMemory),
        }
        match flush_full(out, pending) {
            Ok(()) => {}
            Err(end) => return Err(end),
        }
    }
    Ok(())
}

/// Writes the records of entries behind the head that gathered, and the closing byte.
fn ship_rest<O: Sink>(entries: &[Entry], pending: &mut Vec<u8>, out: &mut O) -> ShipEnd
    requires { All IsEntryInForm entries.now }
    ensures ships { Ships (pending.old.items ++ (records_of entries.now ++ 0 ∷ [])) (O.held out.old)
        (O.held out.new) result }
    ensures write { result ≡ ShipEnd.WriteFault → Rose (O.faults out.old) (O.faults out.new) }
    ensures quiet { result ≢ ShipEnd.WriteFault → O.faults out.new ≡ O.faults out.old }
{
    match ship_records(entries, pending, out) {
        Ok(()) => {}
        Err(end) => return end,
    }
    match pending.push(0) {
        Ok(()) => {}
        Err(_) => return ShipEnd::NoMemory,
    }
    match flush(out, pending) {
        Ok(()) => ShipEnd::Done,
        Err(end) => end,
    }
}

/// The entries behind the first so many.
#[tactic(auto, using(std::proofs::lemmas::List::drop_min))]
fn behind(entries: &[Entry], from: u64) -> &[Entry]
    ensures { result.now ≡ drop from entries.now }
{
    let first = from.min(entries.len() as u64) as usize;
    let (_, rest) = entries.split_at(first);
    rest
}

/// Writes the stream of a history from a place on: `from` entries are left out. It holds one piece
/// of the stream at a time. The chart has at most 1,048,576 bytes.
pub fn ship<O: Sink>(
    alloc: Global,
    chart: &[u8],
    entries: &[Entry],
    from: u64,
    out: &mut O,
) -> ShipEnd
    requires chart { length chart.now ≤ most_chart }
    requires entries { All IsEntryInForm entries.now }
    ensures ships { Ships (stream_of chart.now entries.now from) (O.held out.old)
        (O.held out.new) result }
    ensures write { result ≡ ShipEnd.WriteFault → Rose (O.faults out.old) (O.faults out.new) }
    ensures quiet { result ≢ ShipEnd.WriteFault → O.faults out.new ≡ O.faults out.old }
{
    let Ok(mut pending) = head_bytes(alloc, chart, from) else {
        return ShipEnd::NoMemory;
    };
    let rest = behind(entries, from);
    ship_rest(rest, &mut pending, out)
}
