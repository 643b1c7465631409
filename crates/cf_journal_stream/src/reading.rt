//! Reading the parts of a stream.

ghost use Rattle.std.specs.Prelude.{◌≡◌, ◌<◌, ◌+◌, ◌^◌, ◌∷◌, [], true, false, Ok, ◌≤◌, MatchOption, IfSome, IfOk, IfErr, OnOk, length};
ghost use Rattle.std.specs.Int.{w64, from_be_bytes, to_be_bytes};
ghost use Rattle.std.specs.Io.KnownBytes.{Consumes};
ghost use Rattle.cf_journal_stream.specs.Streams.{HeadFault, HeadPart, PiecePart, RecordFault, RecordPart, TextFault, TextPart};
ghost use Rattle.cf_journal_stream.specs.Parts.{IsCause, NoFault, ReadsNone};
ghost use Rattle.cf_journal_stream.specs.Readings.{piece_of, ReadsByte, ReadsLong, ReadsWord, ReadsHead, ReadsText, ReadsFrame};

use crate::reader::{Reader, Unread};
use cf_base::Source;

/// The most bytes of a chart.
const MOST_CHART: usize = 1_048_576;

/// The most bytes of a payload.
const MOST_PAYLOAD: usize = 65_536;

/// The number of these eight bytes.
fn long_of(bytes: &[u8]) -> u64
    requires { length bytes.now ≡ 8 }
    ensures { result ≡ from_be_bytes w64 bytes.now }
{
    u64::from_be_bytes([
        bytes[0], bytes[1], bytes[2], bytes[3], bytes[4], bytes[5], bytes[6], bytes[7],
    ])
}

/// The number of these bytes, where they are eight.
fn long_in(bytes: &[u8]) -> Option<u64>
    requires { length bytes.now ≤ 8 }
    ensures value { MatchOption result (length bytes.now < 8) (λ n. to_be_bytes w64 n ≡ bytes.now) }
    ensures small { IfSome result (λ n. n < 2 ^ 64) }
{
    if bytes.len() < 8 {
        None
    } else {
        Some(long_of(bytes))
    }
}

/// A number of eight bytes; `None` where the input ends before the last of them.
fn take_long<S: Source>(reader: &mut Reader, source: &mut S) -> Result<Option<u64>, Unread>
    ensures ok { IfOk result (ReadsLong (S.left source.old) (S.left source.new)) }
    ensures err { IfErr result
        (ReadsNone (PiecePart 8) NoFault (S.left source.old) (S.left source.new)) }
    ensures cause { IfErr result (IsCause (S.faults source.old) (S.faults source.new)) }
    ensures quiet { OnOk result (S.faults source.new ≡ S.faults source.old) }
{
    match reader.take(source, 8) {
        Ok(()) => {}
        Err(unread) => return Err(unread),
    }
    Ok(long_in(reader.piece()))
}

/// A number of four bytes; `None` where the input ends before the last of them.
fn take_word<S: Source>(reader: &mut Reader, source: &mut S) -> Result<Option<u32>, Unread>
    ensures ok { IfOk result (ReadsWord (S.left source.old) (S.left source.new)) }
    ensures err { IfErr result
        (ReadsNone (PiecePart 4) NoFault (S.left source.old) (S.left source.new)) }
    ensures cause { IfErr result (IsCause (S.faults source.old) (S.faults source.new)) }
    ensures quiet { OnOk result (S.faults source.new ≡ S.faults source.old) }
{
    match reader.take(source, 4) {
        Ok(()) => {}
        Err(unread) => return Err(unread),
    }
    match reader.piece() {
        [a, b, c, d] => Ok(Some(u32::from_be_bytes([*a, *b, *c, *d]))),
        _ => Ok(None),
    }
}

/// One byte; `None` at the end of the input.
fn take_byte<S: Source>(reader: &mut Reader, source: &mut S) -> Result<Option<u8>, Unread>
    ensures ok { IfOk result (ReadsByte (S.left source.old) (S.left source.new)) }
    ensures err { IfErr result
        (ReadsNone (PiecePart 1) NoFault (S.left source.old) (S.left source.new)) }
    ensures cause { IfErr result (IsCause (S.faults source.old) (S.faults source.new)) }
    ensures quiet { OnOk result (S.faults source.new ≡ S.faults source.old) }
{
    match reader.take(source, 1) {
        Ok(()) => {}
        Err(unread) => return Err(unread),
    }
    Ok(reader.piece().first().copied())
}

/// A length of at most `most`, which stands at this place of the part, and so many bytes, which are
/// the reader's piece then.
fn take_text<S: Source>(
    reader: &mut Reader,
    source: &mut S,
    at: u8,
    most: usize,
) -> Result<(), Unread>
    requires { at < 16 }
    ensures ok { OnOk result
        (ReadsText most (S.left source.old) (S.left source.new) (piece_of reader.new)) }
    ensures err { IfErr result
        (ReadsNone (TextPart most) (TextFault at most) (S.left source.old) (S.left source.new)) }
    ensures cause { IfErr result (IsCause (S.faults source.old) (S.faults source.new)) }
    ensures quiet { OnOk result (S.faults source.new ≡ S.faults source.old) }
{
    let len = match take_word(reader, source) {
        Ok(Some(len)) => len as usize,
        Ok(None) => return Err(Unread::Fault(at)),
        Err(unread) => return Err(unread),
    };
    if len > most {
        return Err(Unread::Fault(at));
    }
    match reader.take(source, len) {
        Ok(()) => {}
        Err(unread) => return Err(unread),
    }
    if reader.piece().len() < len {
        return Err(Unread::Fault(at + 4));
    }
    Ok(())
}

/// The front of a stream: FROM, and the chart, which is the reader's piece then.
pub fn read_head<S: Source>(reader: &mut Reader, source: &mut S) -> Result<u64, Unread>
    ensures ok { IfOk result
        (λ from. ReadsHead (S.left source.old) (S.left source.new) from (piece_of reader.new)) }
    ensures err { IfErr result
        (ReadsNone HeadPart HeadFault (S.left source.old) (S.left source.new)) }
    ensures cause { IfErr result (IsCause (S.faults source.old) (S.faults source.new)) }
    ensures quiet { OnOk result (S.faults source.new ≡ S.faults source.old) }
{
    let from = match take_long(reader, source) {
        Ok(Some(from)) => from,
        Ok(None) => return Err(Unread::Fault(0)),
        Err(unread) => return Err(unread),
    };
    match take_text(reader, source, 8, MOST_CHART) {
        Ok(()) => Ok(from),
        Err(unread) => Err(unread),
    }
}

/// The next record, whose payload is the reader's piece then: whether there is one, and not the
/// closing byte. What the payload is isn't asked.
pub fn read_frame<S: Source>(reader: &mut Reader, source: &mut S) -> Result<bool, Unread>
    ensures record { result ≡ Ok true
        → ReadsFrame (S.left source.old) (S.left source.new) (piece_of reader.new) }
    ensures closed { result ≡ Ok false → Consumes (S.left source.old) (S.left source.new) (0 ∷ []) }
    ensures err { IfErr result
        (ReadsNone RecordPart RecordFault (S.left source.old) (S.left source.new)) }
    ensures cause { IfErr result (IsCause (S.faults source.old) (S.faults source.new)) }
    ensures quiet { OnOk result (S.faults source.new ≡ S.faults source.old) }
{
    let byte = match take_byte(reader, source) {
        Ok(Some(byte)) => byte,
        Ok(None) => return Err(Unread::Fault(0)),
        Err(unread) => return Err(unread),
    };
    if byte == 0 {
        return Ok(false);
    }
    if byte != 1 {
        return Err(Unread::Fault(0));
    }
    match take_text(reader, source, 1, MOST_PAYLOAD) {
        Ok(()) => Ok(true),
        Err(unread) => Err(unread),
    }
}
