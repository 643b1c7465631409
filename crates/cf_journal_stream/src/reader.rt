//! The pieces of a stream.

ghost use Rattle.std.specs.Prelude.{◌≡◌, ◌<◌, ◌≤◌, ◌-◌, length, vec_len, IfOk, IfErr, OnOk};
ghost use Rattle.cf_base_lines.specs.Reads.{IsRead, Takes};
ghost use Rattle.cf_journal_stream.specs.Parts.{IsCause, NoFault, ReadsNone};
ghost use Rattle.cf_journal_stream.specs.Streams.{PiecePart};

use cf_base::Source;
use cf_base_lines::{CHUNK, read_chunk};
use std::alloc::{AllocError, Global};

/// Why a part of a stream wasn't read.
#[derive(Clone, Copy)]
pub enum Unread {
    /// A read failed.
    Source,
    /// There was no memory.
    NoMemory,
    /// A field is cut short by the end of the input, or is against the form: where it begins,
    /// counted from the part's first byte.
    Fault(u8),
}

/// What reads a stream, a piece at a time: the piece that was read last.
#[derive(Drop)]
pub struct Reader {
    pub(crate) chunk: Vec<u8>,
    pub(crate) bytes: Vec<u8>,
    ghost room: { 0 < vec_len chunk },
}

/// Takes some bytes of the source, at most as many as are wanting to `most`, and says how many.
fn take_some<S: Source>(
    source: &mut S,
    chunk: &mut [u8],
    bytes: &mut Vec<u8>,
    most: usize,
) -> Result<usize, Unread>
    requires chunk { 0 < length chunk.old }
    requires room { vec_len bytes.old < most }
    ensures ok { IfOk result
        (λ n. Takes (S.left source.old) (S.left source.new) bytes.old.items bytes.new.items n) }
    ensures err { IfErr result
        (ReadsNone (PiecePart (most - vec_len bytes.old)) NoFault (S.left source.old)
        (S.left source.new)) }
    ensures within { vec_len bytes.new ≤ most }
    ensures cause { IfErr result (IsCause (S.faults source.old) (S.faults source.new)) }
    ensures quiet { OnOk result (S.faults source.new ≡ S.faults source.old) }
{
    match read_chunk(source, chunk, (most - bytes.len()) as u64) {
        Ok(count) => match bytes.extend_from_slice(&chunk[..count]) {
            Ok(()) => Ok(count),
            Err(_) => Err(Unread::NoMemory),
        },
        Err(_) => Err(Unread::Source),
    }
}

/// Takes `most` bytes of the source, or all that it has where these are fewer.
fn take_piece<S: Source>(
    source: &mut S,
    chunk: &mut [u8],
    bytes: &mut Vec<u8>,
    most: usize,
) -> Result<(), Unread>
    requires chunk { 0 < length chunk.old }
    ensures ok { OnOk result (IsRead most (S.left source.old) (S.left source.new) bytes.new.items) }
    ensures err { IfErr result
        (ReadsNone (PiecePart most) NoFault (S.left source.old) (S.left source.new)) }
    ensures cause { IfErr result (IsCause (S.faults source.old) (S.faults source.new)) }
    ensures quiet { OnOk result (S.faults source.new ≡ S.faults source.old) }
{
    bytes.clear();
    while bytes.len() < most {
        match take_some(source, chunk, bytes, most) {
            Ok(0) => return Ok(()),
            Ok(_) => {}
            Err(unread) => return Err(unread),
        }
    }
    Ok(())
}

impl Reader {
    ghost use Rattle.cf_journal_stream.specs.Readings.{piece_of};

    /// A reader that has no piece.
    pub fn new(alloc: Global) -> Result<Reader, AllocError> {
        let chunk = vec![in alloc; 0u8; CHUNK]?;
        Ok(Reader {
            chunk,
            bytes: Vec::new(alloc),
        })
    }

    /// The piece that was read last.
    pub fn piece(&self) -> &[u8]
        ensures { result.now ≡ piece_of self.now }
    {
        self.bytes.as_slice()
    }

    /// Takes `most` bytes of the source, or all that it has where these are fewer.
    pub(crate) fn take<S: Source>(&mut self, source: &mut S, most: usize) -> Result<(), Unread>
        ensures ok { OnOk result
            (IsRead most (S.left source.old) (S.left source.new) (piece_of self.new)) }
        ensures err { IfErr result
            (ReadsNone (PiecePart most) NoFault (S.left source.old) (S.left source.new)) }
        ensures cause { IfErr result (IsCause (S.faults source.old) (S.faults source.new)) }
        ensures quiet { OnOk result (S.faults source.new ≡ S.faults source.old) }
    {
        take_piece(source, self.chunk.as_mut_slice(), &mut self.bytes, most)
    }
}
