//! Reads a source to its end, for those who need its bytes whole.

ghost use Rattle.std.specs.Prelude.{◌≡◌, ◌<◌, ◌≤◌, length, vec_len, Err, IfOk, OnOk};
ghost use Rattle.cf_base.specs.Common.{Rose};
ghost use Rattle.cf_base_lines.specs.Reads.{IsRead, Takes};

use crate::chunk::{CHUNK, read_chunk};
use cf_base::Source;
use std::alloc::Global;

/// Why the bytes of a source weren't read.
#[derive(Clone, Copy)]
pub enum Unread {
    /// A read failed.
    Fault,
    /// There was no memory for the bytes.
    NoMemory,
}

// Takes some bytes of the source, at most as many as are wanting to `most`, and says how many.
fn take_some<S: Source>(
    source: &mut S,
    chunk: &mut [u8],
    bytes: &mut Vec<u8>,
    most: usize,
) -> Result<usize, Unread>
    requires chunk { 0 < length chunk.old }
    requires room { vec_len bytes.old < most }
    ensures ok { IfOk result
        (λ n. Takes (S.left source.old) (S.left source.new) bytes.old.items bytes.new.items n) }
    ensures within { vec_len bytes.new ≤ most }
    ensures fault { result ≡ Err Unread.Fault → Rose (S.faults source.old) (S.faults source.new) }
    ensures memory { result ≡ Err Unread.NoMemory → S.faults source.new ≡ S.faults source.old }
    ensures quiet { OnOk result (S.faults source.new ≡ S.faults source.old) }
{
    match read_chunk(source, chunk, (most - bytes.len()) as u64) {
        Ok(count) => match bytes.extend_from_slice(&chunk[..count]) {
            Ok(()) => Ok(count),
            Err(_) => Err(Unread::NoMemory),
        },
        Err(_) => Err(Unread::Fault),
    }
}

/// Reads a source to its end, or `most` bytes of it where it has more.
pub fn read_all<S: Source>(alloc: Global, source: &mut S, most: usize) -> Result<Vec<u8>, Unread>
    ensures ok { IfOk result (λ v. IsRead most (S.left source.old) (S.left source.new) v.items) }
    ensures fault { result ≡ Err Unread.Fault → Rose (S.faults source.old) (S.faults source.new) }
    ensures memory { result ≡ Err Unread.NoMemory → S.faults source.new ≡ S.faults source.old }
    ensures quiet { OnOk result (S.faults source.new ≡ S.faults source.old) }
{
    let Ok(mut chunk) = vec![in alloc; 0u8; CHUNK] else {
        return Err(Unread::NoMemory);
    };
    let mut bytes = Vec::new(alloc);
    while bytes.len() < most {
        match take_some(source, chunk.as_mut_slice(), &mut bytes, most) {
            Ok(0) => return Ok(bytes),
            Ok(_) => {}
            Err(unread) => return Err(unread),
        }
    }
    Ok(bytes)
}
