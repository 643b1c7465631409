//! One read of a source.

ghost use Rattle.std.specs.Prelude.{◌≡◌, ◌<◌, ◌≤◌, length, take, IfOk, OnErr, OnOk};
ghost use Rattle.std.specs.Io.KnownBytes.{Consumes, IsAtEnd, Keeps};
ghost use Rattle.cf_base.specs.Common.{HasCause};

use cf_base::{Failed, Source};

/// The most bytes of one read, and how many of answers gather before they are written.
pub const CHUNK: usize = 65_536;

/// Reads at most `most` bytes, and at most a chunk.
pub fn read_chunk<S: Source>(source: &mut S, chunk: &mut [u8], most: u64) -> Result<usize, Failed>
    requires some { 0 < most }
    requires room { 0 < length chunk.old }
    ensures within { IfOk result (λ n. n ≤ length chunk.new) }
    ensures most { IfOk result (λ n. n ≤ most) }
    ensures bytes { IfOk result
        (λ n. Consumes (S.left source.old) (S.left source.new) (take n chunk.new)) }
    ensures end { IfOk result (λ n. n ≡ 0 → IsAtEnd (S.left source.new)) }
    ensures err { OnErr result (Keeps (S.left source.old) (S.left source.new)) }
    ensures cause { HasCause (S.faults source.old) (S.faults source.new) result }
    ensures quiet { OnOk result (S.faults source.new ≡ S.faults source.old) }
{
    let room = chunk.len();
    if most < room as u64 {
        source.read(&mut chunk[..most as usize])
    } else {
        source.read(chunk)
    }
}
