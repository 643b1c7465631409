ghost use Rattle.std.specs.Prelude.{◌≡◌, Some, ◌≤◌, vec_len};

use crate::outside::{Failed, Sink, Source};
use std::alloc::Global;

/// A source over bytes in memory.
#[derive(Drop)]
pub struct MemSource {
    bytes: Vec<u8>,
    place: usize,
    /// The number, from 0, of the read that fails.
    fail_at: u64,
    reads: u64,
    faults: u64,
    ghost within: { place ≤ vec_len bytes },
}

impl MemSource {
    ghost use Rattle.cf_base.specs.Memory.{left_of};

    /// A source of which no read fails.
    pub fn new(bytes: Vec<u8>) -> Self
        ensures { left_of result ≡ Some bytes.items }
    {
        MemSource {
            bytes,
            place: 0,
            fail_at: u64::MAX,
            reads: 0,
            faults: 0,
        }
    }

    /// A source whose read of this number, from 0, fails.
    pub fn failing(bytes: Vec<u8>, fail_at: u64) -> Self
        ensures { left_of result ≡ Some bytes.items }
    {
        MemSource {
            bytes,
            place: 0,
            fail_at,
            reads: 0,
            faults: 0,
        }
    }
}

impl Source for MemSource {
    ghost use Rattle.cf_base.specs.Memory.{left_of};

    ghost left = { left_of };

    ghost faults = { λ s. s.faults };

    fn read(&mut self, buf: &mut [u8]) -> Result<usize, Failed> {
        if self.reads == self.fail_at {
            self.reads = self.reads.saturating_add(1);
            self.faults = self.faults.saturating_add(1);
            return Err(Failed);
        }
        self.reads = self.reads.saturating_add(1);
        let rest = &self.bytes[self.place..];
        let count = rest.len().min(buf.len());
        buf[..count].copy_from_slice(&rest[..count]);
        self.place += count;
        Ok(count)
    }
}

/// A sink that keeps its bytes in memory.
#[derive(Drop)]
pub struct MemSink {
    bytes: Vec<u8>,
    limit: usize,
    faults: u64,
}

impl MemSink {
    /// A sink that takes bytes while there is memory.
    pub fn new(alloc: Global) -> Self {
        MemSink {
            bytes: Vec::new(alloc),
            limit: usize::MAX,
            faults: 0,
        }
    }

    /// A sink that takes this many bytes.
    pub fn limited(alloc: Global, limit: usize) -> Self {
        MemSink {
            bytes: Vec::new(alloc),
            limit,
            faults: 0,
        }
    }

    /// The bytes that were written.
    pub fn bytes(&self) -> &[u8] {
        self.bytes.as_slice()
    }
}

impl Sink for MemSink {
    ghost held = { λ s. Some s.bytes.items };

    ghost faults = { λ s. s.faults };

    fn write(&mut self, piece: &[u8]) -> Result<usize, Failed> {
        let room = self.limit.saturating_sub(self.bytes.len());
        let part = if room < piece.len() {
            &piece[..room]
        } else {
            piece
        };
        if part.is_empty() && !piece.is_empty() {
            self.faults = self.faults.saturating_add(1);
            return Err(Failed);
        }
        if self.bytes.extend_from_slice(part).is_err() {
            self.faults = self.faults.saturating_add(1);
            return Err(Failed);
        }
        Ok(part.len())
    }
}
