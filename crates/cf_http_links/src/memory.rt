//! Links and doors in memory.

ghost use Rattle.std.specs.Prelude.{◌≡◌, ◌≤◌, ◌<◌, ◌+◌, Some, [], false, take, length, ltb, All, IfOk, vec_len, vec_capacity};

use crate::fault::fault;
use cf_base::Failed;
use cf_http::{Door, Link};
use std::alloc::{AllocError, Global};

/// How many bytes had come on a link, and how many it had taken, when a read was asked.
#[derive(Clone, Copy)]
pub struct Passed {
    pub came: usize,
    pub sent: usize,
}

/// A link over bytes in memory, with a record of its reads. It can be told how many bytes a read
/// gives at most, which reads and writes fail, and how many bytes it takes. A growth that memory
/// refuses is a fault.
#[derive(Drop)]
pub struct MemLink {
    bytes: Vec<u8>,
    place: usize,
    ended: bool,
    sent: Vec<u8>,
    piece: usize,
    limit: usize,
    reads: Vec<Passed>,
    fail_at: u64,
    read_faults: u64,
    write_faults: u64,
    ghost within: { place ≤ vec_len bytes },
    ghost passed: { All (λ passed. passed.sent ≤ length sent.items) reads.items },
}

impl MemLink {
    ghost use Rattle.cf_http_links.specs.Memory.{bytes_of, received_of, sent_of, ended_of, passed_of};

    /// A link on which these bytes come, in pieces of at most `piece` bytes, and whose calls
    /// succeed.
    pub fn new(alloc: Global, bytes: Vec<u8>, piece: usize) -> Self
        ensures bytes { bytes_of result ≡ bytes.items }
        ensures received { received_of result ≡ [] }
        ensures sent { sent_of result ≡ [] }
        ensures ended { ended_of result ≡ false }
        ensures reads { passed_of result ≡ [] }
    {
        MemLink::failing(alloc, bytes, piece, u64::MAX, usize::MAX)
    }

    /// A link on which these bytes come, in pieces of at most `piece` bytes. The read of this
    /// number, from 0, fails, and so does a write past this many bytes.
    pub fn failing(alloc: Global, bytes: Vec<u8>, piece: usize, fail_at: u64, limit: usize) -> Self
        ensures bytes { bytes_of result ≡ bytes.items }
        ensures received { received_of result ≡ [] }
        ensures sent { sent_of result ≡ [] }
        ensures ended { ended_of result ≡ false }
        ensures reads { passed_of result ≡ [] }
    {
        MemLink {
            bytes,
            place: 0,
            ended: false,
            sent: Vec::new(alloc),
            piece,
            limit,
            reads: Vec::new(alloc),
            fail_at,
            read_faults: 0,
            write_faults: 0,
        }
    }

    /// What it took.
    pub fn sent(&self) -> &[u8]
        ensures { result.now ≡ sent_of self.now }
    {
        self.sent.as_slice()
    }

    /// How many bytes it gave.
    pub fn received(&self) -> usize
        ensures { result ≡ length (received_of self.now) }
    {
        self.place
    }

    /// What had passed when each of its reads was asked, the oldest first. A read that memory
    /// refused isn't there.
    pub fn reads(&self) -> &[Passed]
        ensures { result.now ≡ passed_of self.now }
    {
        self.reads.as_slice()
    }
}

/// A front of a piece, of at most so many bytes.
fn front(piece: &[u8], most: usize) -> &[u8]
    ensures { result.now ≡ take most piece.now }
{
    if most < piece.len() {
        &piece[..most]
    } else {
        piece
    }
}

impl Link for MemLink {
    ghost use Rattle.cf_http_links.specs.Memory.{tells_of};

    ghost tells = { tells_of };

    fn read(&mut self, buf: &mut [u8]) -> Result<usize, Failed> {
        let number = self.reads.len() as u64;
        let passed = Passed {
            came: self.place,
            sent: self.sent().len(),
        };
        let Ok(()) = self.reads.push(passed) else {
            return Err(fault(&mut self.read_faults));
        };
        if number == self.fail_at {
            return Err(fault(&mut self.read_faults));
        }
        let most = buf.len().min(self.piece.max(1));
        let rest = &self.bytes[self.place..];
        let count = rest.len().min(most);
        buf[..count].copy_from_slice(&rest[..count]);
        self.place += count;
        self.ended = self.ended || (count == 0 && !buf.is_empty());
        Ok(count)
    }

    fn write(&mut self, piece: &[u8]) -> Result<usize, Failed> {
        let part = front(piece, self.limit.saturating_sub(self.sent.len()));
        if part.is_empty() && !piece.is_empty() {
            return Err(fault(&mut self.write_faults));
        }
        match self.sent.extend_from_slice(part) {
            Ok(()) => Ok(part.len()),
            Err(_) => Err(fault(&mut self.write_faults)),
        }
    }
}

/// A link that is to come at a door in memory: its bytes, how many a read gives at most, which read
/// fails, and past how many bytes a write does.
#[derive(Drop)]
pub struct Coming {
    pub bytes: Vec<u8>,
    pub piece: usize,
    pub fail_at: u64,
    pub limit: usize,
}

/// A door over links in memory, which it gives in their order. It can be told at which call of
/// `next`, from 1, it fails. It has room for all of its links from the start.
#[derive(Drop)]
pub struct MemDoor {
    alloc: Global,
    /// The links to come, the last one first.
    coming: Vec<Coming>,
    finished: Vec<MemLink>,
    given: u64,
    calls: u64,
    fail_at: u64,
    faults: u64,
    ghost fits: { given + vec_len coming ≤ vec_capacity finished },
    ghost owed: { length finished.items ≤ given },
}

impl MemDoor {
    ghost use Rattle.cf_http_links.specs.MemoryDoors.{finished_of, given_of, is_coming};

    /// A door that gives these links, and fails at the call of this number.
    pub fn new(alloc: Global, links: Vec<Coming>, fail_at: u64) -> Result<Self, AllocError>
        ensures finished { IfOk result (λ door. finished_of door ≡ []) }
        ensures given { IfOk result (λ door. given_of door ≡ 0) }
        ensures coming { IfOk result (λ door. is_coming door ≡ ltb 0 (length links.items)) }
    {
        let mut coming = links;
        coming.reverse();
        let mut finished = Vec::new(alloc);
        finished.reserve(coming.len())?;
        Ok(MemDoor {
            alloc,
            coming,
            finished,
            given: 0,
            calls: 0,
            fail_at,
            faults: 0,
        })
    }

    /// The links that were finished, the oldest first.
    pub fn finished(&self) -> &[MemLink]
        ensures { result.now ≡ finished_of self.now }
    {
        self.finished.as_slice()
    }
}

impl Door for MemDoor {
    ghost use Rattle.std.specs.Prelude.{true};
    ghost use Rattle.cf_http_links.specs.MemoryDoors.{door_tells};

    type Link = MemLink;

    ghost tells = { door_tells };

    ghost known = { true };

    fn next(&mut self) -> Result<Option<MemLink>, Failed> {
        self.calls = self.calls.saturating_add(1);
        if self.calls == self.fail_at {
            self.faults = self.faults.saturating_add(1);
            return Err(Failed);
        }
        match self.coming.pop() {
            Some(link) => {
                self.given += 1;
                Ok(Some(MemLink::failing(
                    self.alloc,
                    link.bytes,
                    link.piece,
                    link.fail_at,
                    link.limit,
                )))
            }
            None => Ok(None),
        }
    }

    fn done(&mut self, link: MemLink) {
        let _ = self.finished.push(link);
    }

    ghost owes = { λ d known. d.owed };
}
