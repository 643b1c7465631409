//! A disk in memory, with a record of its calls.

ghost use Rattle.std.specs.Prelude.{◌≡◌, ◌+◌, ◌<◌, ◌≤◌, ◌∷◌, ◌++◌, [], length, take, drop, reverse, vec_len, vec_capacity, IfOk, OnOk, OnErr};
ghost use Rattle.cf_base.specs.Common.{Rose, HasCause};
ghost use Rattle.cf_disk.specs.Images.{written, resized};
ghost use Rattle.cf_disk.specs.Memory.{content_after, AddsWrite, IsStill};
ghost use Rattle.cf_disk.specs.declared.memory.DiskCall.TheVariants.{Cut};

use crate::disk::Disk;
use cf_base::Failed;
use std::alloc::{AllocError, Global};

/// A call that a disk in memory was given.
#[derive(Drop)]
pub enum DiskCall {
    Len,
    Read { at: u64, len: u64 },
    Write { at: u64, piece: Vec<u8> },
    Cut { len: u64 },
    /// Whether it succeeded.
    Sync { held: bool },
}

/// A disk in memory. It keeps a record of its calls, which are counted from 1. It can be told which
/// calls fail, and at which one it stops: that call fails, and each later one fails and does
/// nothing. A failed write or cut is made. A growth that memory refuses is a fault, and the call
/// isn't made.
#[derive(Drop)]
pub struct MemDisk {
    alloc: Global,
    first: Vec<u8>,
    bytes: Vec<u8>,
    calls: Vec<DiskCall>,
    fails: Vec<u64>,
    stop: u64,
    faults: u64,
    ghost recorded: { bytes.items ≡ content_after first.items (reverse calls.items) },
}

impl MemDisk {
    ghost use Rattle.cf_disk.specs.MemoryView.{bytes_of, calls_of, SameButFaults, AddsCall};

    /// A disk with these bytes, all of them synced, whose calls succeed.
    pub fn new(alloc: Global, bytes: Vec<u8>) -> Result<Self, AllocError>
        ensures { IfOk result (λ d. (bytes_of d ≡ bytes.items) × (calls_of d ≡ [])) }
    {
        MemDisk::with_faults(alloc, bytes, Vec::new(alloc), 0)
    }

    /// A disk with these bytes, all of them synced, whose calls of these numbers fail, and that
    /// stops at the call `stop`. With a `stop` of 0 it doesn't.
    pub fn with_faults(
        alloc: Global,
        bytes: Vec<u8>,
        fails: Vec<u64>,
        stop: u64,
    ) -> Result<Self, AllocError>
        ensures { IfOk result (λ d. (bytes_of d ≡ bytes.items) × (calls_of d ≡ [])) }
    {
        let first = Vec::from_slice(alloc, bytes.as_slice())?;
        Ok(MemDisk {
            alloc,
            first,
            bytes,
            calls: Vec::new(alloc),
            fails,
            stop,
            faults: 0,
        })
    }

    /// What a read gives.
    pub fn bytes(&self) -> &[u8]
        ensures { result.now ≡ bytes_of self.now }
    {
        self.bytes.as_slice()
    }

    /// The calls so far, the oldest first.
    pub fn calls(&self) -> &[DiskCall]
        ensures { result.now ≡ calls_of self.now }
    {
        self.calls.as_slice()
    }

    /// Whether it has stopped.
    fn is_off(&self) -> bool {
        self.stop != 0 && self.calls.len() as u64 >= self.stop
    }

    /// Whether the call of this number fails.
    fn is_failing(&self, number: u64) -> bool {
        number == self.stop || self.fails.contains(&number)
    }

    /// Counts a fault.
    fn fault(&mut self) -> Failed
        ensures same { SameButFaults self.old self.new }
        ensures later { self.old.faults ≤ self.new.faults }
        ensures rose { Rose self.old.faults self.new.faults }
    {
        self.faults = self.faults.saturating_add(1);
        Failed
    }

    /// Records a call that changes no byte, unless the disk is off.
    fn begin(&mut self, call: DiskCall) -> Result<(), Failed>
        requires { IsStill call }
        ensures ok { OnOk result (AddsCall self.old self.new call) }
        ensures err { OnErr result (SameButFaults self.old self.new) }
        ensures cause { HasCause self.old.faults self.new.faults result }
        ensures quiet { OnOk result (self.new.faults ≡ self.old.faults) }
    {
        if self.is_off() {
            return Err(self.fault());
        }
        match note(&mut self.calls, call) {
            Ok(()) => Ok(()),
            Err(_) => Err(self.fault()),
        }
    }

    /// The outcome of the call that was recorded last.
    fn outcome(&mut self) -> Result<(), Failed>
        ensures same { SameButFaults self.old self.new }
        ensures cause { HasCause self.old.faults self.new.faults result }
        ensures quiet { OnOk result (self.new.faults ≡ self.old.faults) }
    {
        if self.is_failing(self.calls.len() as u64) {
            return Err(self.fault());
        }
        Ok(())
    }
}

/// Adds a call to a record.
fn note(calls: &mut Vec<DiskCall>, call: DiskCall) -> Result<(), AllocError>
    ensures ok { OnOk result (calls.new.items ≡ calls.old.items ++ call ∷ []) }
    ensures err { OnErr result (calls.new.items ≡ calls.old.items) }
{
    calls.push(call)?;
    Ok(())
}

/// Adds a call to a record that has room for it.
fn note_within(calls: &mut Vec<DiskCall>, call: DiskCall)
    requires { vec_len calls.old < vec_capacity calls.old }
    ensures { calls.new.items ≡ calls.old.items ++ call ∷ [] }
{
    let _ = calls.push(call);
}

/// Puts a piece over what is there.
fn put(bytes: &mut [u8], at: usize, piece: &[u8])
    requires { at + length piece.now ≤ length bytes.old }
    ensures { bytes.new ≡ take at bytes.old ++ piece.now ++ drop (at + length piece.now) bytes.old }
{
    bytes[at..at + piece.len()].copy_from_slice(piece);
}

/// Writes a piece, and adds the call to the record. Where memory is refused both stay.
fn write(
    alloc: Global,
    bytes: &mut Vec<u8>,
    calls: &mut Vec<DiskCall>,
    at: u64,
    piece: &[u8],
) -> Result<(), AllocError>
    ensures ok { OnOk result (bytes.new.items ≡ written at piece.now bytes.old.items) }
    ensures record { OnOk result (AddsWrite at piece.now calls.old.items calls.new.items) }
    ensures err { OnErr result
        ((bytes.new.items ≡ bytes.old.items) × (calls.new.items ≡ calls.old.items)) }
{
    let copy = Vec::from_slice(alloc, piece)?;
    let Some(end) = at.checked_add(piece.len() as u64) else {
        return Err(AllocError);
    };
    calls.reserve(1)?;
    let len = bytes.len().max(end as usize);
    bytes.resize(len, 0)?;
    put(bytes.as_mut_slice(), at as usize, piece);
    note_within(calls, DiskCall::Write { at, piece: copy });
    Ok(())
}

/// Cuts or fills to a length, and adds the call to the record. Where memory is refused both stay.
fn resize(bytes: &mut Vec<u8>, calls: &mut Vec<DiskCall>, len: u64) -> Result<(), AllocError>
    ensures ok { OnOk result (bytes.new.items ≡ resized len bytes.old.items) }
    ensures record { OnOk result (calls.new.items ≡ calls.old.items ++ Cut len ∷ []) }
    ensures err { OnErr result
        ((bytes.new.items ≡ bytes.old.items) × (calls.new.items ≡ calls.old.items)) }
{
    calls.reserve(1)?;
    bytes.resize(len as usize, 0)?;
    note_within(calls, DiskCall::Cut { len });
    Ok(())
}

impl Disk for MemDisk {
    ghost use Rattle.std.specs.Prelude.{true};
    ghost use Rattle.cf_disk.specs.Memory.{IsImageOf, WasImageOf};
    ghost use Rattle.cf_disk.specs.MemoryLaws.{was_now, is_now};
    ghost use Rattle.cf_disk.specs.MemoryView.{image_held};

    ghost tells = { true };

    ghost content = { λ m. m.bytes.items };

    ghost is_image = { λ m image. IsImageOf m.first.items m.calls.items image };

    ghost moment = { λ m. length m.calls.items };

    ghost was_image = { λ m t image. WasImageOf m.first.items m.calls.items t image };

    ghost faults = { λ m. m.faults };

    fn len(&mut self) -> Result<u64, Failed> {
        self.begin(DiskCall::Len)?;
        self.outcome()?;
        Ok(self.bytes.len() as u64)
    }

    fn read(&mut self, at: u64, buf: &mut [u8]) -> Result<(), Failed> {
        let len = buf.len() as u64;
        self.begin(DiskCall::Read { at, len })?;
        self.outcome()?;
        let from = at as usize;
        buf.copy_from_slice(&self.bytes[from..from + buf.len()]);
        Ok(())
    }

    fn write_at(&mut self, at: u64, piece: &[u8]) -> Result<(), Failed> {
        if self.is_off() {
            return Err(self.fault());
        }
        match write(self.alloc, &mut self.bytes, &mut self.calls, at, piece) {
            Ok(()) => self.outcome(),
            Err(_) => Err(self.fault()),
        }
    }

    fn cut(&mut self, len: u64) -> Result<(), Failed> {
        if self.is_off() {
            return Err(self.fault());
        }
        match resize(&mut self.bytes, &mut self.calls, len) {
            Ok(()) => self.outcome(),
            Err(_) => Err(self.fault()),
        }
    }

    fn sync(&mut self) -> Result<(), Failed> {
        let held = !self.is_failing(self.calls.len() as u64 + 1);
        self.begin(DiskCall::Sync { held })?;
        if held { Ok(()) } else { Err(self.fault()) }
    }

    ghost reads_an_image = { λ m tells. image_held m };

    ghost counts_now = { λ m t image le now. was_now m.first.items m.calls.items t image le now };

    ghost only_now = { λ m image was. is_now m.first.items m.calls.items image was };
}
