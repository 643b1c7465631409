//! Appending to a journal.
//!
//! A record is written behind a closed gate that is on the disk, and synced; then the gate is
//! opened by a write of its own, and synced. So a crash leaves the record out or has it whole.

ghost use Rattle.std.specs.Prelude.{◌≡◌, ◌+◌, ◌*◌, ◌%◌, ◌<◌, ◌≤◌, ◌^◌, [], ◌∷◌, ◌++◌, true, false, List, ℕ, IsTrue, OnOk, OnErr, is_ok, if◌then◌else◌, replicate};
ghost use Rattle.cf_base.specs.Common.{HasCause};
ghost use Rattle.cf_calls.specs.declared.acts.Act.{Act as ActOf};
ghost use Rattle.cf_calls.specs.declared.entry.Entry.{Entry as EntryOf};
ghost use Rattle.cf_calls.specs.Common.{IsEntryInForm};
ghost use Rattle.cf_disk.specs.Images.{written};
ghost use Rattle.cf_disk.specs.Moments.{AtEachMoment};
ghost use Rattle.cf_journal.specs.Layout.{RecoversTo, RecoversToEither};
ghost use Rattle.cf_journal.specs.Records as records;

use crate::refused::Disk_;
use crate::steps::write_synced;
use cf_calls::{Act, Entry};
use cf_codec::{NoMemory, payload_len, write_entry};
use cf_codec_fields::kind::is_of;
use cf_disk::Disk;
use std::alloc::Global;

/// A file that grows does so to a multiple of so many bytes, by zeros behind the record. A sync of
/// a file that keeps its length writes less, since the file system has nothing to note of it.
const STEP: u64 = 65_536;

/// The end of a journal, where the next entry is written.
#[derive(Drop)]
pub struct Journal {
    // The place of the gate of the next record, which is closed unless an entry is in doubt.
    gate: u64,
    // How far behind its gate the next one stands, by the record that is reserved.
    size: u64,
    // So many bytes behind the gate were written before, at least.
    ahead: u64,
    // How many entries stand before it.
    count: u64,
    // The version of the grammar of its entries.
    version: u8,
    // What is to stand behind the gate, up to the next one, which is closed, with zeros where the
    // file is to grow; empty where nothing is reserved.
    reserved: Vec<u8>,
    // Whether the gate may be open all the same.
    doubt: bool,
    // A record has less than 2 ^ 26 bytes.
    ghost small: { size ≤ 2 ^ 26 },
    ghost known: { (1 ≤ version) × (version ≤ 2) },
    ghost room: { gate ≤ 2 ^ 63 + 2 ^ 33 + 2 ^ 26 * count },
}

/// The length in bytes of an entry's record with its gate: how far the next gate stands behind this
/// one.
pub fn record_len(entry: &Entry) -> u64
    requires { IsEntryInForm entry.now }
    ensures { result ≡ records.record_len entry.now }
{
    5 + payload_len(entry)
}

impl Journal {
    ghost use Rattle.cf_journal.specs.Journal.{in_doubt, count_of, version_of, has_act, Reserves, HasAhead, GrowsByStep, IsSettled, IsInDoubt, AfterFailure, SamePlace};

    /// The journal of a version whose next gate stands at this place, behind so many entries.
    pub(crate) fn at(alloc: Global, version: u8, gate: u64, count: u64) -> Self
        requires known { (1 ≤ version) × (version ≤ 2) }
        requires fits { gate ≤ 2 ^ 63 + 2 ^ 33 }
        ensures version { version_of result ≡ version }
        ensures gate { result.gate ≡ gate }
        ensures count { result.count ≡ count }
        ensures clear { in_doubt result ≡ false }
    {
        Journal {
            gate,
            size: 0,
            ahead: 0,
            count,
            version,
            reserved: Vec::new(alloc),
            doubt: false,
        }
    }

    /// Takes the memory of an entry's record. Where there is none the journal stays, but nothing is
    /// reserved.
    pub fn reserve(&mut self, entry: &Entry) -> Result<(), NoMemory>
        requires { IsEntryInForm entry.now }
        ensures ok { OnOk result (Reserves self.new entry.now) }
        ensures place { SamePlace self.old self.new }
    {
        self.reserved.clear();
        let size = payload_len(entry);
        extend(&mut self.reserved, &(size as u32).to_be_bytes())?;
        write_entry(entry, &mut self.reserved)?;
        extend(&mut self.reserved, &[0])?;
        self.size = self.reserved.len() as u64;
        if self.size > self.ahead {
            fill(&mut self.reserved, room_behind(self.gate, self.size))?;
        }
        Ok(())
    }

    /// Writes the reserved entry, whose act the journal's version has. From the start of the call
    /// on, a crash at any moment leaves the history, or the history with the entry. After `Ok` a
    /// crash leaves the history with the entry. After `Disk_` the entry is in doubt exactly where
    /// the write of its gate, or the sync after that write, failed. Where it isn't in doubt then, a
    /// crash leaves the history, and the next entry is written to the same place.
    pub fn append<D: Disk>(&mut self, disk: &mut D) -> Result<(), Disk_>
        requires reserved { (e : EntryOf) × Reserves self.old e
            × (has_act self.old e.change.act ≡ true) }
        requires clear { in_doubt self.old ≡ false }
        requires room { count_of self.old < 2 ^ 31 }

        ensures ok { OnOk result ((chart : List ℕ) (history : List EntryOf) (entry : EntryOf)
            → IsSettled D.tells D.is_image self.old disk.old chart history → Reserves self.old entry
            → IsSettled D.tells D.is_image self.new disk.new chart (history ++ entry ∷ [])) }
        ensures err { OnErr result ((chart : List ℕ) (history : List EntryOf) (entry : EntryOf)
            → IsSettled D.tells D.is_image self.old disk.old chart history → Reserves self.old entry
            → AfterFailure D.tells D.is_image self.new disk.new chart history entry) }

        // What a crash leaves at any moment of the call.
        ensures any_moment { IsTrue D.tells
            → (chart : List ℕ) (history : List EntryOf) (entry : EntryOf)
            → IsSettled D.tells D.is_image self.old disk.old chart history → Reserves self.old entry
            → AtEachMoment D.moment D.was_image disk.old disk.new
            (RecoversToEither chart history entry) }

        // The file keeps its length, or grows to a multiple of 64 KiB.
        ensures length { IsTrue D.tells → HasAhead self.old (D.content disk.old)
            → OnOk result (HasAhead self.new (D.content disk.new)
            × GrowsByStep (D.content disk.old) (D.content disk.new)) }

        ensures reserved { OnErr result
            ((e : EntryOf) → Reserves self.old e → Reserves self.new e) }
        ensures none { OnOk result ((e : EntryOf) → Reserves self.new e → ⊥) }
        ensures count { count_of self.new
            ≡ (if is_ok result then count_of self.old + 1 else count_of self.old) }
        ensures version { version_of self.new ≡ version_of self.old }
        ensures clear { OnOk result (in_doubt self.new ≡ false) }
        ensures cause { HasCause (D.faults disk.old) (D.faults disk.new) result }
        ensures quiet { OnOk result (D.faults disk.new ≡ D.faults disk.old) }
    {
        write_synced(disk, self.gate + 1, &self.reserved)?;
        self.doubt = true;
        write_synced(disk, self.gate, &[1])?;
        self.doubt = false;
        let ahead = self.ahead.max(self.reserved.len() as u64);
        self.ahead = ahead.saturating_sub(self.size);
        self.gate += self.size;
        self.count += 1;
        self.reserved.clear();
        Ok(())
    }

    /// Closes the gate of the entry in doubt. At any moment a crash leaves the history, or the
    /// history and that entry; after `Ok` it leaves the history, and nothing is in doubt.
    pub fn mend<D: Disk>(&mut self, disk: &mut D) -> Result<(), Disk_>
        requires { in_doubt self.old ≡ true }

        ensures ok { OnOk result ((chart : List ℕ) (history : List EntryOf) (entry : EntryOf)
            → IsInDoubt D.tells D.is_image self.old disk.old chart history entry
            → IsSettled D.tells D.is_image self.new disk.new chart history) }
        ensures err { OnErr result ((chart : List ℕ) (history : List EntryOf) (entry : EntryOf)
            → IsInDoubt D.tells D.is_image self.old disk.old chart history entry
            → IsInDoubt D.tells D.is_image self.new disk.new chart history entry) }

        // What a crash leaves at any moment of the call.
        ensures any_moment { IsTrue D.tells
            → (chart : List ℕ) (history : List EntryOf) (entry : EntryOf)
            → IsInDoubt D.tells D.is_image self.old disk.old chart history entry
            → AtEachMoment D.moment D.was_image disk.old disk.new
            (RecoversToEither chart history entry) }

        ensures reserved { (e : EntryOf) → Reserves self.old e → Reserves self.new e }
        ensures count { count_of self.new ≡ count_of self.old }
        ensures version { version_of self.new ≡ version_of self.old }
        ensures clear { OnOk result (in_doubt self.new ≡ false) }
        ensures doubt { OnErr result (in_doubt self.new ≡ true) }
        ensures cause { HasCause (D.faults disk.old) (D.faults disk.new) result }
        ensures quiet { OnOk result (D.faults disk.new ≡ D.faults disk.old) }
    {
        write_synced(disk, self.gate, &[0])?;
        self.doubt = false;
        Ok(())
    }

    /// Makes a journal of version 1 one of version 2, by a write of byte 1 and a sync; at version 2
    /// it does nothing. A crash at any moment leaves the history, for its entries read alike in
    /// both versions, and byte 1 with any value. After `Disk_` the version is 1 still, and it may
    /// be called again.
    pub fn raise<D: Disk>(&mut self, disk: &mut D) -> Result<(), Disk_>
        requires { in_doubt self.old ≡ false }

        ensures settled { (chart : List ℕ) (history : List EntryOf)
            → IsSettled D.tells D.is_image self.old disk.old chart history
            → IsSettled D.tells D.is_image self.new disk.new chart history }
        ensures version { version_of self.new ≡ (if is_ok result then 2 else 1) }
        ensures has { OnOk result ((act : ActOf) → has_act self.new act ≡ true) }
        ensures already { version_of self.old ≡ 2 → (is_ok result ≡ true) × (disk.new ≡ disk.old) }
        ensures byte { IsTrue D.tells → version_of self.old ≡ 1
            → OnOk result (D.content disk.new ≡ written 1 (2 ∷ []) (D.content disk.old)) }

        // What a crash leaves at any moment of the call.
        ensures any_moment { IsTrue D.tells → (chart : List ℕ) (history : List EntryOf)
            → IsSettled D.tells D.is_image self.old disk.old chart history
            → AtEachMoment D.moment D.was_image disk.old disk.new (RecoversTo chart history) }

        ensures reserved { (e : EntryOf) → Reserves self.old e → Reserves self.new e }
        ensures count { count_of self.new ≡ count_of self.old }
        ensures clear { in_doubt self.new ≡ false }
        ensures cause { HasCause (D.faults disk.old) (D.faults disk.new) result }
        ensures quiet { OnOk result (D.faults disk.new ≡ D.faults disk.old) }
    {
        if self.version == 2 {
            return Ok(());
        }
        write_synced(disk, 1, &[2])?;
        self.version = 2;
        Ok(())
    }

    /// The version of the grammar of its entries, 1 or 2.
    pub fn version(&self) -> u8
        ensures value { result ≡ version_of self.now }
        ensures known { (1 ≤ result) × (result ≤ 2) }
    {
        self.version
    }

    /// Whether its version has entries of this act: version 1 has no leases.
    pub fn has(&self, act: &Act) -> bool
        ensures { result ≡ has_act self.now act.now }
    {
        is_of(self.version, act.kind())
    }

    /// The number of entries of the history.
    pub fn count(&self) -> u64
        ensures { result ≡ count_of self.now }
    {
        self.count
    }

    /// Whether an entry is in doubt.
    pub fn in_doubt(&self) -> bool
        ensures { result ≡ in_doubt self.now }
    {
        self.doubt
    }
}

/// Adds bytes at the end.
fn extend(out: &mut Vec<u8>, bytes: &[u8]) -> Result<(), NoMemory>
    ensures ok { OnOk result (out.new.items ≡ out.old.items ++ bytes.now) }
    ensures err { OnErr result (out.new.items ≡ out.old.items) }
{
    match out.extend_from_slice(bytes) {
        Ok(()) => Ok(()),
        Err(_) => Err(NoMemory),
    }
}

/// How many bytes it is from the end of what stands behind a gate, so many bytes of it, to the next
/// multiple of the step.
fn room_behind(gate: u64, size: u64) -> u64
    requires { size ≤ 2 ^ 26 }
    ensures ends { (gate + (1 + (size + result))) % 65536 ≡ 0 }
    ensures small { result < 65536 }
{
    let end = gate % STEP + size + 1;
    (STEP - end % STEP) % STEP
}

/// Adds so many zeros at the end.
fn fill(out: &mut Vec<u8>, more: u64) -> Result<(), NoMemory>
    requires { more < 65536 }
    ensures ok { OnOk result (out.new.items ≡ out.old.items ++ replicate more 0) }
    ensures err { OnErr result (out.new.items ≡ out.old.items) }
{
    match out.resize(out.len() + more as usize, 0) {
        Ok(()) => Ok(()),
        Err(_) => Err(NoMemory),
    }
}
