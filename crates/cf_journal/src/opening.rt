//! Opening a journal.

ghost use Rattle.std.specs.Prelude.{◌≡◌, ◌⊎◌, ◌+◌, ◌≤◌, ◌<◌, ◌^◌, ◌∷◌, min, IsTrue, Ok, IfOk, IfErr, OnOk, vec_len, length, take, drop, slice_index};
ghost use Rattle.std.specs.Int.{w32, to_be_bytes};
ghost use Rattle.cf_chart.specs.Common.{chart_of};
ghost use Rattle.cf_disk.specs.Images.{AddsNone, IsOnlyImage};
ghost use Rattle.cf_disk.specs.Moments.{Advances, AtEachMoment};
ghost use Rattle.cf_journal.specs.Answers.{HasDiskCause, Opens, GivesHead, GivesChart, GivesEntry, GivesEntries, EndsAt};
ghost use Rattle.cf_journal.specs.Frames.{frames};
ghost use Rattle.cf_journal.specs.Journal.{version_of, IsSettled};
ghost use Rattle.cf_journal.specs.Frames as spec;
ghost use Rattle.cf_journal.specs.Records as records;
ghost use Rattle.cf_journal.specs.declared.refused.OpenRefused.TheVariants as open_refused;

use crate::journal::Journal;
use crate::refused::OpenRefused;
use cf_calls::Entry;
use cf_chart::{Chart, ChartRefused};
use cf_codec::{CodecRefused, read_entry};
use cf_disk::Disk;
use std::alloc::Global;

/// What a journal has, with its end.
#[derive(Drop)]
pub struct Opened {
    pub journal: Journal,
    /// The bytes that state the chart.
    pub bytes: Vec<u8>,
    pub chart: Chart,
    /// Oldest first.
    pub entries: Vec<Entry>,
}

/// Opens the journal on a disk, in either version: its end, its chart and its entries. It syncs,
/// then reads, and writes nothing.
pub fn open<D: Disk>(alloc: Global, disk: &mut D) -> Result<Opened, OpenRefused>
    ensures answer { IsTrue D.tells → Opens result (frames (D.content disk.old)) }
    ensures states { IfOk result (λ o. chart_of o.bytes.items ≡ Ok o.chart) }
    ensures settled { IfOk result
        (λ o. IsSettled D.tells D.is_image o.journal disk.new o.bytes.items o.entries.items) }
    ensures version { IsTrue D.tells
        → IfOk result (λ o. version_of o.journal
        ≡ spec.version_by (slice_index (D.content disk.old) 1)) }

    // It changes nothing, and at its end a crash leaves what a read gives.
    ensures content { IsTrue D.tells → D.content disk.new ≡ D.content disk.old }
    ensures durable { IsTrue D.tells
        → OnOk result (IsOnlyImage (D.content disk.new) (D.is_image disk.new)) }
    ensures any_moment { AtEachMoment D.moment D.was_image disk.old disk.new (D.is_image disk.old) }

    ensures cause { HasDiskCause open_refused.Disk (D.faults disk.old) (D.faults disk.new) result }
{
    disk.sync()?;
    let len = disk.len()?;
    read_journal(alloc, disk, len)
}

/// Reads the journal in a file of this length.
fn read_journal<D: Disk>(alloc: Global, disk: &mut D, len: u64) -> Result<Opened, OpenRefused>
    requires { IsTrue D.tells → len ≡ length (D.content disk.old) }
    ensures answer { IsTrue D.tells → Opens result (frames (D.content disk.old)) }
    ensures states { IfOk result (λ o. chart_of o.bytes.items ≡ Ok o.chart) }
    ensures settled { IfOk result
        (λ o. (IsTrue D.tells → IsOnlyImage (D.content disk.old) (D.is_image disk.old))
        → IsSettled D.tells D.is_image o.journal disk.new o.bytes.items o.entries.items) }
    ensures version { IsTrue D.tells
        → IfOk result (λ o. version_of o.journal
        ≡ spec.version_by (slice_index (D.content disk.old) 1)) }
    ensures content { IsTrue D.tells → D.content disk.new ≡ D.content disk.old }
    ensures images { AddsNone (D.is_image disk.old) (D.is_image disk.new) }
    ensures any_moment { AtEachMoment D.moment D.was_image disk.old disk.new (D.is_image disk.old) }
    ensures cause { HasDiskCause open_refused.Disk (D.faults disk.old) (D.faults disk.new) result }
{
    let (version, chart_len) = read_head(disk, len)?;
    let bytes = read_piece(alloc, disk, 6, chart_len)?;
    let chart = match read_chart(alloc, &bytes) {
        Ok(chart) => chart,
        Err(e) => return Err(e),
    };
    let first = 6 + chart_len;
    let records = read_piece(alloc, disk, first, len - first)?;
    let (gate, entries) = read_entries(alloc, version, &records, first)?;
    Ok(Opened {
        journal: Journal::at(alloc, version, gate, entries.len() as u64),
        bytes,
        chart,
        entries,
    })
}

/// The version that byte 1 tells.
fn version_by(byte: u8) -> u8
    ensures value { result ≡ spec.version_by byte }
    ensures known { (1 ≤ result) × (result ≤ 2) }
{
    if byte == 1 { 1 } else { 2 }
}

/// The version and the chart's length, by the length of the file and its first six bytes. The chart
/// and the gate behind it lie within the file.
fn stated_head(head: &[u8], len: u64) -> Result<(u8, u64), OpenRefused>
    requires { length head.now ≡ min 6 len }
    ensures answer { result ≡ spec.stated_head len head.now }
    ensures version { IfOk result (λ h. h.0 ≡ spec.version_by (slice_index head.now 1)) }
    ensures known { IfOk result (λ h. (1 ≤ h.0) × (h.0 ≤ 2)) }
    ensures bytes { IfOk result (λ h. head.now ≡ 1 ∷ slice_index head.now 1 ∷ to_be_bytes w32 h.1) }
    ensures within { IfOk result (λ h. 7 + h.1 ≤ len) }
    ensures small { IfOk result (λ h. h.1 < 2 ^ 32) }
{
    if len <= 1 || head[0] != 1 {
        let byte = head.first().copied();
        return Err(OpenRefused::NotFounded { len, byte });
    }
    if len < 6 {
        return Err(OpenRefused::Damaged { offset: 1 });
    }
    let n = u64::from(u32::from_be_bytes([head[2], head[3], head[4], head[5]]));
    if len < 7 + n {
        return Err(OpenRefused::Damaged { offset: 2 });
    }
    Ok((version_by(head[1]), n))
}

/// Reads the head of a file of this length: its version, and the chart's length.
fn read_head<D: Disk>(disk: &mut D, len: u64) -> Result<(u8, u64), OpenRefused>
    requires { IsTrue D.tells → len ≡ length (D.content disk.old) }
    ensures answer { IsTrue D.tells
        → GivesHead result (spec.stated_head len (take 6 (D.content disk.old))) }
    ensures version { IsTrue D.tells
        → IfOk result (λ h. h.0 ≡ spec.version_by (slice_index (take 6 (D.content disk.old)) 1)) }
    ensures known { IfOk result (λ h. (1 ≤ h.0) × (h.0 ≤ 2)) }
    ensures bytes { IsTrue D.tells
        → IfOk result (λ h. take 6 (D.content disk.old)
        ≡ 1 ∷ slice_index (take 6 (D.content disk.old)) 1 ∷ to_be_bytes w32 h.1) }
    ensures within { IfOk result (λ h. 7 + h.1 ≤ len) }
    ensures small { IfOk result (λ h. h.1 < 2 ^ 32) }
    ensures content { IsTrue D.tells → D.content disk.new ≡ D.content disk.old }
    ensures images { AddsNone (D.is_image disk.old) (D.is_image disk.new) }
    ensures time { Advances D.moment D.is_image D.was_image disk.old disk.new }
    ensures cause { HasDiskCause open_refused.Disk (D.faults disk.old) (D.faults disk.new) result }
{
    let mut head = [0u8; 6];
    let known = len.min(6) as usize;
    disk.read(0, &mut head[..known])?;
    stated_head(&head[..known], len)
}

/// Reads so many bytes from a place on.
fn read_piece<D: Disk>(
    alloc: Global,
    disk: &mut D,
    at: u64,
    len: u64,
) -> Result<Vec<u8>, OpenRefused>
    requires { IsTrue D.tells → at + len ≤ length (D.content disk.old) }
    ensures bytes { IsTrue D.tells
        → IfOk result (λ piece. piece.items ≡ take len (drop at (D.content disk.old))) }
    ensures len { IfOk result (λ piece. vec_len piece ≡ len) }
    ensures refused { IfErr result (λ e. (e ≡ open_refused.Disk) ⊎ (e ≡ open_refused.NoMemory)) }
    ensures content { IsTrue D.tells → D.content disk.new ≡ D.content disk.old }
    ensures images { AddsNone (D.is_image disk.old) (D.is_image disk.new) }
    ensures time { Advances D.moment D.is_image D.was_image disk.old disk.new }
    ensures cause { HasDiskCause open_refused.Disk (D.faults disk.old) (D.faults disk.new) result }
{
    let mut piece = Vec::new(alloc);
    piece.resize(len as usize, 0)?;
    disk.read(at, piece.as_mut_slice())?;
    Ok(piece)
}

/// The chart that these bytes state.
fn read_chart(alloc: Global, bytes: &[u8]) -> Result<Chart, OpenRefused>
    ensures { GivesChart result (chart_of bytes.now) }
{
    match Chart::read(alloc, bytes) {
        Ok(chart) => Ok(chart),
        Err(ChartRefused::Fault(_)) => Err(OpenRefused::Damaged { offset: 6 }),
        Err(ChartRefused::NoMemory) => Err(OpenRefused::NoMemory),
    }
}

/// The payload's length, as it stands behind a gate.
fn stated_len(behind: &[u8]) -> u64
    requires { 4 ≤ length behind.now }
    ensures value { result ≡ records.stated_len behind.now }
    ensures small { result < 2 ^ 32 }
{
    u64::from(u32::from_be_bytes([behind[0], behind[1], behind[2], behind[3]]))
}

/// The entry of the record behind the open gate at a place, in the grammar of the version, with its
/// payload's length.
fn entry_behind(
    alloc: Global,
    version: u8,
    behind: &[u8],
    at: u64,
) -> Result<(u64, Entry), OpenRefused>
    ensures { GivesEntry result version at behind.now }
{
    if behind.len() < 5 {
        return Err(OpenRefused::Damaged { offset: at });
    }
    let n = stated_len(behind);
    if (behind.len() as u64) < 5 + n {
        return Err(OpenRefused::Damaged { offset: at });
    }
    match read_entry(alloc, &behind[4..4 + n as usize], version) {
        Ok((entry, len)) if len as u64 == n => Ok((n, entry)),
        Ok(_) => Err(OpenRefused::Damaged { offset: at }),
        Err(CodecRefused::Fault(_)) => Err(OpenRefused::Damaged { offset: at }),
        Err(CodecRefused::NoMemory) => Err(OpenRefused::NoMemory),
    }
}

/// The entries of the records from the first gate on, which stands at `first`, and the place of the
/// first gate that isn't open.
fn read_entries(
    alloc: Global,
    version: u8,
    records: &[u8],
    first: u64,
) -> Result<(u64, Vec<Entry>), OpenRefused>
    requires some { 0 < length records.now }
    requires fits { first < 2 ^ 33 }
    ensures answer { GivesEntries result version first records.now }
    ensures layout { IfOk result (λ x. EndsAt version first records.now x.1.items x.0) }
{
    let mut entries = Vec::new(alloc);
    let mut place = 0;
    while records[place] == 1 {
        let behind = &records[place + 1..];
        match entry_behind(alloc, version, behind, first + place as u64) {
            Ok((n, entry)) => {
                entries.push(entry)?;
                place += 5 + n as usize;
            }
            Err(e) => return Err(e),
        }
    }
    Ok((first + place as u64, entries))
}
