//! Journals over files that print their calls.

ghost use Rattle.cf_calls.specs.Common.{IsEntryInForm};

use crate::said::held;
use crate::traced::{CallLog, TracedFiles};
use cf_calls::Entry;
use cf_chart::Chart;
use cf_codec::read_entry;
use cf_disk::{Disk, FileDisk};
use cf_journal::{Journal, Opened, found, open};
use std::alloc::Global;
use std::fs::{self, File, Files};
use std::io;

/// How many entries a journal has at most that takes one more.
const MOST_BEFORE: u64 = 1000;

/// Founds a journal with these bytes of a chart. Whether it did.
fn found_with<D: Disk>(alloc: Global, disk: &mut D, chart: &[u8]) -> bool {
    match Chart::read(alloc, chart) {
        Ok(_) => found(alloc, disk, chart).is_ok(),
        Err(_) => false,
    }
}

/// Founds a journal in a file with these bytes of a chart. Whether it did.
fn found_in<R: Files<File = File> + Print>(
    log: &CallLog<'_, R>,
    alloc: Global,
    path: &str,
    chart: &[u8],
) -> bool {
    let files = TracedFiles { log };
    found_with(alloc, &mut FileDisk::new(&files, path), chart)
}

/// Founds a journal in a file, with the chart of another one. The call `fail_at` of its file fails.
pub fn show_found<R: Files<File = File> + Print + AllocGlobal>(
    rt: &R,
    fail_at: u64,
    path: &str,
    chart: &str,
) -> io::Result<()> {
    let chart = fs::read(rt, chart)?;
    let log = CallLog::new(rt, true, fail_at);
    let is_founded = found_in(&log, rt.alloc(), path, chart.as_slice());
    println!(rt; "  found {}", held(is_founded))
}

/// Appends an entry. Whether it did.
fn append<D: Disk>(disk: &mut D, journal: &mut Journal, entry: &Entry) -> bool
    requires { IsEntryInForm entry.now }
{
    if journal.in_doubt() || journal.count() > MOST_BEFORE || !journal.has(&entry.change.act) {
        return false;
    }
    journal.reserve(entry).is_ok() && journal.append(disk).is_ok()
}

/// Appends an entry. One that is in doubt then is taken back by a mend, and appended once more.
fn show_appended<D: Disk>(
    rt: &impl Print,
    disk: &mut D,
    journal: &mut Journal,
    entry: &Entry,
) -> io::Result<()>
    requires { IsEntryInForm entry.now }
{
    let is_appended = append(disk, journal, entry);
    println!(rt; "  append {}", held(is_appended))?;
    if journal.in_doubt() {
        let is_mended = journal.mend(disk).is_ok();
        println!(rt; "  mend {}", held(is_mended))?;
        let is_appended = append(disk, journal, entry);
        println!(rt; "  append {}", held(is_appended))?;
    }
    Ok(())
}

/// Opens the journal of a disk, and appends the entry of a payload.
fn show_opened<D: Disk>(
    rt: &impl Print,
    alloc: Global,
    disk: &mut D,
    payload: &[u8],
) -> io::Result<()> {
    match (open(alloc, disk), read_entry(alloc, payload, 2)) {
        (Ok(Opened { mut journal, .. }), Ok((entry, _))) => {
            println!(rt; "  open done")?;
            show_appended(rt, disk, &mut journal, &entry)
        }
        _ => println!(rt; "  open failed"),
    }
}

/// Opens the journal in a file, and appends the entry of another file's payload. The call `fail_at`
/// of its file fails.
pub fn show_append<R: Files<File = File> + Print + AllocGlobal>(
    rt: &R,
    fail_at: u64,
    path: &str,
    payload: &str,
) -> io::Result<()> {
    let payload = fs::read(rt, payload)?;
    let log = CallLog::new(rt, true, fail_at);
    let files = TracedFiles { log: &log };
    let mut disk = FileDisk::new(&files, path);
    show_opened(rt, rt.alloc(), &mut disk, payload.as_slice())
}

/// Opens the journal of a disk, and appends the entry of a payload. Whether it did.
fn append_opened<D: Disk>(alloc: Global, disk: &mut D, payload: &[u8]) -> bool {
    match (open(alloc, disk), read_entry(alloc, payload, 2)) {
        (Ok(Opened { mut journal, .. }), Ok((entry, _))) => append(disk, &mut journal, &entry),
        _ => false,
    }
}

/// Founds a journal in a file, opens it by a second disk, and appends an entry. Whether all was
/// done.
fn found_and_append<R: Files<File = File> + Print>(
    log: &CallLog<'_, R>,
    alloc: Global,
    path: &str,
    chart: &[u8],
    payload: &[u8],
) -> bool {
    if !found_in(log, alloc, path, chart) {
        return false;
    }
    let files = TracedFiles { log };
    append_opened(alloc, &mut FileDisk::new(&files, path), payload)
}

/// Founds a journal and appends an entry, with each call of its files failing in turn: how many
/// calls there are, and how many of the failures were told.
pub fn show_faults<R: Files<File = File> + Print + AllocGlobal>(
    rt: &R,
    path: &str,
    chart: &str,
    payload: &str,
) -> io::Result<()> {
    let (chart, payload) = (fs::read(rt, chart)?, fs::read(rt, payload)?);
    let log = CallLog::new(rt, false, 0);
    let is_done = found_and_append(&log, rt.alloc(), path, chart.as_slice(), payload.as_slice());
    fs::remove_file(rt, path)?;
    let mut told = 0u64;
    for before in 0..log.calls() {
        let log = CallLog::new(rt, false, before + 1);
        if !found_and_append(&log, rt.alloc(), path, chart.as_slice(), payload.as_slice()) {
            told = told.saturating_add(1);
        }
        let _ = fs::remove_file(rt, path);
    }
    println!(rt;
        "  {}: {} calls, {told} failures told",
        held(is_done),
        log.calls()
    )
}
