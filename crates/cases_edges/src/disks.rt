//! Disks over a file and in memory.

ghost use Rattle.std.specs.Prelude.{◌+◌, ◌≤◌, IsTrue, length};

use crate::said::held;
use cf_base::Failed;
use cf_disk::{Disk, DiskCall, FileDisk, MemDisk};
use std::alloc::{AllocError, Global};
use std::fs::{self, File};
use std::io;
use std::rt::Files;

/// What a disk over a file has from a place on, in so many bytes.
fn bytes_at<D: Disk>(disk: &mut D, at: u64, buf: &mut [u8]) -> bool
    requires { IsTrue D.tells → at + length buf.old ≤ length (D.content disk.old) }
{
    disk.read(at, buf).is_ok()
}

fn show_len(rt: &impl Print, len: Result<u64, Failed>) -> io::Result<()> {
    match len {
        Ok(len) => println!(rt; "  {len} bytes"),
        Err(Failed) => println!(rt; "  length failed"),
    }
}

fn show_bytes(rt: &impl Print, is_read: bool, bytes: &[u8]) -> io::Result<()> {
    for byte in bytes {
        println!(rt; "  {} byte {byte}", held(is_read))?;
    }
    Ok(())
}

/// Writes six bytes and reads three of them.
fn show_written<R: Files<File = File> + Print>(
    rt: &R,
    disk: &mut FileDisk<'_, R>,
) -> io::Result<()> {
    show_len(rt, disk.len())?;
    println!(rt; "  write {}", held(disk.write_at(0, b"abcdef").is_ok()))?;
    println!(rt; "  sync {}", held(disk.sync().is_ok()))?;
    show_len(rt, disk.len())?;
    let mut three = [0u8; 3];
    let is_read = bytes_at(disk, 2, &mut three);
    show_bytes(rt, is_read, &three)
}

/// Cuts to four bytes, and writes two more at 6.
fn show_cut<R: Files<File = File> + Print>(rt: &R, disk: &mut FileDisk<'_, R>) -> io::Result<()> {
    println!(rt; "  cut {}", held(disk.cut(4).is_ok()))?;
    println!(rt; "  write {}", held(disk.write_at(6, b"gh").is_ok()))?;
    println!(rt; "  sync {}", held(disk.sync().is_ok()))
}

/// Makes the file, and asks a second disk for its length meanwhile.
fn show_made<R: Files<File = File> + Print>(
    rt: &R,
    path: &str,
    disk: &mut FileDisk<'_, R>,
) -> io::Result<()> {
    show_written(rt, disk)?;
    show_cut(rt, disk)?;
    show_len(rt, FileDisk::new(rt, path).len())
}

fn show_first<R: Files<File = File> + Print>(rt: &R, path: &str) -> io::Result<()> {
    show_made(rt, path, &mut FileDisk::new(rt, path))
}

/// Reads the whole file, and past its end.
fn show_read<R: Files<File = File> + Print>(rt: &R, disk: &mut FileDisk<'_, R>) -> io::Result<()> {
    show_len(rt, disk.len())?;
    let mut all = [1u8; 8];
    let is_read = bytes_at(disk, 0, &mut all);
    show_bytes(rt, is_read, &all)?;
    let mut three = [0u8; 3];
    let is_read = bytes_at(disk, 6, &mut three);
    println!(rt; "  read past the end {}", held(is_read))
}

/// A second disk has the file once the first is dropped.
fn show_second<R: Files<File = File> + Print>(rt: &R, path: &str) -> io::Result<()> {
    show_read(rt, &mut FileDisk::new(rt, path))
}

/// A disk over a file that is made, held against a second disk, and removed.
pub fn show_file<R: Files<File = File> + Print>(rt: &R, path: &str) -> io::Result<()> {
    show_first(rt, path)?;
    show_second(rt, path)?;
    fs::remove_file(rt, path)
}

/// The calls of a disk over a missing file that make none.
fn show_unmade<R: Files<File = File> + Print>(
    rt: &R,
    disk: &mut FileDisk<'_, R>,
) -> io::Result<()> {
    show_len(rt, disk.len())?;
    println!(rt; "  read of nothing {}", held(bytes_at(disk, 0, &mut [])))?;
    println!(rt; "  sync {}", held(disk.sync().is_ok()))
}

/// What a disk over a missing file gives, and whether the file is then there.
pub fn show_missing<R: Files<File = File> + Print>(rt: &R, path: &str) -> io::Result<()> {
    show_unmade(rt, &mut FileDisk::new(rt, path))?;
    println!(rt; "  the file is there: {}", fs::metadata(rt, path).is_ok())
}

/// The calls of a disk that would make the file, where it can't be made.
fn show_unmakable<R: Files<File = File> + Print>(
    rt: &R,
    disk: &mut FileDisk<'_, R>,
) -> io::Result<()> {
    println!(rt; "  write {}", held(disk.write_at(0, b"a").is_ok()))?;
    println!(rt; "  cut {}", held(disk.cut(0).is_ok()))
}

/// A disk over a file in a folder that isn't there.
pub fn show_nowhere<R: Files<File = File> + Print>(rt: &R, path: &str) -> io::Result<()> {
    show_unmakable(rt, &mut FileDisk::new(rt, path))
}

/// How many of five calls succeed: a write, a sync, a cut, a sync and the length.
fn successes(disk: &mut MemDisk) -> usize {
    let calls = [
        disk.write_at(1, b"xyz").is_ok(),
        disk.sync().is_ok(),
        disk.cut(2).is_ok(),
        disk.sync().is_ok(),
        disk.len().is_ok(),
    ];
    calls.iter().filter(|is_ok| **is_ok).count()
}

fn is_held(call: &DiskCall) -> bool {
    matches!(call, DiskCall::Sync { held: true })
}

fn disk_with(alloc: Global, fail: u64, stop: u64) -> Result<MemDisk, AllocError> {
    let fails = vec![in alloc; fail]?;
    MemDisk::with_faults(alloc, Vec::new(alloc), fails, stop)
}

/// Five calls of a disk in memory.
fn show_calls(rt: &impl Print, disk: &mut MemDisk) -> io::Result<()> {
    let count = successes(disk);
    let calls = disk.calls().len();
    let syncs = disk.calls().iter().filter(|call| is_held(call)).count();
    println!(rt; "  {count} done, {calls} recorded, {syncs} syncs held")?;
    for byte in disk.bytes() {
        println!(rt; "  byte {byte}")?;
    }
    Ok(())
}

/// Five calls of a disk in memory that begins empty.
pub fn show_memory(rt: &impl Print, alloc: Global, fail: u64, stop: u64) -> io::Result<()> {
    show_calls(rt, &mut disk_with(alloc, fail, stop)?)
}
