//! A disk in memory between runs, and what the next run is given.

use crate::doors::Doors;
use cf_base::{MemSink, MemSource};
use cf_disk::MemDisk;
use cf_http_links::MemDoor;
use cf_run_status::{Ran, Status};
use cf_top::{run, run_desk};
use std::alloc::{AllocError, Global};
use std::sync::Wait;
use std::thread::Threads;

/// What stands on the disk, and what the next run is given.
#[derive(Drop)]
pub struct Stage {
    pub alloc: Global,
    /// The chart that `found` reads.
    pub chart: String,
    /// The lines that a desk reads.
    pub lines: String,
    /// What the next run reads behind these lines.
    pub fed: Vec<u8>,
    /// The read of its input, from 0, that fails.
    pub lose: u64,
    /// The stream that the last `ship` wrote.
    pub shipped: Vec<u8>,
    /// What the disk holds, all of it synced.
    pub bytes: Vec<u8>,
    /// What it held when the script said so.
    pub kept: Vec<u8>,
    /// The calls of the disk that fail.
    pub fails: Vec<u64>,
    /// The call of the disk at which it stops, or 0.
    pub stop: u64,
    /// How many bytes the output takes.
    pub limit: usize,
    /// What comes at the doors of the next run.
    pub doors: Doors,
    /// What the disk held before the last run.
    pub before: Vec<u8>,
    /// The disk of the last run.
    pub last: Option<MemDisk>,
}

/// How a run ended, what it printed, and its disk.
#[derive(Drop)]
pub struct Left {
    pub status: Status,
    pub out: MemSink,
    pub disk: MemDisk,
}

/// A source of this text.
fn source(alloc: Global, text: &str) -> Result<MemSource, AllocError> {
    Ok(MemSource::new(Vec::from_slice(alloc, text.as_bytes())?))
}

/// The words of a text, with a blank between two of them; none of an empty text.
fn words_of(alloc: Global, text: &str) -> Result<Vec<String>, AllocError> {
    let mut words = Vec::new(alloc);
    if text.is_empty() {
        return Ok(words);
    }
    for word in text.split(" ") {
        words.push(String::from_str(alloc, word)?)?;
    }
    Ok(words)
}

/// A desk with these lines over a disk.
pub fn desk_over(alloc: Global, lines: &str, disk: MemDisk) -> Result<Left, AllocError> {
    let mut input = source(alloc, lines)?;
    let mut out = MemSink::limited(alloc, usize::MAX);
    let Ran { status, disk } = run_desk(alloc, &mut input, &mut out, disk);
    Ok(Left { status, out, disk })
}

/// A disk with these bytes, which fails at these calls and stops at that one.
pub fn disk_with(
    alloc: Global,
    bytes: &[u8],
    fails: &[u64],
    stop: u64,
) -> Result<MemDisk, AllocError> {
    let bytes = Vec::from_slice(alloc, bytes)?;
    let fails = Vec::from_slice(alloc, fails)?;
    MemDisk::with_faults(alloc, bytes, fails, stop)
}

impl Left {
    /// What the run said.
    pub fn said(&self) -> &str {
        str::from_utf8(self.out.bytes()).unwrap_or("no text")
    }
}

impl Stage {
    pub fn new(alloc: Global) -> Stage {
        Stage {
            alloc,
            chart: String::new(alloc),
            lines: String::new(alloc),
            fed: Vec::new(alloc),
            lose: u64::MAX,
            shipped: Vec::new(alloc),
            bytes: Vec::new(alloc),
            kept: Vec::new(alloc),
            fails: Vec::new(alloc),
            stop: 0,
            limit: usize::MAX,
            doors: Doors::new(alloc),
            before: Vec::new(alloc),
            last: None,
        }
    }

    /// What the next run reads: the lines, and what it is fed behind them.
    fn input(&self) -> Result<Vec<u8>, AllocError> {
        let mut bytes = Vec::from_slice(self.alloc, self.lines.as_bytes())?;
        bytes.extend_from_slice(self.fed.as_slice())?;
        Ok(bytes)
    }

    /// Feeds the next run the first so many bytes of the stream that was shipped last.
    pub fn feed(&mut self, count: usize) -> Result<(), AllocError> {
        self.fed = Vec::from_slice(self.alloc, self.shipped.as_slice())?;
        self.fed.truncate(count);
        Ok(())
    }

    /// Changes a byte of what the next run is fed.
    pub fn alter(&mut self, at: usize, byte: u8) {
        if let Some(slot) = self.fed.get_mut(at) {
            *slot = byte;
        }
    }

    /// A run of these words at these doors, with what was prepared.
    fn ran<R: Threads + Wait + Sync>(
        &self,
        rt: &R,
        words: &str,
        doors: &mut Vec<MemDoor>,
    ) -> Result<Left, AllocError> {
        let (fails, stop) = (self.fails.as_slice(), self.stop);
        let disk = disk_with(self.alloc, self.bytes.as_slice(), fails, stop)?;
        let words = words_of(self.alloc, words)?;
        let mut chart = source(self.alloc, self.chart.as_str())?;
        let mut input = MemSource::failing(self.input()?, self.lose);
        let mut out = MemSink::limited(self.alloc, self.limit);
        let Ran { status, disk } = run(
            rt,
            self.alloc,
            words.as_slice(),
            &mut chart,
            &mut input,
            &mut out,
            disk,
            doors,
        );
        Ok(Left { status, out, disk })
    }

    /// Puts what a run left on the disk. The next run has no faults, no lines and no doors.
    fn keep_left(&mut self, disk: MemDisk) -> Result<(), AllocError> {
        self.before = Vec::from_slice(self.alloc, self.bytes.as_slice())?;
        self.bytes = Vec::from_slice(self.alloc, disk.bytes())?;
        self.last = Some(disk);
        self.lines.clear();
        self.fed.clear();
        self.lose = u64::MAX;
        self.fails.clear();
        self.stop = 0;
        self.limit = usize::MAX;
        Ok(())
    }

    /// Runs these words: how it ended, what it printed, and the doors.
    pub fn run_words<R: Threads + Wait + Sync>(
        &mut self,
        rt: &R,
        words: &str,
    ) -> Result<(Status, MemSink, Vec<MemDoor>), AllocError> {
        let mut doors = self.doors.take()?;
        let Left { status, out, disk } = self.ran(rt, words, &mut doors)?;
        self.keep_left(disk)?;
        Ok((status, out, doors))
    }

    /// Adds a line for the next desk.
    pub fn add_line(&mut self, line: &str) -> Result<(), AllocError> {
        self.lines.push_str(line)?;
        self.lines.push_str("\n")
    }

    /// Sets a byte of the disk.
    pub fn set_byte(&mut self, at: usize, byte: u8) {
        if let Some(slot) = self.bytes.get_mut(at) {
            *slot = byte;
        }
    }

    /// Remembers what the disk holds.
    pub fn keep(&mut self) -> Result<(), AllocError> {
        self.kept = Vec::from_slice(self.alloc, self.bytes.as_slice())?;
        Ok(())
    }

    /// Puts back what was remembered.
    pub fn put_back(&mut self) -> Result<(), AllocError> {
        self.bytes = Vec::from_slice(self.alloc, self.kept.as_slice())?;
        Ok(())
    }

    /// The chart with the first text replaced by the second, where it is there.
    pub fn change_chart(&mut self, old: &str, new: &str) -> Result<(), AllocError> {
        if let Some((before, after)) = self.chart.as_str().split_once(old) {
            let text = format!(in self.alloc; "{before}{new}{after}")?;
            self.chart = text;
        }
        Ok(())
    }
}
