//! The ends of the outside over std. They are the trusted edge: nothing is proved of what a real
//! file or stream holds.

ghost use Rattle.std.specs.Prelude.{Option, None, length, IfSome, ◌≤◌};

use crate::outside::{Failed, Sink, Source};
use std::fs::{File, Files};
use std::io::{Read, Write};

/// A source over any reader.
#[derive(Drop)]
pub struct StdSource<R: Read + Drop> {
    reader: R,
    faults: u64,
}

impl<R: Read + Drop> StdSource<R> {
    /// The bytes of this reader.
    pub fn new(reader: R) -> Self {
        StdSource { reader, faults: 0 }
    }
}

impl<R: Read + Drop> Source for StdSource<R> {
    ghost left = { λ s. R.remaining s.reader };

    ghost faults = { λ s. s.faults };

    fn read(&mut self, buf: &mut [u8]) -> Result<usize, Failed> {
        match self.reader.read(buf) {
            Ok(count) => Ok(count),
            Err(_) => {
                self.faults = self.faults.saturating_add(1);
                Err(Failed)
            }
        }
    }
}

/// A source over a file, which it opens at its first read. A failed opening is a fault of that
/// read.
#[derive(Drop)]
pub struct FileSource<'a, R: Files> {
    files: &'a R,
    path: &'a str,
    file: Option<R::File>,
    faults: u64,
}

impl<'a, R: Files> FileSource<'a, R> {
    /// The bytes of the file at this path, which is opened later.
    pub fn new(files: &'a R, path: &'a str) -> Self {
        FileSource {
            files,
            path,
            file: None,
            faults: 0,
        }
    }
}

impl<R: Files> Source for FileSource<'_, R> {
    ghost left = { λ _. None };

    ghost faults = { λ s. s.faults };

    fn read(&mut self, buf: &mut [u8]) -> Result<usize, Failed> {
        if self.file.is_none() {
            self.file = File::open(self.files, self.path).ok();
        }
        match read_open(&mut self.file, buf) {
            Some(count) => Ok(count),
            None => {
                self.faults = self.faults.saturating_add(1);
                Err(Failed)
            }
        }
    }
}

/// Reads from the file, if it is open.
fn read_open<F: Read>(file: &mut Option<F>, buf: &mut [u8]) -> Option<usize>
    ensures { IfSome result (λ n. n ≤ length buf.new) }
{
    match file {
        Some(file) => file.read(buf).ok(),
        None => None,
    }
}

/// A sink over any writer.
#[derive(Drop)]
pub struct StdSink<W: Write + Drop> {
    writer: W,
    faults: u64,
}

impl<W: Write + Drop> StdSink<W> {
    /// What is written goes to this writer.
    pub fn new(writer: W) -> Self {
        StdSink { writer, faults: 0 }
    }
}

impl<W: Write + Drop> Sink for StdSink<W> {
    ghost held = { λ s. W.contents s.writer };

    ghost faults = { λ s. s.faults };

    fn write(&mut self, piece: &[u8]) -> Result<usize, Failed> {
        match self.writer.write(piece) {
            Ok(count) if count > 0 || piece.is_empty() => Ok(count),
            _ => {
                self.faults = self.faults.saturating_add(1);
                Err(Failed)
            }
        }
    }
}
