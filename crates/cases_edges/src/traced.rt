//! Files of the system that print their calls, and fail where a case says.

use cf_disk::Lock;
use std::alloc::Allocator;
use std::cell::Cell;
use std::fmt;
use std::fmt::{Display, Formatter};
use std::fs::{Files, Metadata, OpenFile, OpenOptions};
use std::io::{self, Read, Seek, SeekFrom, Write};
use std::os::unix::fs::FileExt;

/// A call on files, or on an open file.
#[derive(Drop)]
enum FileCall<'a> {
    Open(&'a str),
    Make(&'a str),
    /// Opens to read alone, as a folder is opened.
    OpenToRead(&'a str),
    Lock,
    Length,
    Seek(SeekFrom),
    Read(usize),
    ReadAt(u64, usize),
    Write(usize),
    WriteAt(u64, usize),
    Cut(u64),
    SyncData,
    SyncAll,
}

impl Display for FileCall<'_> {
    fn fmt<W: fmt::Write>(&self, f: &mut Formatter<W>) -> fmt::Result {
        match self {
            FileCall::Open(path) => write!(f, "open {path}"),
            FileCall::Make(path) => write!(f, "make {path}"),
            FileCall::OpenToRead(path) => write!(f, "open {path} to read"),
            FileCall::Lock => write!(f, "lock"),
            FileCall::Length => write!(f, "length"),
            FileCall::Seek(SeekFrom::Start(at)) => write!(f, "seek {at}"),
            FileCall::Seek(_) => write!(f, "seek elsewhere"),
            FileCall::Read(count) => write!(f, "read {count}"),
            FileCall::ReadAt(at, count) => write!(f, "read {count} at {at}"),
            FileCall::Write(count) => write!(f, "write {count}"),
            FileCall::WriteAt(at, count) => write!(f, "write {count} at {at}"),
            FileCall::Cut(len) => write!(f, "set the length to {len}"),
            FileCall::SyncData => write!(f, "sync the data"),
            FileCall::SyncAll => write!(f, "sync all"),
        }
    }
}

/// Numbers the calls from 1, and prints them where they are to be told. The call `fail_at` fails
/// and isn't made.
#[derive(Drop)]
pub struct CallLog<'a, R> {
    rt: &'a R,
    is_told: bool,
    fail_at: u64,
    calls: Cell<u64>,
}

impl<'a, R: Print> CallLog<'a, R> {
    pub fn new(rt: &'a R, is_told: bool, fail_at: u64) -> Self {
        CallLog {
            rt,
            is_told,
            fail_at,
            calls: Cell::new(0),
        }
    }

    /// How many calls there were.
    pub fn calls(&self) -> u64 {
        self.calls.get()
    }

    /// Begins a call. It is to be made where this is `Ok`.
    fn begin(&self, call: FileCall<'_>) -> io::Result<()> {
        let number = self.calls.get().saturating_add(1);
        self.calls.set(number);
        let is_failing = number == self.fail_at;
        if self.is_told {
            let how = if is_failing { ": failed" } else { "" };
            println!(self.rt; "    {number} {call}{how}")?;
        }
        if is_failing {
            return Err(io::Error::from(io::ErrorKind::Other));
        }
        Ok(())
    }
}

/// Files of the system below a log of their calls.
#[derive(Drop)]
pub struct TracedFiles<'a, R: Files> {
    pub log: &'a CallLog<'a, R>,
}

/// An open one of these files.
#[derive(Drop)]
pub struct TracedFile<'a, R: Files> {
    log: &'a CallLog<'a, R>,
    file: R::File,
}

impl<'a, R: Files + Print> Files for TracedFiles<'a, R> {
    type File = TracedFile<'a, R>;

    type Dir = R::Dir;

    fn open_file(&self, how: &OpenOptions, path: &str) -> io::Result<TracedFile<'a, R>> {
        self.log.begin(if how.asks_create_new() {
            FileCall::Make(path)
        } else if how.asks_write() {
            FileCall::Open(path)
        } else {
            FileCall::OpenToRead(path)
        })?;
        let file = self.log.rt.open_file(how, path)?;
        Ok(TracedFile {
            log: self.log,
            file,
        })
    }

    fn open_dir(&self, path: &str) -> io::Result<R::Dir> {
        self.log.rt.open_dir(path)
    }

    fn metadata(&self, path: &str) -> io::Result<Metadata> {
        self.log.rt.metadata(path)
    }

    fn symlink_metadata(&self, path: &str) -> io::Result<Metadata> {
        self.log.rt.symlink_metadata(path)
    }

    fn copy(&self, from: &str, to: &str) -> io::Result<u64> {
        self.log.rt.copy(from, to)
    }

    fn rename(&self, from: &str, to: &str) -> io::Result<()> {
        self.log.rt.rename(from, to)
    }

    fn remove_file(&self, path: &str) -> io::Result<()> {
        self.log.rt.remove_file(path)
    }

    fn create_dir(&self, path: &str) -> io::Result<()> {
        self.log.rt.create_dir(path)
    }

    fn remove_dir(&self, path: &str) -> io::Result<()> {
        self.log.rt.remove_dir(path)
    }

    fn remove_dir_all<B: Allocator>(&self, alloc: B, path: &str) -> io::Result<()> {
        self.log.rt.remove_dir_all(alloc, path)
    }
}

impl<R: Files + Print> Lock for TracedFile<'_, R>
where
    R::File: Lock,
{
    fn take_lock(&self) -> bool {
        self.log.begin(FileCall::Lock).is_ok() && self.file.take_lock()
    }
}

impl<R: Files + Print> Read for TracedFile<'_, R> {
    fn read(&mut self, buf: &mut [u8]) -> io::Result<usize> {
        self.log.begin(FileCall::Read(buf.len()))?;
        self.file.read(buf)
    }
}

impl<R: Files + Print> Write for TracedFile<'_, R> {
    fn write(&mut self, buf: &[u8]) -> io::Result<usize> {
        self.log.begin(FileCall::Write(buf.len()))?;
        self.file.write(buf)
    }

    fn flush(&mut self) -> io::Result<()> {
        self.file.flush()
    }
}

impl<R: Files + Print> Seek for TracedFile<'_, R> {
    fn seek(&mut self, to: SeekFrom) -> io::Result<u64> {
        self.log.begin(FileCall::Seek(to))?;
        self.file.seek(to)
    }
}

impl<R: Files + Print> FileExt for TracedFile<'_, R>
where
    R::File: FileExt,
{
    fn read_at(&self, buf: &mut [u8], offset: u64) -> io::Result<usize> {
        self.log.begin(FileCall::ReadAt(offset, buf.len()))?;
        self.file.read_at(buf, offset)
    }

    fn write_at(&self, buf: &[u8], offset: u64) -> io::Result<usize> {
        self.log.begin(FileCall::WriteAt(offset, buf.len()))?;
        self.file.write_at(buf, offset)
    }
}

impl<R: Files + Print> OpenFile for TracedFile<'_, R> {
    fn metadata(&self) -> io::Result<Metadata> {
        self.log.begin(FileCall::Length)?;
        self.file.metadata()
    }

    fn set_len(&self, size: u64) -> io::Result<()> {
        self.log.begin(FileCall::Cut(size))?;
        self.file.set_len(size)
    }

    fn sync_all(&self) -> io::Result<()> {
        self.log.begin(FileCall::SyncAll)?;
        self.file.sync_all()
    }

    fn sync_data(&self) -> io::Result<()> {
        self.log.begin(FileCall::SyncData)?;
        self.file.sync_data()
    }
}
