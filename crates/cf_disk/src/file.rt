//! The disk over a real file. It is the trusted edge: nothing is proved of what a real file holds.

ghost use Rattle.std.specs.Prelude.{◌≡◌, false, [], ⊤, OnOk};
ghost use Rattle.cf_base.specs.Common.{HasCause};

use crate::disk::Disk;
use cf_base::Failed;
use std::fs::{File, Files, OpenFile, OpenOptions};
use std::io::ErrorKind;
use std::os::unix::fs::FileExt;
use std::path::Path;

/// The lock of an open file, for code that is generic over files.
pub trait Lock {
    /// Takes the lock on the file, without waiting. Whether it has it: another open of the file may
    /// hold it.
    fn take_lock(&self) -> bool;
}

impl Lock for File {
    fn take_lock(&self) -> bool {
        self.try_lock().is_ok()
    }
}

/// A disk over a file, of the system or of what stands in for it. Its first call opens the file and
/// locks it, so that no second program that does the same writes it; a file that can't be opened,
/// or that another holds, is a fault of that call. A missing file has no bytes, and is made by the
/// first write or cut. Each sync is one of the system: of the file's data, and, until one has
/// succeeded, of the folder that it lies in.
#[derive(Drop)]
pub struct FileDisk<'a, R: Files> {
    files: &'a R,
    path: &'a str,
    file: Option<R::File>,
    /// Whether this disk has synced the folder.
    is_folder_synced: bool,
    faults: u64,
}

impl<'a, R: Files> FileDisk<'a, R>
where
    R::File: Lock,
{
    /// The disk of the file at this path, which is opened later.
    pub fn new(files: &'a R, path: &'a str) -> Self {
        FileDisk {
            files,
            path,
            file: None,
            is_folder_synced: false,
            faults: 0,
        }
    }

    /// Opens and locks the file, if it isn't open. Whether it is open then: a missing one isn't.
    fn is_open(&mut self) -> Option<bool>
        ensures { self.new.faults ≡ self.old.faults }
    {
        if self.file.is_none() {
            match OpenOptions::new()
                .read(true)
                .write(true)
                .open(self.files, self.path)
            {
                Ok(file) => self.hold(file)?,
                Err(error) if error.kind() == ErrorKind::NotFound => return Some(false),
                Err(_) => return None,
            }
        }
        Some(true)
    }

    /// Opens and locks the file, and makes it where it is missing.
    fn open_or_make(&mut self) -> Option<()>
        ensures { self.new.faults ≡ self.old.faults }
    {
        if !self.is_open()? {
            let file = OpenOptions::new()
                .read(true)
                .write(true)
                .create_new(true)
                .open(self.files, self.path)
                .ok()?;
            self.hold(file)?;
        }
        Some(())
    }

    /// Keeps the file, if no other program has its lock.
    fn hold(&mut self, file: R::File) -> Option<()>
        ensures { self.new.faults ≡ self.old.faults }
    {
        if !file.take_lock() {
            return None;
        }
        self.file = Some(file);
        Some(())
    }

    /// Syncs the folder once, so that the file is found again after a power cut. A disk does so
    /// whoever made the file: the run that made it may have ended before its first sync.
    fn sync_folder(&mut self) -> Option<()>
        ensures { self.new.faults ≡ self.old.faults }
    {
        if !self.is_folder_synced {
            let folder = OpenOptions::new()
                .read(true)
                .open(self.files, folder_of(self.path))
                .ok()?;
            folder.sync_all().ok()?;
            self.is_folder_synced = true;
        }
        Some(())
    }

    /// Syncs the file's data, and the folder if it wasn't yet.
    fn sync_both(&mut self) -> Option<()>
        ensures { self.new.faults ≡ self.old.faults }
    {
        sync_data(&self.file)?;
        self.sync_folder()
    }

    /// What a call gave, with its failure counted.
    fn counted<T>(&mut self, outcome: Option<T>) -> Result<T, Failed>
        ensures cause { HasCause self.old.faults self.new.faults result }
        ensures quiet { OnOk result (self.new.faults ≡ self.old.faults) }
    {
        match outcome {
            Some(value) => Ok(value),
            None => {
                self.faults = self.faults.saturating_add(1);
                Err(Failed)
            }
        }
    }
}

/// The folder that a file lies in.
fn folder_of(path: &str) -> &str {
    match Path::new(path).parent() {
        Some(folder) if !folder.as_str().is_empty() => folder.as_str(),
        _ => ".",
    }
}

// The calls on the file, if it is open: `None` where one fails.

fn len_of<F: OpenFile>(file: &Option<F>) -> Option<u64> {
    match file {
        Some(file) => Some(file.metadata().ok()?.len()),
        None => None,
    }
}

fn read_from<F: FileExt>(file: &Option<F>, at: u64, buf: &mut [u8]) -> Option<()> {
    match file {
        Some(file) => file.read_exact_at(buf, at).ok(),
        None => None,
    }
}

fn write_to<F: FileExt>(file: &Option<F>, at: u64, piece: &[u8]) -> Option<()> {
    match file {
        Some(file) => file.write_all_at(piece, at).ok(),
        None => None,
    }
}

fn cut_to<F: OpenFile>(file: &Option<F>, len: u64) -> Option<()> {
    match file {
        Some(file) => file.set_len(len).ok(),
        None => None,
    }
}

fn sync_data<F: OpenFile>(file: &Option<F>) -> Option<()> {
    match file {
        Some(file) => file.sync_data().ok(),
        None => None,
    }
}

impl<R: Files> Disk for FileDisk<'_, R>
where
    R::File: Lock + FileExt,
{
    ghost tells = { false };

    ghost content = { λ _. [] };

    ghost is_image = { λ _ _. ⊤ };

    ghost moment = { λ _. 0 };

    ghost was_image = { λ _ _ _. ⊤ };

    ghost faults = { λ d. d.faults };

    fn len(&mut self) -> Result<u64, Failed> {
        let outcome = match self.is_open() {
            Some(true) => len_of(&self.file),
            Some(false) => Some(0),
            None => None,
        };
        self.counted(outcome)
    }

    fn read(&mut self, at: u64, buf: &mut [u8]) -> Result<(), Failed> {
        let outcome = match self.is_open() {
            Some(true) => read_from(&self.file, at, buf),
            Some(false) if buf.is_empty() => Some(()),
            _ => None,
        };
        self.counted(outcome)
    }

    fn write_at(&mut self, at: u64, piece: &[u8]) -> Result<(), Failed> {
        let outcome = match self.open_or_make() {
            Some(()) => write_to(&self.file, at, piece),
            None => None,
        };
        self.counted(outcome)
    }

    fn cut(&mut self, len: u64) -> Result<(), Failed> {
        let outcome = match self.open_or_make() {
            Some(()) => cut_to(&self.file, len),
            None => None,
        };
        self.counted(outcome)
    }

    fn sync(&mut self) -> Result<(), Failed> {
        let outcome = match self.is_open() {
            Some(true) => self.sync_both(),
            Some(false) => Some(()),
            None => None,
        };
        self.counted(outcome)
    }

    ghost reads_an_image = { λ d tells. tt };

    ghost counts_now = { λ d t image le now. tt };

    ghost only_now = { λ d image was. tt };
}
