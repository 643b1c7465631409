//! Why a call of the journal was refused.

ghost use Rattle.std.specs.Prelude.{◌≡◌};
ghost use Rattle.cf_journal.specs.declared.refused.FoundRefused.TheVariants as found_refused;
ghost use Rattle.cf_journal.specs.declared.refused.OpenRefused.TheVariants as open_refused;

use cf_base::Failed;
use std::alloc::{AllocError, AllocFailed};

/// A call of the disk failed. It comes only where the disk's count of faults rose in the call.
#[derive(Clone, Copy)]
pub struct Disk_;

/// Why no journal was founded.
#[derive(Clone, Copy)]
pub enum FoundRefused {
    /// A call of the disk failed.
    Disk,
    /// A journal is there: the length of its file in bytes, which is above 1, and its first byte,
    /// 1.
    AlreadyFounded { len: u64, byte: u8 },
    /// There was no memory for the head.
    NoMemory,
}

/// Why no journal was opened.
#[derive(Clone, Copy)]
pub enum OpenRefused {
    /// A call of the disk failed.
    Disk,
    /// There is no journal: the length of the file in bytes, and its first byte. The length is at
    /// most 1, or the byte isn't 1.
    NotFounded { len: u64, byte: Option<u8> },
    /// The file isn't what a journal leaves: the place of what is wrong. It is 1 where the head is
    /// cut short, 2 for the length of the chart, 6 for the chart, and else the place of an open
    /// gate with no entry behind it.
    Damaged { offset: u64 },
    /// There was no memory for the chart or the entries.
    NoMemory,
}

impl From<Failed> for Disk_ {
    ghost from_gives = { λ _ e. e ≡ record {} };

    fn from(_failed: Failed) -> Disk_ {
        Disk_
    }
}

impl From<Failed> for FoundRefused {
    ghost from_gives = { λ _ e. e ≡ found_refused.Disk };

    fn from(_failed: Failed) -> FoundRefused {
        FoundRefused::Disk
    }
}

impl From<AllocError> for FoundRefused {
    ghost from_gives = { λ _ e. e ≡ found_refused.NoMemory };

    fn from(_error: AllocError) -> FoundRefused {
        FoundRefused::NoMemory
    }
}

impl From<Failed> for OpenRefused {
    ghost from_gives = { λ _ e. e ≡ open_refused.Disk };

    fn from(_failed: Failed) -> OpenRefused {
        OpenRefused::Disk
    }
}

impl From<AllocError> for OpenRefused {
    ghost from_gives = { λ _ e. e ≡ open_refused.NoMemory };

    fn from(_error: AllocError) -> OpenRefused {
        OpenRefused::NoMemory
    }
}

impl<T: Drop> From<AllocFailed<T>> for OpenRefused {
    ghost from_gives = { λ _ e. e ≡ open_refused.NoMemory };

    fn from(_error: AllocFailed<T>) -> OpenRefused {
        OpenRefused::NoMemory
    }
}
