//! How a run ends.

ghost use Rattle.std.specs.Prelude.{◌≡◌};
ghost use Rattle.cf_books.specs.Notices.{code_of};

use crate::unknown::Unknown;
use cf_chart::ChartFault;
use cf_grants::GrantFault;

/// An entry that the office refuses.
#[derive(Clone, Copy)]
pub struct RefusedEntry {
    /// Its place, from 1.
    pub place: u64,
    /// The number of the refusal: 0 for a repeat and for other drawn numbers.
    pub number: u8,
}

/// How a run ends.
#[derive(Clone, Copy)]
pub enum Status {
    /// The answer was written whole.
    Done,
    /// The words ask for nothing.
    BadWords,
    /// The chart has this fault, and no journal is founded with it. The id is that of the row with
    /// the fault, where it has one in form: 0 to 65535.
    ChartRefused {
        fault: ChartFault,
        id: Option<u16>,
    },
    /// The document of grants has this fault. The id is that of the grant with the fault, where it
    /// has one in form: 0 to 65535.
    GrantsRefused {
        fault: GrantFault,
        id: Option<u16>,
    },
    /// A file can't be read.
    ReadFault,
    /// The output failed.
    WriteFault,
    /// The file, of so many bytes, is no journal.
    NotFounded {
        len: u64,
    },
    /// The journal isn't what the program leaves: where what is wrong stands in the file, in bytes,
    /// and the entry that stands there where it is one that the office refuses.
    Damaged {
        offset: u64,
        entry: Option<RefusedEntry>,
    },
    /// There was no memory.
    NoMemory,
    /// What stands before the damage was given. So many bytes from there on are lost.
    Cut {
        offset: u64,
        lost: u64,
    },
    /// A day or a month of the words is none from 1971 to 2199.
    NoSuchDay,
    /// The words name something that the chart of the journal doesn't have.
    NotInChart {
        what: Unknown,
    },
    /// So many of the first entries were asked for, and the journal has fewer.
    EntriesRefused {
        asked: u64,
        entries: u64,
    },
}

impl Status {
    /// The exit code of the program, which is that of `cityfund` where both end so.
    pub fn code(self) -> u8
        ensures { result ≡ code_of self }
    {
        match self {
            Status::Done => 0,
            Status::BadWords => 2,
            Status::ChartRefused { .. } => 3,
            Status::ReadFault => 4,
            Status::WriteFault => 5,
            Status::NotFounded { .. } => 7,
            Status::Damaged { .. } => 9,
            Status::NoMemory => 12,
            Status::Cut { .. } => 13,
            Status::GrantsRefused { .. } => 19,
            Status::NoSuchDay => 20,
            Status::NotInChart {
                what: Unknown::Name { .. },
            } => 21,
            Status::NotInChart {
                what: Unknown::Early { .. },
            } => 23,
            Status::EntriesRefused { .. } => 22,
        }
    }
}
