//! How a run ends.

ghost use Rattle.std.specs.Prelude.{◌≡◌};
ghost use Rattle.cf_run_status.specs.Notices.{code_of, text_of};
ghost use Rattle.cf_run_status.specs.Refused.{status_of_refused};

use cf_chart::ChartFault;
use cf_grants::GrantFault;
use cf_journal_book::BookRefused;

/// How a run ends.
#[derive(Clone, Copy)]
pub enum Status {
    /// For `desk`, the input was read to its end; for `serve`, each door gave its links or had none
    /// left, and none failed. The text of the command was written whole.
    Ok,
    /// The words ask for no command, or for more doors than there are.
    BadWords,
    /// The chart to be founded has this fault.
    ChartRefused { fault: ChartFault },
    /// The chart or the input failed.
    ReadFault,
    /// The output failed.
    WriteFault,
    /// The disk failed while the journal was founded or opened.
    DiskFault,
    /// There is no journal: the length of its file in bytes, and the first byte. The length is at
    /// most 1, or the byte isn't 1.
    NotFounded { len: u64, byte: Option<u8> },
    /// There is a journal, so none is founded: the length of its file in bytes, and the first byte,
    /// 1.
    AlreadyFounded { len: u64, byte: u8 },
    /// The journal isn't one that this program leaves: the place of what is wrong, and where that
    /// is an entry that the office refuses, the number of the refusal.
    Damaged { offset: u64, refusal: Option<u8> },
    /// A door failed; the others were served to their ends.
    DoorFault,
    /// The input has more than 1,099,511,627,776 bytes.
    InputLimit,
    /// There was no memory to begin with, or to make what is printed.
    NoMemory,
    /// `pool` found no share: the sum of the funds' daily balances over the month, in cents times
    /// days, which is 0 or above 18,446,744,073,709,551,615.
    NoShare { sum: i128 },
    /// The stream was shipped under another chart: the first place at which the two charts' bytes
    /// differ.
    OtherChart { at: u64 },
    /// The stream begins behind more entries than the own history has.
    Gap { from: u64, length: u64 },
    /// The stream isn't one that `ship` writes: the place of the field that is cut short or wrong.
    StreamFault { offset: u64 },
    /// The own history has another entry at this place, counted from 1.
    Forked { place: u64 },
    /// The office refuses the stream's entry at this place, counted from 1: the number of the
    /// refusal, or 0 where it has the call already or draws other numbers for it.
    EntryRefused { place: u64, refusal: u8 },
    /// The document of grants has this fault, or no grant of the id that the words name.
    GrantRefused { fault: GrantFault },
}

impl Status {
    /// The exit code of the program.
    pub fn code(self) -> u8
        ensures { result ≡ code_of self }
    {
        match self {
            Status::Ok => 0,
            Status::BadWords => 2,
            Status::ChartRefused { .. } => 3,
            Status::ReadFault => 4,
            Status::WriteFault => 5,
            Status::DiskFault => 6,
            Status::NotFounded { .. } => 7,
            Status::AlreadyFounded { .. } => 8,
            Status::Damaged { .. } => 9,
            Status::DoorFault => 10,
            Status::InputLimit => 11,
            Status::NoMemory => 12,
            Status::NoShare { .. } => 13,
            Status::OtherChart { .. } => 14,
            Status::Gap { .. } => 15,
            Status::StreamFault { .. } => 16,
            Status::Forked { .. } => 17,
            Status::EntryRefused { .. } => 18,
            Status::GrantRefused { .. } => 19,
        }
    }

    /// What the program says of this end on standard error, in words. Nothing where all went well.
    pub fn text(self) -> &'static str
        ensures { result.now ≡ text_of self }
    {
        match self {
            Status::Ok => "",
            Status::BadWords => "bad words",
            Status::ChartRefused { .. } => "chart refused",
            Status::ReadFault => "read fault",
            Status::WriteFault => "write fault",
            Status::DiskFault => "disk fault",
            Status::NotFounded { .. } => "not founded",
            Status::AlreadyFounded { .. } => "already founded",
            Status::Damaged { .. } => "damaged",
            Status::DoorFault => "door fault",
            Status::InputLimit => "input limit",
            Status::NoMemory => "no memory",
            Status::NoShare { .. } => "no share",
            Status::OtherChart { .. } => "other chart",
            Status::Gap { .. } => "gap",
            Status::StreamFault { .. } => "stream fault",
            Status::Forked { .. } => "forked",
            Status::EntryRefused { .. } => "entry refused",
            Status::GrantRefused { .. } => "grant refused",
        }
    }
}

/// The status of a journal that isn't opened.
pub fn refusal_status(why: BookRefused) -> Status
    ensures { result ≡ status_of_refused why }
{
    match why {
        BookRefused::Disk => Status::DiskFault,
        BookRefused::NotFounded { len, byte } => Status::NotFounded { len, byte },
        BookRefused::Damaged { offset, refusal } => Status::Damaged { offset, refusal },
        BookRefused::NoMemory => Status::NoMemory,
    }
}
