//! Why a book wasn't opened.

ghost use Rattle.std.specs.Prelude.{◌≡◌};
ghost use Rattle.cf_journal_book.specs.Recovery.{book_refused};

use cf_journal::OpenRefused;

/// Why a book wasn't opened.
#[derive(Clone, Copy)]
pub enum BookRefused {
    /// A call of the disk failed.
    Disk,
    /// There is no journal: the length of the file in bytes, and its first byte. The length is at
    /// most 1, or the byte isn't 1.
    NotFounded { len: u64, byte: Option<u8> },
    /// The file isn't what a journal leaves: the place of what is wrong in it. Where that is an
    /// entry that the office refuses, `refusal` is the number of the refusal, from 1 to 25, or 0
    /// where the office has the call already or draws other numbers for it.
    Damaged { offset: u64, refusal: Option<u8> },
    /// There was no memory for the chart, the entries or the office.
    NoMemory,
}

/// The refusal of a journal as one of the book.
pub fn refused_by(why: OpenRefused) -> BookRefused
    ensures { result ≡ book_refused why }
{
    match why {
        OpenRefused::Disk => BookRefused::Disk,
        OpenRefused::NoMemory => BookRefused::NoMemory,
        OpenRefused::NotFounded { len, byte } => BookRefused::NotFounded { len, byte },
        OpenRefused::Damaged { offset } => BookRefused::Damaged {
            offset,
            refusal: None,
        },
    }
}
