//! A journal whose entries the office takes again, one after another.

ghost use Rattle.std.specs.Prelude.{◌≡◌, IfOk, Result};
ghost use Rattle.cf_journal_book.specs.Recovery.{recovered};
ghost use Rattle.cf_journal_book.specs.declared.refused.BookRefused.{BookRefused as BookRefusal};
ghost use Rattle.cf_books_words.specs.declared.words.Command.TheVariants.{Check};
ghost use Rattle.cf_books.specs.Answers as spec;
ghost use Rattle.cf_books.specs.Answers.{Answers, Opens, Refuses, opened};
ghost use Rattle.cf_model.specs.Common.{OfficeState};

use crate::answers::{Answer, damaged, nothing};
use crate::refused::refused_at;
use crate::room::put_room;
use crate::status::Status;
use crate::summary::put_journal;
use cf_disk::MemDisk;
use cf_journal_book::{Book, BookRefused, NotOpened, open};
use std::alloc::{AllocError, Global};

/// The book of a journal's bytes, or why they aren't those of an office. All entries are judged by
/// the rules again.
pub(crate) fn open_book(alloc: Global, bytes: Vec<u8>) -> Result<Book<MemDisk>, BookRefused>
    ensures { Opens result (recovered bytes.items) }
{
    let Ok(disk) = MemDisk::new(alloc, bytes) else {
        return Err(BookRefused::NoMemory);
    };
    match open(alloc, disk) {
        Ok(book) => Ok(book),
        Err(NotOpened { disk: _, why }) => Err(why),
    }
}

/// What is said where no book was opened.
pub(crate) fn refused_answer(
    alloc: Global,
    bytes: &[u8],
    why: BookRefused,
) -> Result<Answer, AllocError>
    ensures { (told : OfficeState → spec.Said) (x : Result OfficeState BookRefusal) → Refuses why x
        → Answers result (spec.over_office told bytes.now x) }
{
    match why {
        BookRefused::NotFounded { len, byte: _ } => Ok(nothing(alloc, Status::NotFounded { len })),
        BookRefused::Damaged {
            offset,
            refusal: Some(number),
        } => refused_at(alloc, bytes, offset, number),
        BookRefused::Damaged {
            offset,
            refusal: None,
        } => Ok(damaged(alloc, offset)),
        BookRefused::Disk | BookRefused::NoMemory => Err(AllocError),
    }
}

/// What is printed of a book that is checked, and of the bytes of its journal.
fn book_text(alloc: Global, bytes: &[u8], book: &Book<MemDisk>) -> Result<Vec<u8>, AllocError>
    ensures { IfOk result (λ v. v.items ≡ spec.office_text Check bytes.now (opened book.now)) }
{
    let entries = book.entries();
    let mut out = Vec::new(alloc);
    put_journal(&mut out, entries)?;
    put_room(&mut out, bytes, entries)?;
    Ok(out)
}

/// What is said of a journal whose entries the office takes again.
pub fn office_answer(alloc: Global, bytes: &[u8]) -> Result<Answer, AllocError>
    ensures { Answers result (spec.office_said Check bytes.now (recovered bytes.now)) }
{
    let copy = Vec::from_slice(alloc, bytes)?;
    match open_book(alloc, copy) {
        Ok(book) => {
            let out = book_text(alloc, bytes, &book)?;
            Ok(Answer {
                out,
                status: Status::Done,
            })
        }
        Err(why) => refused_answer(alloc, bytes, why),
    }
}
