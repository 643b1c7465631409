//! The ledger of a journal whose entries the office takes again.

ghost use Rattle.std.specs.Prelude.{◌≡◌, IfOk};
ghost use Rattle.cf_journal_book.specs.Recovery.{recovered};
ghost use Rattle.cf_books.specs.Answers as spec;
ghost use Rattle.cf_books.specs.Answers.{Answers, OpensWith};
ghost use Rattle.cf_books.specs.Unknown as named;
ghost use Rattle.cf_books_ledger.specs.Ledger.{text_of};
ghost use Rattle.cf_books_words.specs.declared.words.Command.TheVariants.{Ledger};
ghost use Rattle.cf_office_rows.specs.History.{history_rows};

use crate::answers::{Answer, nothing};
use crate::lists::done;
use crate::office::refused_answer;
use crate::status::Status;
use crate::unknown::unknown_in_ledger;
use cf_books_ledger::{ledger_text, open_with_ledger};
use cf_books_lists::Layout;
use cf_books_words::LedgerFilter;
use cf_disk::MemDisk;
use cf_journal_book::{Book, BookRefused, NotOpened};
use cf_office_rows::LedgerRow;
use std::alloc::{AllocError, Global};

/// The book of a journal's bytes with the ledger's rows, or why they aren't those of an office.
fn open_ledger(
    alloc: Global,
    bytes: Vec<u8>,
) -> Result<(Book<MemDisk>, Vec<LedgerRow>), BookRefused>
    ensures book { OpensWith result (recovered bytes.items) }
    ensures rows { IfOk result (λ x. x.1.items ≡ history_rows x.0.plan x.0.entries) }
{
    let Ok(disk) = MemDisk::new(alloc, bytes) else {
        return Err(BookRefused::NoMemory);
    };
    match open_with_ledger(alloc, disk) {
        Ok(opened) => Ok(opened),
        Err(NotOpened { disk: _, why }) => Err(why),
    }
}

/// The rows of a book's ledger that are wanted, or what its chart doesn't have.
fn ledger_told(
    layout: Layout,
    filter: LedgerFilter,
    book: &Book<MemDisk>,
    rows: &[LedgerRow],
) -> Result<Answer, AllocError>
    ensures { Answers result
        (spec.told_of (named.unknown_in_ledger book.now.plan filter)
        (text_of layout.csv filter book.now.entries rows.now)) }
{
    match unknown_in_ledger(book.chart(), filter) {
        None => Ok(done(ledger_text(layout, &filter, book.entries(), rows)?)),
        Some(what) => Ok(nothing(layout.alloc, Status::NotInChart { what })),
    }
}

/// The rows of the ledger that are wanted, or why the journal has none.
pub fn ledger_answer(
    layout: Layout,
    filter: LedgerFilter,
    bytes: &[u8],
) -> Result<Answer, AllocError>
    ensures { Answers result
        (spec.office_said (Ledger filter layout.csv) bytes.now (recovered bytes.now)) }
{
    let copy = Vec::from_slice(layout.alloc, bytes)?;
    match open_ledger(layout.alloc, copy) {
        Ok((book, rows)) => ledger_told(layout, filter, &book, rows.as_slice()),
        Err(why) => refused_answer(layout.alloc, bytes, why),
    }
}
