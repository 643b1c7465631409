//! The lists of a journal whose entries the office takes again: posts, balances, what is open, and
//! statements.

ghost use Rattle.std.specs.Prelude.{◌≡◌, false, true, IfOk, None};
ghost use Rattle.cf_journal_book.specs.Recovery.{recovered};
ghost use Rattle.cf_journal_book.specs.Watching.{all_posted};
ghost use Rattle.cf_calls.specs.Common.{IsYear};
ghost use Rattle.cf_books.specs.Answers as spec;
ghost use Rattle.cf_books.specs.Answers.{Answers, OpensWith};
ghost use Rattle.cf_books.specs.Unknown as named;
ghost use Rattle.cf_books_lists.specs.Posts.{placed_in, posts_of};
ghost use Rattle.cf_books_words.specs.declared.words.Command.TheVariants.{Balances, Open, Paid, Posts, Statement};

use crate::answers::{Answer, nothing};
use crate::office::{open_book, refused_answer};
use crate::status::Status;
use crate::through::{balances_through, posts_through, statement_through};
use crate::unknown::unknown_in_posts;
use cf_base::{Day, LAST_YEAR};
use cf_books_lists::{
    Layout, PlacedPost, balances_text, open_text, open_with_posts, posts_text, statement_text,
};
use cf_books_words::PostFilter;
use cf_books_year::{paid_text, year_balances_text};
use cf_disk::MemDisk;
use cf_journal_book::{Book, BookRefused, NotOpened};
use cf_run_words::ReportKind;
use std::alloc::{AllocError, Global};

/// An answer of this text.
pub(crate) fn done(out: Vec<u8>) -> Answer
    ensures { spec.view result ≡ record { out = out.items; status = Status.Done } }
{
    Answer {
        out,
        status: Status::Done,
    }
}

/// The book of a journal's bytes with the posts of its entries, or why they aren't those of an
/// office.
pub(crate) fn open_posts(
    alloc: Global,
    bytes: Vec<u8>,
) -> Result<(Book<MemDisk>, Vec<PlacedPost>), BookRefused>
    ensures book { OpensWith result (recovered bytes.items) }
    ensures posts { IfOk result (λ x. x.1.items ≡ placed_in (all_posted x.0.plan x.0.entries)) }
{
    let Ok(disk) = MemDisk::new(alloc, bytes) else {
        return Err(BookRefused::NoMemory);
    };
    match open_with_posts(alloc, disk) {
        Ok(opened) => Ok(opened),
        Err(NotOpened { disk: _, why }) => Err(why),
    }
}

/// The posts of a book that are wanted, or what its chart doesn't have.
fn posts_told(
    layout: Layout,
    filter: PostFilter,
    book: &Book<MemDisk>,
    posts: &[PlacedPost],
) -> Result<Answer, AllocError>
    requires { posts.now ≡ placed_in (all_posted book.now.plan book.now.entries) }
    ensures { Answers result
        (spec.told_of (named.unknown_in_posts book.now.plan filter None)
        (posts_of layout.csv filter book.now.plan book.now.entries)) }
{
    match unknown_in_posts(book.chart(), filter, None) {
        None => Ok(done(posts_text(layout, filter, book, posts)?)),
        Some(what) => Ok(nothing(layout.alloc, Status::NotInChart { what })),
    }
}

/// The posts of all entries that are wanted, or why the journal has none.
fn all_posts(layout: Layout, filter: PostFilter, bytes: &[u8]) -> Result<Answer, AllocError>
    ensures { Answers result
        (spec.office_said (Posts filter None layout.csv) bytes.now (recovered bytes.now)) }
{
    let copy = Vec::from_slice(layout.alloc, bytes)?;
    match open_posts(layout.alloc, copy) {
        Ok((book, posts)) => posts_told(layout, filter, &book, posts.as_slice()),
        Err(why) => refused_answer(layout.alloc, bytes, why),
    }
}

/// The posts that are wanted, or why the journal has none.
pub fn posts_answer(
    layout: Layout,
    filter: PostFilter,
    through: Option<Day>,
    bytes: &[u8],
) -> Result<Answer, AllocError>
    ensures { Answers result (spec.posts_said filter through layout.csv bytes.now) }
{
    match through {
        None => all_posts(layout, filter, bytes),
        Some(day) => posts_through(layout, filter, day, bytes),
    }
}

/// The balances through a fiscal year, or why the journal has none.
fn all_balances(layout: Layout, year: u16, bytes: &[u8]) -> Result<Answer, AllocError>
    ensures { Answers result
        (spec.office_said (Balances year None false layout.csv) bytes.now (recovered bytes.now)) }
{
    let copy = Vec::from_slice(layout.alloc, bytes)?;
    match open_book(layout.alloc, copy) {
        Ok(book) => {
            let (_, archive) = book.into_parts();
            Ok(done(balances_text(layout, archive.rest(), year)?))
        }
        Err(why) => refused_answer(layout.alloc, bytes, why),
    }
}

/// The trial balance of a fiscal year alone, or why the journal has none.
fn year_balances(layout: Layout, year: u16, bytes: &[u8]) -> Result<Answer, AllocError>
    ensures { Answers result
        (spec.office_said (Balances year None true layout.csv) bytes.now (recovered bytes.now)) }
{
    let copy = Vec::from_slice(layout.alloc, bytes)?;
    match open_book(layout.alloc, copy) {
        Ok(book) => {
            let (_, archive) = book.into_parts();
            Ok(done(year_balances_text(layout, archive.rest(), year)?))
        }
        Err(why) => refused_answer(layout.alloc, bytes, why),
    }
}

/// The balances of a fiscal year, through it or alone, or why the journal has none.
pub fn balances_answer(
    layout: Layout,
    year: u16,
    through: Option<Day>,
    alone: bool,
    bytes: &[u8],
) -> Result<Answer, AllocError>
    ensures { Answers result (spec.balances_said year through alone layout.csv bytes.now) }
{
    match (through, alone) {
        (None, false) => all_balances(layout, year, bytes),
        (None, true) => year_balances(layout, year, bytes),
        (Some(day), false) => balances_through(layout, year, day, bytes),
        (Some(_), true) => Ok(nothing(layout.alloc, Status::BadWords)),
    }
}

/// What each vendor was paid in a calendar year, or why the journal has none.
pub fn paid_answer(layout: Layout, year: u16, bytes: &[u8]) -> Result<Answer, AllocError>
    ensures { Answers result
        (spec.office_said (Paid year layout.csv) bytes.now (recovered bytes.now)) }
{
    let copy = Vec::from_slice(layout.alloc, bytes)?;
    match open_book(layout.alloc, copy) {
        Ok(book) => {
            let (_, archive) = book.into_parts();
            Ok(done(paid_text(layout, archive.rest(), year)?))
        }
        Err(why) => refused_answer(layout.alloc, bytes, why),
    }
}

/// What is open, or why the journal has none.
pub fn open_answer(layout: Layout, bytes: &[u8]) -> Result<Answer, AllocError>
    ensures { Answers result (spec.office_said (Open layout.csv) bytes.now (recovered bytes.now)) }
{
    let copy = Vec::from_slice(layout.alloc, bytes)?;
    match open_book(layout.alloc, copy) {
        Ok(book) => {
            let (_, archive) = book.into_parts();
            Ok(done(open_text(layout, archive.rest())?))
        }
        Err(why) => refused_answer(layout.alloc, bytes, why),
    }
}

/// A statement of a fiscal year from 1971 to 2199, or why the journal has none.
fn statement_of(
    layout: Layout,
    year: u16,
    kind: ReportKind,
    bytes: &[u8],
) -> Result<Answer, AllocError>
    requires { IsYear year }
    ensures { Answers result
        (spec.office_said (Statement year kind None layout.csv) bytes.now (recovered bytes.now)) }
{
    let copy = Vec::from_slice(layout.alloc, bytes)?;
    match open_book(layout.alloc, copy) {
        Ok(book) => Ok(done(statement_text(layout, &book, year, kind)?)),
        Err(why) => refused_answer(layout.alloc, bytes, why),
    }
}

/// A statement of a fiscal year, or why the journal has none. Words with a year that isn't from
/// 1971 to 2199 are refused.
fn whole_statement(
    layout: Layout,
    year: u16,
    kind: ReportKind,
    bytes: &[u8],
) -> Result<Answer, AllocError>
    ensures { Answers result (spec.statement_said year kind layout.csv bytes.now) }
{
    if 1971 <= year && year <= LAST_YEAR {
        statement_of(layout, year, kind, bytes)
    } else {
        Ok(nothing(layout.alloc, Status::BadWords))
    }
}

/// A statement of a fiscal year, or why the journal has none.
pub fn statement_answer(
    layout: Layout,
    year: u16,
    kind: ReportKind,
    through: Option<Day>,
    bytes: &[u8],
) -> Result<Answer, AllocError>
    ensures { Answers result (spec.statement_through_said year kind through layout.csv bytes.now) }
{
    match through {
        None => whole_statement(layout, year, kind, bytes),
        Some(day) => statement_through(layout, year, kind, day, bytes),
    }
}
