//! Lists and statements of the entries that are dated through a day.

ghost use Rattle.std.specs.Prelude.{◌≡◌, Some, false, IfOk};
ghost use Rattle.cf_journal_book.specs.Recovery.{recovered};
ghost use Rattle.cf_journal_book.specs.Watching.{all_posted};
ghost use Rattle.cf_books.specs.Answers as spec;
ghost use Rattle.cf_books.specs.Answers.{Answers, OpensWith};
ghost use Rattle.cf_books.specs.Unknown as named;
ghost use Rattle.cf_books_days.specs.Balances as balances;
ghost use Rattle.cf_books_days.specs.Gathered.{IsOf};
ghost use Rattle.cf_books_days.specs.Posts.{posts_text_through};
ghost use Rattle.cf_books_lists.specs.Posts.{placed_in};
ghost use Rattle.cf_books_words.specs.declared.words.Command.TheVariants.{Balances, Posts};
ghost use Rattle.cf_calls.specs.Common.{IsYear};

use crate::answers::{Answer, nothing};
use crate::lists::{done, open_posts};
use crate::office::refused_answer;
use crate::status::Status;
use crate::unknown::{early, unknown_in_posts};
use cf_base::{Day, Kind, LAST_YEAR};
use cf_books_days::{
    Dated, DatedKind, balances_through_text, open_dated, posts_through_text, statement_through_text,
};
use cf_books_lists::{Layout, PlacedPost};
use cf_books_words::PostFilter;
use cf_disk::MemDisk;
use cf_journal_book::{Book, BookRefused, NotOpened};
use cf_office::Rest;
use cf_run_words::ReportKind;
use std::alloc::{AllocError, Global};

/// The book of a journal's bytes with what its entries post and move, each with its day, or why
/// they aren't those of an office.
pub(crate) fn open_days(
    alloc: Global,
    bytes: Vec<u8>,
) -> Result<(Book<MemDisk>, Dated), BookRefused>
    ensures book { OpensWith result (recovered bytes.items) }
    ensures dated { IfOk result (λ x. IsOf x.0.plan (all_posted x.0.plan x.0.entries) x.1) }
{
    let Ok(disk) = MemDisk::new(alloc, bytes) else {
        return Err(BookRefused::NoMemory);
    };
    match open_dated(alloc, disk) {
        Ok(opened) => Ok(opened),
        Err(NotOpened { disk: _, why }) => Err(why),
    }
}

/// The posts of a book that are wanted of the entries through a day, or what its chart doesn't
/// have.
fn posts_told(
    layout: Layout,
    filter: PostFilter,
    day: Day,
    book: &Book<MemDisk>,
    posts: &[PlacedPost],
) -> Result<Answer, AllocError>
    requires { posts.now ≡ placed_in (all_posted book.now.plan book.now.entries) }
    ensures { Answers result
        (spec.told_of (named.unknown_in_posts book.now.plan filter (Some day))
        (posts_text_through layout.csv filter day book.now.plan book.now.entries)) }
{
    match unknown_in_posts(book.chart(), filter, Some(day)) {
        None => Ok(done(posts_through_text(layout, filter, day, book, posts)?)),
        Some(what) => Ok(nothing(layout.alloc, Status::NotInChart { what })),
    }
}

/// The posts that are wanted of the entries through a day, or why the journal has none.
pub fn posts_through(
    layout: Layout,
    filter: PostFilter,
    day: Day,
    bytes: &[u8],
) -> Result<Answer, AllocError>
    ensures { Answers result
        (spec.office_said (Posts filter (Some day) layout.csv) bytes.now (recovered bytes.now)) }
{
    let copy = Vec::from_slice(layout.alloc, bytes)?;
    match open_posts(layout.alloc, copy) {
        Ok((book, posts)) => posts_told(layout, filter, day, &book, posts.as_slice()),
        Err(why) => refused_answer(layout.alloc, bytes, why),
    }
}

/// The balances of a history through a fiscal year, of the entries through a day, or what its chart
/// doesn't have.
fn balances_told(
    layout: Layout,
    year: u16,
    day: Day,
    rest: &Rest,
    dated: &Dated,
) -> Result<Answer, AllocError>
    requires { IsOf rest.now.plan (all_posted rest.now.plan rest.now.entries) dated.now }
    ensures { Answers result
        (spec.told_of (named.early rest.now.plan (Some day))
        (balances.balances_through layout.csv day year rest.now.plan rest.now.entries)) }
{
    match early(rest.chart(), Some(day)) {
        None => Ok(done(balances_through_text(layout, rest, dated, day, year)?)),
        Some(what) => Ok(nothing(layout.alloc, Status::NotInChart { what })),
    }
}

/// The balances through a fiscal year of the entries through a day, or why the journal has none.
pub fn balances_through(
    layout: Layout,
    year: u16,
    day: Day,
    bytes: &[u8],
) -> Result<Answer, AllocError>
    ensures { Answers result (spec.office_said
        (Balances year (Some day) false layout.csv) bytes.now (recovered bytes.now)) }
{
    let copy = Vec::from_slice(layout.alloc, bytes)?;
    match open_days(layout.alloc, copy) {
        Ok((book, dated)) => {
            let (_, archive) = book.into_parts();
            balances_told(layout, year, day, archive.rest(), &dated)
        }
        Err(why) => refused_answer(layout.alloc, bytes, why),
    }
}

/// The statement that is made of sums alone, where this kind is.
fn dated_kind(kind: ReportKind) -> Option<DatedKind>
    ensures { result ≡ spec.dated_kind kind }
{
    match kind {
        ReportKind::Look(Kind::Balance) => Some(DatedKind::Balance),
        ReportKind::Look(Kind::Operating) => Some(DatedKind::Operating),
        ReportKind::Look(Kind::Budget) => Some(DatedKind::Budget),
        ReportKind::Look(Kind::Position) => Some(DatedKind::Position),
        ReportKind::Look(Kind::Activities) => Some(DatedKind::Activities),
        ReportKind::Look(Kind::Reconcile | Kind::Changes)
        | ReportKind::Classes
        | ReportKind::Components
        | ReportKind::Major => None,
    }
}

/// The text of a statement of a fiscal year, of the entries through a day.
#[tactic(auto, unfolding(crate::specs::Answers::dated_text))]
fn text_through(
    layout: Layout,
    rest: &Rest,
    dated: &Dated,
    day: Day,
    year: u16,
    kind: DatedKind,
) -> Result<Vec<u8>, AllocError>
    requires year { IsYear year }
    requires dated { IsOf rest.now.plan (all_posted rest.now.plan rest.now.entries) dated.now }
    ensures { IfOk result
        (λ v. v.items ≡ spec.dated_text layout.csv day year kind rest.now.plan rest.now.entries) }
{
    statement_through_text(layout, rest, dated, day, year, kind)
}

/// A statement of a history, of the entries through a day, or what its chart doesn't have.
fn statement_told(
    layout: Layout,
    year: u16,
    kind: DatedKind,
    day: Day,
    rest: &Rest,
    dated: &Dated,
) -> Result<Answer, AllocError>
    requires year { IsYear year }
    requires dated { IsOf rest.now.plan (all_posted rest.now.plan rest.now.entries) dated.now }
    ensures { Answers result
        (spec.told_of (named.early rest.now.plan (Some day))
        (spec.dated_text layout.csv day year kind rest.now.plan rest.now.entries)) }
{
    match early(rest.chart(), Some(day)) {
        None => Ok(done(text_through(layout, rest, dated, day, year, kind)?)),
        Some(what) => Ok(nothing(layout.alloc, Status::NotInChart { what })),
    }
}

/// A statement of a fiscal year from 1971 to 2199, of the entries through a day, or why the journal
/// has none.
fn statement_of_days(
    layout: Layout,
    year: u16,
    kind: DatedKind,
    day: Day,
    bytes: &[u8],
) -> Result<Answer, AllocError>
    requires { IsYear year }
    ensures { Answers result
        (spec.over_office (spec.dated_told layout.csv day year kind) bytes.now
        (recovered bytes.now)) }
{
    let copy = Vec::from_slice(layout.alloc, bytes)?;
    match open_days(layout.alloc, copy) {
        Ok((book, dated)) => {
            let (_, archive) = book.into_parts();
            statement_told(layout, year, kind, day, archive.rest(), &dated)
        }
        Err(why) => refused_answer(layout.alloc, bytes, why),
    }
}

/// A statement of a fiscal year, of the entries through a day, or why the journal has none. Words
/// with a year that isn't from 1971 to 2199, or with a statement that isn't made of sums alone, are
/// refused.
pub fn statement_through(
    layout: Layout,
    year: u16,
    kind: ReportKind,
    day: Day,
    bytes: &[u8],
) -> Result<Answer, AllocError>
    ensures { Answers result
        (spec.dated_said year (spec.dated_kind kind) day layout.csv bytes.now) }
{
    match dated_kind(kind) {
        Some(kind) if 1971 <= year && year <= LAST_YEAR => {
            statement_of_days(layout, year, kind, day, bytes)
        }
        Some(_) | None => Ok(nothing(layout.alloc, Status::BadWords)),
    }
}
