//! A month of a journal whose entries the office takes again.

ghost use Rattle.std.specs.Prelude.{◌≡◌, ◌≤◌, true, IfOk};
ghost use Rattle.cf_base.specs.Common.{is_call_month};
ghost use Rattle.cf_journal_book.specs.Recovery.{recovered};
ghost use Rattle.cf_journal_book.specs.Watching.{all_posted};
ghost use Rattle.cf_books.specs.Answers as spec;
ghost use Rattle.cf_books.specs.Answers.{Answers};
ghost use Rattle.cf_books_days.specs.Gathered.{IsOf};

use crate::answers::{Answer, nothing};
use crate::lists::done;
use crate::office::refused_answer;
use crate::status::Status;
use crate::through::open_days;
use cf_base::{LAST_YEAR, Month};
use cf_books_days::Dated;
use cf_books_lists::Layout;
use cf_books_month::month_text;
use cf_office::Rest;
use std::alloc::AllocError;

/// Whether a month is one that can be asked for: 1971-01 to 2199-12.
#[tactic(auto, using(crate::proofs::Months::asked_call, crate::proofs::Months::asked_from))]
fn is_asked(month: Month) -> bool
    ensures value { result ≡ spec.is_asked_month month }
    ensures call { result ≡ true → is_call_month month ≡ true }
    ensures from { result ≡ true → 1971 ≤ month.year }
{
    1971 <= month.year && month.year <= LAST_YEAR && 1 <= month.month && month.month <= 12
}

/// The text of a month.
#[tactic(auto, unfolding(crate::specs::Answers::month_list))]
fn text_of_month(
    layout: Layout,
    rest: &Rest,
    dated: &Dated,
    month: Month,
) -> Result<Vec<u8>, AllocError>
    requires call { is_call_month month ≡ true }
    requires from { 1971 ≤ month.year }
    requires dated { IsOf rest.now.plan (all_posted rest.now.plan rest.now.entries) dated.now }
    ensures { IfOk result
        (λ v. v.items ≡ spec.month_list layout.csv month rest.now.plan rest.now.entries) }
{
    month_text(layout, rest, dated, month)
}

/// A month from 1971-01 to 2199-12, or why the journal has none.
fn month_of(layout: Layout, month: Month, bytes: &[u8]) -> Result<Answer, AllocError>
    requires call { is_call_month month ≡ true }
    requires from { 1971 ≤ month.year }
    ensures { Answers result
        (spec.over_office (spec.month_told layout.csv month) bytes.now (recovered bytes.now)) }
{
    let copy = Vec::from_slice(layout.alloc, bytes)?;
    match open_days(layout.alloc, copy) {
        Ok((book, dated)) => {
            let (_, archive) = book.into_parts();
            Ok(done(text_of_month(layout, archive.rest(), &dated, month)?))
        }
        Err(why) => refused_answer(layout.alloc, bytes, why),
    }
}

/// A month, or why the journal has none. Words with a month that isn't from 1971-01 to 2199-12 are
/// refused.
pub fn month_answer(layout: Layout, month: Month, bytes: &[u8]) -> Result<Answer, AllocError>
    ensures { Answers result (spec.month_said month layout.csv bytes.now) }
{
    if is_asked(month) {
        month_of(layout, month, bytes)
    } else {
        Ok(nothing(layout.alloc, Status::BadWords))
    }
}
