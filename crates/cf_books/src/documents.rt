//! The documents of a journal whose entries the office takes again.

ghost use Rattle.std.specs.Prelude.{option_map};
ghost use Rattle.cf_journal_book.specs.Recovery.{recovered};
ghost use Rattle.cf_books.specs.Answers as spec;
ghost use Rattle.cf_books.specs.Answers.{Answers};

use crate::answers::Answer;
use crate::lists::done;
use crate::office::{open_book, refused_answer};
use cf_books_documents::documents_text;
use cf_books_lists::Layout;
use cf_books_words::DocumentFilter;
use std::alloc::AllocError;

/// The documents that are wanted, or why the journal has none. With a text in `key`, those in whose
/// keys it stands.
pub fn documents_answer(
    layout: Layout,
    filter: DocumentFilter,
    key: Option<&str>,
    bytes: &[u8],
) -> Result<Answer, AllocError>
    ensures { Answers result
        (spec.documents_said filter (option_map (λ k. k.now) key.entry) layout.csv bytes.now
        (recovered bytes.now)) }
{
    let copy = Vec::from_slice(layout.alloc, bytes)?;
    match open_book(layout.alloc, copy) {
        Ok(book) => {
            let (_, archive) = book.into_parts();
            Ok(done(documents_text(layout, filter, key, archive.rest())?))
        }
        Err(why) => refused_answer(layout.alloc, bytes, why),
    }
}
