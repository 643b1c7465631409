//! The posts of the entries that are dated through a day.

ghost use Rattle.std.specs.Prelude.{◌≡◌, IfOk};
ghost use Rattle.std.specs.Option.{option_copied};
ghost use Rattle.cf_journal_book.specs.Watching.{all_posted};
ghost use Rattle.cf_books_lists.specs.Posts.{placed_in};
ghost use Rattle.cf_books_days.specs.Posts as spec;

use crate::days::is_through;
use cf_base::Day;
use cf_books_lists::{Layout, PlacedPost, posts_text};
use cf_books_words::PostFilter;
use cf_calls::Entry;
use cf_disk::Disk;
use cf_journal_book::Book;
use std::alloc::{AllocError, Global};

/// Whether there is an entry, and it is dated through a day.
fn is_dated(day: Day, entry: Option<&Entry>) -> bool
    ensures { result ≡ spec.is_dated day (option_copied entry.entry) }
{
    match entry {
        Some(entry) => is_through(day, entry.change.on),
        None => false,
    }
}

/// Whether the entry of a post is one of these and is dated through a day.
fn is_kept(day: Day, entries: &[Entry], placed: &PlacedPost) -> bool
    ensures { result ≡ spec.is_kept day entries.now placed.now }
{
    is_dated(day, entries.get(placed.place.saturating_sub(1) as usize))
}

/// The posts of those of these entries that are dated through a day.
fn kept(
    alloc: Global,
    day: Day,
    entries: &[Entry],
    posts: &[PlacedPost],
) -> Result<Vec<PlacedPost>, AllocError>
    ensures { IfOk result (λ v. v.items ≡ spec.kept day entries.now posts.now) }
{
    let mut kept = Vec::new(alloc);
    for post in posts {
        if is_kept(day, entries, post) {
            kept.push(*post)?;
        }
    }
    Ok(kept)
}

/// Those of a book's posts that are asked for, as `posts_text` of `cf_books_lists` lays them out,
/// but of the entries alone that are dated through a day.
pub fn posts_through_text<D: Disk + Drop>(
    layout: Layout,
    filter: PostFilter,
    day: Day,
    book: &Book<D>,
    posts: &[PlacedPost],
) -> Result<Vec<u8>, AllocError>
    requires { posts.now ≡ placed_in (all_posted book.now.plan book.now.entries) }
    ensures { IfOk result (λ v. v.items ≡ spec.posts_text_through layout.csv filter day
        book.now.plan book.now.entries) }
{
    let kept = kept(layout.alloc, day, book.entries(), posts)?;
    posts_text(layout, filter, book, kept.as_slice())
}
