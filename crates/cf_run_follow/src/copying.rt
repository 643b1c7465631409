//! A book as an office that keeps a copy of another one's history.

ghost use Rattle.std.specs.Prelude.{◌≡◌};
ghost use Rattle.cf_run_follow.specs.Copies.{IsReached, reached_on};
ghost use Rattle.cf_run_status.specs.Devices.{device};

use cf_calls::Entry;
use cf_disk::Disk;
use cf_follow::{Admission, Follower};
use cf_journal_book::Book;
use std::marker::Model;

/// A book that takes the entries of another one's history.
#[derive(Drop)]
pub(crate) struct Copying<D: Disk + Drop> {
    book: Book<D>,
}

impl<D: Disk + Drop> Model for Copying<D> {
    ghost use Rattle.cf_journal_book.specs.DurableState.{DurableBook};

    ghost Value = { DurableBook D };

    ghost view = { λ c. c.book };
}

impl<D: Disk + Drop> Copying<D> {
    /// Takes a book to follow with.
    pub fn new(book: Book<D>) -> Copying<D>
        ensures { result ≡ book }
    {
        Copying { book }
    }

    /// Gives the book back.
    pub fn into_book(self) -> Book<D>
        ensures { result ≡ self }
    {
        let Copying { book } = self;
        book
    }
}

impl<D: Disk + Drop> Follower for Copying<D> {
    ghost use Rattle.cf_journal_book.specs.Recovery.{entry_refusal};

    ghost history = { λ b. b.entries };

    ghost refusal = { λ b e. entry_refusal b.plan b.entries e };

    ghost faults = { λ b. D.faults b.disk };

    ghost since = { λ a b failed.
        IsReached (device D.tells D.content D.is_image D.moment D.was_image D.faults) a b failed };

    fn entries(&self) -> &[Entry] {
        self.book.entries()
    }

    fn admit(&mut self, entry: Entry) -> Admission {
        let said = self.book.admit(entry);
        // The book says of its history how long it may be.
        let _legal = self.book.entries();
        said
    }

    ghost since_same = { λ b. IsReached.here b };

    ghost since_more = { λ a b c failed.
        reached_on (device D.tells D.content D.is_image D.moment D.was_image D.faults) a b c failed };
}
