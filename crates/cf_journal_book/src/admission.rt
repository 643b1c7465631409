//! What comes of an entry of another book's history.

ghost use Rattle.std.specs.Prelude.{◌≡◌};
ghost use Rattle.cf_journal_book.specs.Admitting.{kept_as};

use cf_calls::Posted;
use cf_follow::Admission;

/// What was given where an entry wasn't added.
pub(crate) fn kept(posted: &Posted) -> Admission
    ensures { result ≡ kept_as posted.now }
{
    match posted {
        Posted::Disk => Admission::Disk,
        Posted::NoMemory => Admission::NoMemory,
        Posted::Reply(_) => Admission::NoMemory,
    }
}
