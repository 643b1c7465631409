//! How a run ended, with the disk that it was given.

ghost use Rattle.std.specs.Prelude.{◌≡◌};
ghost use Rattle.cf_disk.specs.Moments.{AtEachMoment};

use crate::status::Status;
use cf_disk::Disk;

/// How a run ended, and the disk that it was given.
#[derive(Drop)]
pub struct Ran<D: Drop> {
    pub status: Status,
    pub disk: D,
}

/// The run of words that there was no memory to read.
pub fn unread<D: Disk + Drop>(disk: D) -> Ran<D>
    ensures status { result.status ≡ Status.NoMemory }
    ensures disk { result.disk ≡ disk }
    ensures at_rest { AtEachMoment D.moment D.was_image disk disk (D.is_image disk) }
{
    Ran {
        status: Status::NoMemory,
        disk,
    }
}
