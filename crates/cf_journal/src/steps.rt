//! A change of the disk with its sync.

ghost use Rattle.std.specs.Prelude.{◌≡◌, IsTrue, List, ℕ, length, OnOk};
ghost use Rattle.cf_base.specs.Common.{HasCause};
ghost use Rattle.cf_disk.specs.Images.{written, Torn, IsOnlyImage};
ghost use Rattle.cf_disk.specs.Moments.{AtEachMoment};

use cf_base::Failed;
use cf_disk::Disk;

/// Writes a piece, and syncs. Up to the end every image is an old one, torn in the range of the
/// piece.
pub(crate) fn write_synced<D: Disk>(disk: &mut D, at: u64, piece: &[u8]) -> Result<(), Failed>
    ensures content { IsTrue D.tells
        → OnOk result (D.content disk.new ≡ written at piece.now (D.content disk.old)) }
    ensures durable { IsTrue D.tells
        → OnOk result (IsOnlyImage (D.content disk.new) (D.is_image disk.new)) }
    ensures any_moment { AtEachMoment D.moment D.was_image disk.old disk.new
        (λ image. (earlier : List ℕ) × D.is_image disk.old earlier
        × Torn at (length piece.now) earlier image) }
    ensures cause { HasCause (D.faults disk.old) (D.faults disk.new) result }
    ensures quiet { OnOk result (D.faults disk.new ≡ D.faults disk.old) }
{
    disk.write_at(at, piece)?;
    disk.sync()
}
