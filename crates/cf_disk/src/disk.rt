//! A disk as the layers above see it: what a read gives, and what a crash may leave.

ghost use Rattle.std.specs.Prelude.{◌≡◌, ◌+◌, ◌≤◌, ℕ, List, Bool, IsTrue, IfOk, OnOk, length, take, drop};
ghost use Rattle.cf_base.specs.Common.{HasCause};
ghost use Rattle.cf_disk.specs.Images.{written, resized, Torn, HalfCut, Follows, AddsNone, IsOnlyImage};
ghost use Rattle.cf_disk.specs.Moments.{Advances};

use cf_base::Failed;

/// A disk. Between two syncs each written range, and the part past the old end, may hold any bytes
/// after a crash; other bytes stay. After a sync that succeeds a crash leaves exactly what a read
/// gives. A write or a cut that fails counts as made. The count of faults rises only in a call that
/// answers `Failed`.
pub trait Disk {
    /// Whether the disk tells its bytes. Disks in memory do. Of a real one nothing is said but its
    /// faults.
    ghost tells: { Bool };

    /// The bytes that a read gives.
    ghost content: { Self → List ℕ };

    /// What a crash at this moment may leave.
    ghost is_image: { Self → List ℕ → Type 0 };

    /// The moment, as a number that doesn't fall.
    ghost moment: { Self → ℕ };

    /// What a crash at some moment from that one on might have left.
    ghost was_image: { Self → ℕ → List ℕ → Type 0 };

    ghost faults: { Self → ℕ };

    /// How many bytes there are.
    fn len(&mut self) -> Result<u64, Failed>
        ensures value { IsTrue tells → IfOk result (λ n. n ≡ length (content self.old)) }
        ensures content { IsTrue tells → content self.new ≡ content self.old }
        ensures images { AddsNone (is_image self.old) (is_image self.new) }
        ensures time { Advances moment is_image was_image self.old self.new }
        ensures cause { HasCause (faults self.old) (faults self.new) result }
        ensures quiet { OnOk result (faults self.new ≡ faults self.old) };

    /// Fills `buf` with the bytes from an offset on.
    fn read(&mut self, at: u64, buf: &mut [u8]) -> Result<(), Failed>
        requires { IsTrue tells → at + length buf.old ≤ length (content self.old) }
        ensures bytes { IsTrue tells
            → OnOk result (buf.new ≡ take (length buf.old) (drop at (content self.old))) }
        ensures content { IsTrue tells → content self.new ≡ content self.old }
        ensures images { AddsNone (is_image self.old) (is_image self.new) }
        ensures time { Advances moment is_image was_image self.old self.new }
        ensures cause { HasCause (faults self.old) (faults self.new) result }
        ensures quiet { OnOk result (faults self.new ≡ faults self.old) };

    /// Writes over what is there, and past the end. A gap before the piece is filled with zeros.
    fn write_at(&mut self, at: u64, piece: &[u8]) -> Result<(), Failed>
        ensures content { IsTrue tells
            → OnOk result (content self.new ≡ written at piece.now (content self.old)) }
        ensures images { Follows (Torn at (length piece.now)) (is_image self.old)
            (is_image self.new) }
        ensures time { Advances moment is_image was_image self.old self.new }
        ensures cause { HasCause (faults self.old) (faults self.new) result }
        ensures quiet { OnOk result (faults self.new ≡ faults self.old) };

    /// Cuts, or fills with zeros, to a length.
    fn cut(&mut self, len: u64) -> Result<(), Failed>
        ensures content { IsTrue tells
            → OnOk result (content self.new ≡ resized len (content self.old)) }
        ensures images { Follows (HalfCut len) (is_image self.old) (is_image self.new) }
        ensures time { Advances moment is_image was_image self.old self.new }
        ensures cause { HasCause (faults self.old) (faults self.new) result }
        ensures quiet { OnOk result (faults self.new ≡ faults self.old) };

    /// After it a crash leaves what a read gives. One that fails adds no image.
    fn sync(&mut self) -> Result<(), Failed>
        ensures durable { IsTrue tells
            → OnOk result (IsOnlyImage (content self.new) (is_image self.new)) }
        ensures content { IsTrue tells → content self.new ≡ content self.old }
        ensures images { AddsNone (is_image self.old) (is_image self.new) }
        ensures time { Advances moment is_image was_image self.old self.new }
        ensures cause { HasCause (faults self.old) (faults self.new) result }
        ensures quiet { OnOk result (faults self.new ≡ faults self.old) };

    /// A disk as it reads is one of its images.
    ghost reads_an_image: { (disk : Self) → IsTrue tells → is_image disk (content disk) };

    /// This moment is one of those since an earlier one.
    ghost counts_now: { (disk : Self) (t : ℕ) (image : List ℕ) → t ≤ moment disk
        → is_image disk image → was_image disk t image };

    /// Since this moment there is no other.
    ghost only_now: { (disk : Self) (image : List ℕ) → was_image disk (moment disk) image
        → is_image disk image };
}
