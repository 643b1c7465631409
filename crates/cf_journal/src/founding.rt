//! Founding a journal.

ghost use Rattle.std.specs.Prelude.{◌≡◌, ◌⊎◌, ◌<◌, ◌≤◌, ◌^◌, [], ◌∷◌, ◌++◌, true, false, List, ℕ, IsTrue, IsOk, IfOk, OnOk, IsErrOf, length, take};
ghost use Rattle.cf_base.specs.Common.{HasCause};
ghost use Rattle.cf_chart.specs.Common.{chart_of};
ghost use Rattle.cf_disk.specs.Images.{AddsNone, IsOnlyImage};
ghost use Rattle.cf_disk.specs.Moments.{AtEachMoment};
ghost use Rattle.cf_journal.specs.Answers.{HasDiskCause, Founds, IsUnfoundedOr, IsCutFrom, FromFirstSync};
ghost use Rattle.cf_journal.specs.Frames.{is_founded};
ghost use Rattle.cf_journal.specs.Layout.{head_of, IsAtRest};
ghost use Rattle.cf_journal.specs.declared.refused.FoundRefused.TheVariants as found_refused;

use crate::refused::FoundRefused;
use crate::steps::write_synced;
use cf_base::Failed;
use cf_disk::Disk;
use std::alloc::{AllocError, Global};

/// Founds a journal of version 2 with a chart that `Chart::read` accepts, and with no entry. It
/// takes its memory first. Then it asks the length and, where this is above 1, the first byte;
/// where that is 1 nothing is written. Else it cuts the file to 1 byte, writes the founding gate as
/// closed, writes the version, the chart and the closed gate of the first record, and opens the
/// founding gate, each with a sync of its own. So a crash at any moment leaves a file that isn't
/// founded, or the founded journal.
pub fn found<D: Disk>(alloc: Global, disk: &mut D, chart: &[u8]) -> Result<(), FoundRefused>
    requires { IsOk (chart_of chart.now) }

    ensures answer { IsTrue D.tells → Founds result (D.content disk.old) }
    ensures founded { IsTrue D.tells
        → OnOk result ((image : List ℕ) → D.is_image disk.new image
        → IsAtRest 2 chart.now [] image) }

    // A founded journal and want of memory leave the disk as it is.
    ensures keeps { IsTrue D.tells
        → is_founded (length (D.content disk.old)) (D.content disk.old) ≡ true
        → (D.content disk.new ≡ D.content disk.old)
        × AddsNone (D.is_image disk.old) (D.is_image disk.new) }
    ensures memory { IsErrOf result found_refused.NoMemory → disk.new ≡ disk.old }

    // Over a founded journal a crash leaves at any moment of the call what it could have left when
    // that began.
    ensures unwritten { IsTrue D.tells
        → is_founded (length (D.content disk.old)) (D.content disk.old) ≡ true
        → AtEachMoment D.moment D.was_image disk.old disk.new (D.is_image disk.old) }

    // What a crash leaves at any moment of the call, where nothing is pending when it begins; and
    // else from its first sync that succeeded on.
    ensures any_moment { IsTrue D.tells
        → is_founded (length (D.content disk.old)) (D.content disk.old) ≡ false
        → IsOnlyImage (D.content disk.old) (D.is_image disk.old)
        → AtEachMoment D.moment D.was_image disk.old disk.new (IsUnfoundedOr chart.now) }
    ensures first_sync { IsTrue D.tells
        → is_founded (length (D.content disk.old)) (D.content disk.old) ≡ false
        → AtEachMoment D.moment D.was_image disk.old disk.new (IsCutFrom (D.is_image disk.old))
        ⊎ FromFirstSync D.content D.is_image D.moment D.was_image disk.old disk.new chart.now }

    ensures cause { HasDiskCause found_refused.Disk (D.faults disk.old) (D.faults disk.new) result }
{
    let body = body_of(alloc, chart)?;
    let len = refuse_founded(disk)?;
    cut_synced(disk, len)?;
    lay(disk, &body)?;
    Ok(())
}

/// What stands behind the founding gate: the version, the chart's length, the chart and a closed
/// gate.
fn body_of(alloc: Global, chart: &[u8]) -> Result<Vec<u8>, AllocError>
    requires { length chart.now < 2 ^ 32 }
    ensures { IfOk result (λ body. body.items ≡ head_of 2 chart.now ++ 0 ∷ []) }
{
    let mut body = Vec::new(alloc);
    body.push(2)?;
    body.extend_from_slice(&(chart.len() as u32).to_be_bytes())?;
    body.extend_from_slice(chart)?;
    body.push(0)?;
    Ok(body)
}

/// The length of a file that isn't founded.
fn refuse_founded<D: Disk>(disk: &mut D) -> Result<u64, FoundRefused>
    ensures answer { IsTrue D.tells → Founds result (D.content disk.old) }
    ensures len { IsTrue D.tells → IfOk result (λ n. n ≡ length (D.content disk.old)) }
    ensures content { IsTrue D.tells → D.content disk.new ≡ D.content disk.old }
    ensures images { AddsNone (D.is_image disk.old) (D.is_image disk.new) }
    ensures any_moment { AtEachMoment D.moment D.was_image disk.old disk.new (D.is_image disk.old) }
    ensures memory { IsErrOf result found_refused.NoMemory → ⊥ }
    ensures cause { HasDiskCause found_refused.Disk (D.faults disk.old) (D.faults disk.new) result }
{
    let len = disk.len()?;
    if len > 1 {
        let mut head = [0u8; 1];
        disk.read(0, &mut head)?;
        if head[0] == 1 {
            return Err(FoundRefused::AlreadyFounded { len, byte: 1 });
        }
    }
    Ok(len)
}

/// Cuts a file of this length to 1 byte where it is longer, and syncs.
fn cut_synced<D: Disk>(disk: &mut D, len: u64) -> Result<(), Failed>
    requires { IsTrue D.tells → len ≡ length (D.content disk.old) }
    ensures content { IsTrue D.tells
        → OnOk result (D.content disk.new ≡ take 1 (D.content disk.old)) }
    ensures durable { IsTrue D.tells
        → OnOk result (IsOnlyImage (D.content disk.new) (D.is_image disk.new)) }
    ensures any_moment { AtEachMoment D.moment D.was_image disk.old disk.new (IsCutFrom (D.is_image disk.old)) }
    ensures cause { HasCause (D.faults disk.old) (D.faults disk.new) result }
    ensures quiet { OnOk result (D.faults disk.new ≡ D.faults disk.old) }
{
    if len > 1 {
        disk.cut(1)?;
    }
    disk.sync()
}

/// Closes the founding gate, writes what stands behind it, and opens it, each with a sync.
fn lay<D: Disk>(disk: &mut D, body: &[u8]) -> Result<(), Failed>
    ensures founded { IsTrue D.tells → (chart : List ℕ) → IsOk (chart_of chart)
        → body.now ≡ head_of 2 chart ++ 0 ∷ []
        → length (D.content disk.old) ≤ 1 → IsOnlyImage (D.content disk.old) (D.is_image disk.old)
        → OnOk result ((image : List ℕ) → D.is_image disk.new image → IsAtRest 2 chart [] image) }
    ensures any_moment { IsTrue D.tells → (chart : List ℕ) → IsOk (chart_of chart)
        → body.now ≡ head_of 2 chart ++ 0 ∷ []
        → length (D.content disk.old) ≤ 1 → IsOnlyImage (D.content disk.old) (D.is_image disk.old)
        → AtEachMoment D.moment D.was_image disk.old disk.new (IsUnfoundedOr chart) }
    ensures cause { HasCause (D.faults disk.old) (D.faults disk.new) result }
    ensures quiet { OnOk result (D.faults disk.new ≡ D.faults disk.old) }
{
    write_synced(disk, 0, &[0])?;
    write_synced(disk, 1, body)?;
    write_synced(disk, 0, &[1])
}
