//! What is whole of a journal.

ghost use Rattle.std.specs.Prelude.{◌≡◌, Some, IfOk};
ghost use Rattle.std.specs.List.{All};
ghost use Rattle.cf_journal.specs.Frames.{frames};
ghost use Rattle.cf_journal.specs.Records.{HasRecord};
ghost use Rattle.cf_journal.specs.declared.refused.OpenRefused.TheVariants as refused;
ghost use Rattle.cf_books_front.specs.Whole as spec;
ghost use Rattle.cf_books_front.specs.Whole.{Lies, LiesWhole, ReadsFrames, ReadsWhole};

use cf_calls::Entry;
use cf_disk::MemDisk;
use cf_journal::{OpenRefused, Opened, open};
use std::alloc::{AllocError, Global};

/// A journal's chart and entries as far as they are whole.
#[derive(Drop)]
pub struct Whole {
    pub chart: Vec<u8>,
    pub entries: Vec<Entry>,
    /// The place of the damage behind the entries, where there is one.
    pub damage: Option<u64>,
}

/// Why a journal in memory isn't read. A disk in memory fails for want of memory alone.
fn refusal_in_memory(why: OpenRefused) -> OpenRefused
    ensures { result ≡ spec.refusal_in_memory why }
{
    match why {
        OpenRefused::NotFounded { len, byte } => OpenRefused::NotFounded { len, byte },
        OpenRefused::Damaged { offset } => OpenRefused::Damaged { offset },
        OpenRefused::Disk | OpenRefused::NoMemory => OpenRefused::NoMemory,
    }
}

/// The chart and the entries that a journal's bytes are.
pub fn read_frames(alloc: Global, bytes: Vec<u8>) -> Result<(Vec<u8>, Vec<Entry>), OpenRefused>
    ensures answer { ReadsFrames result (frames bytes.items) }
    ensures records { IfOk result (λ x. All HasRecord x.1.items) }
    ensures lies { IfOk result (λ x. Lies x.0.items x.1.items bytes.items) }
{
    let mut disk = MemDisk::new(alloc, bytes)?;
    match open(alloc, &mut disk) {
        Ok(Opened { bytes, entries, .. }) => Ok((bytes, entries)),
        Err(why) => Err(refusal_in_memory(why)),
    }
}

/// The bytes before a place, with a closed gate there.
pub(crate) fn before(alloc: Global, at: u128, bytes: &[u8]) -> Result<Vec<u8>, AllocError>
    ensures { IfOk result (λ v. v.items ≡ spec.before at bytes.now) }
{
    let len = at.min(bytes.len() as u128) as usize;
    let mut front = Vec::from_slice(alloc, &bytes[..len])?;
    front.push(0)?;
    Ok(front)
}

/// What stands before the damage at a place.
fn read_before(alloc: Global, at: u64, bytes: &[u8]) -> Result<Whole, OpenRefused>
    ensures answer { ReadsWhole result
        (spec.parts_or (Some at) (refused.Damaged at) (frames (spec.before at bytes.now))) }
    ensures records { IfOk result (λ w. All HasRecord w.entries.items) }
    ensures lies { IfOk result (λ w. LiesWhole w bytes.now) }
{
    let front = before(alloc, u128::from(at), bytes)?;
    match read_frames(alloc, front) {
        Ok((chart, entries)) => Ok(Whole {
            chart,
            entries,
            damage: Some(at),
        }),
        Err(OpenRefused::Disk | OpenRefused::NoMemory) => Err(OpenRefused::NoMemory),
        Err(OpenRefused::NotFounded { len: _, byte: _ } | OpenRefused::Damaged { offset: _ }) => {
            Err(OpenRefused::Damaged { offset: at })
        }
    }
}

/// What is whole of a journal's bytes: all of it, or what stands before the damage. It is refused
/// where there is no journal, or no chart before the damage.
pub fn read_whole(alloc: Global, bytes: &[u8]) -> Result<Whole, OpenRefused>
    ensures answer { ReadsWhole result (spec.whole_of bytes.now) }
    ensures records { IfOk result (λ w. All HasRecord w.entries.items) }
    ensures lies { IfOk result (λ w. LiesWhole w bytes.now) }
{
    let copy = Vec::from_slice(alloc, bytes)?;
    match read_frames(alloc, copy) {
        Ok((chart, entries)) => Ok(Whole {
            chart,
            entries,
            damage: None,
        }),
        Err(OpenRefused::Damaged { offset }) => read_before(alloc, offset, bytes),
        Err(why) => Err(why),
    }
}
