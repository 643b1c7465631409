//! The entry of a journal that the office refuses.

ghost use Rattle.std.specs.Prelude.{◌≡◌, IfSome, option_map};
ghost use Rattle.std.specs.List.{All};
ghost use Rattle.cf_journal.specs.Frames.{frames};
ghost use Rattle.cf_journal.specs.Records.{HasRecord};
ghost use Rattle.cf_books.specs.Answers as spec;
ghost use Rattle.cf_books.specs.Answers.{Answers};

use crate::answers::{Answer, damaged, nothing};
use crate::calls::put_call;
use crate::status::{RefusedEntry, Status};
use cf_books_front::read_frames;
use cf_calls::Entry;
use cf_journal::{OpenRefused, record_len};
use std::alloc::{AllocError, Global};

/// The first of the entries whose gate stands at this place in the file, or further, with its own
/// place, from 1. The chart in front of them has so many bytes.
fn entry_at(offset: u64, chart_len: u64, entries: &[Entry]) -> Option<(u64, &Entry)>
    requires { All HasRecord entries.now }
    ensures value { option_map (λ x. (x.0, x.1.now)) result
        ≡ spec.entry_at offset chart_len entries.now }
    ensures record { IfSome result (λ x. HasRecord x.1.now) }
{
    let mut left = offset.saturating_sub(6).saturating_sub(chart_len);
    let mut place = 1;
    for entry in entries {
        if left == 0 {
            return Some((place, entry));
        }
        left = left.saturating_sub(record_len(entry));
        place += 1;
    }
    None
}

/// What is said of the entry that the office refuses, and its call.
fn entry_answer(
    alloc: Global,
    offset: u64,
    number: u8,
    found: Option<(u64, &Entry)>,
) -> Result<Answer, AllocError>
    requires { IfSome found (λ x. HasRecord x.1.now) }
    ensures { Answers result (spec.refused_entry offset number
        (option_map (λ x. (x.0, x.1.now)) found.entry)) }
{
    let Some((place, entry)) = found else {
        return Ok(damaged(alloc, offset));
    };
    let mut out = Vec::new(alloc);
    put_call(&mut out, entry)?;
    let status = Status::Damaged {
        offset,
        entry: Some(RefusedEntry { place, number }),
    };
    Ok(Answer { out, status })
}

/// What is said of the entry whose gate stands at this place in the file, which the office refuses.
pub fn refused_at(
    alloc: Global,
    bytes: &[u8],
    offset: u64,
    number: u8,
) -> Result<Answer, AllocError>
    ensures { Answers result (spec.refused_in offset number (frames bytes.now)) }
{
    let copy = Vec::from_slice(alloc, bytes)?;
    match read_frames(alloc, copy) {
        Ok((chart, entries)) => {
            let found = entry_at(offset, chart.len() as u64, entries.as_slice());
            entry_answer(alloc, offset, number, found)
        }
        Err(OpenRefused::NotFounded { len, byte: _ }) => {
            Ok(nothing(alloc, Status::NotFounded { len }))
        }
        Err(OpenRefused::Damaged { offset: at }) => Ok(damaged(alloc, at)),
        Err(OpenRefused::Disk | OpenRefused::NoMemory) => Err(AllocError),
    }
}
