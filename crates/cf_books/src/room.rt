//! How many bytes of a journal's file are in use, and how many are room.

ghost use Rattle.std.specs.Prelude.{◌≡◌, ◌≤◌, ◌<◌, ◌^◌, ◌++◌, length, OnOk};
ghost use Rattle.std.specs.List.{All};
ghost use Rattle.cf_calls.specs.Common.{IsEntryInForm};
ghost use Rattle.cf_books.specs.Room as spec;

use crate::summary::put_counts;
use cf_calls::Entry;
use cf_journal::record_len;
use std::alloc::AllocError;

/// The chart's length, as it stands in the head of a journal.
fn chart_len(bytes: &[u8]) -> u64
    ensures value { result ≡ spec.chart_len bytes.now }
    ensures small { result < 2 ^ 32 }
{
    if bytes.len() < 6 {
        return 0;
    }
    u64::from(u32::from_be_bytes([bytes[2], bytes[3], bytes[4], bytes[5]]))
}

/// How many bytes of a journal stand behind its entries and the closed gate that follows them.
fn room_of(bytes: &[u8], entries: &[Entry]) -> u64
    requires { All IsEntryInForm entries.now }
    ensures value { result ≡ spec.room bytes.now entries.now }
    ensures within { result ≤ length bytes.now }
{
    let mut room = (bytes.len() as u64).saturating_sub(7 + chart_len(bytes));
    for entry in entries {
        room = room.saturating_sub(record_len(entry));
    }
    room
}

/// Appends how many bytes of a journal's file are in use, and how many are room.
pub(crate) fn put_room(out: &mut Vec<u8>, bytes: &[u8], entries: &[Entry]) -> Result<(), AllocError>
    requires { All IsEntryInForm entries.now }
    ensures { OnOk result (out.new.items ≡ out.old.items ++ spec.room_text bytes.now entries.now) }
{
    let room = room_of(bytes, entries);
    let in_use = bytes.len() as u64 - room;
    put_counts(out, &[("bytes in use", in_use), ("bytes of room", room)])
}
