//! Following a stream.

ghost use Rattle.std.specs.Prelude.{◌≡◌, ◌≢◌, ◌≤◌, ◌+◌, ◌<◌, ◌^◌, ℕ, List, Option, Some, MatchOption, IfErr, IfOk, OnOk, length, []};
ghost use Rattle.cf_base.specs.Common.{Rose, most_entries};
ghost use Rattle.cf_calls.specs.declared.entry.Entry.{Entry as EntryOf};
ghost use Rattle.cf_journal_stream.specs.Readings.{ReadsHead};
ghost use Rattle.cf_journal_stream.specs.Streams.{most_chart};
ghost use Rattle.cf_follow.specs.Admitting.{office};
ghost use Rattle.cf_follow.specs.Following.{DifferAt, FollowEnds, HeadEnds, failed_in};
ghost use Rattle.cf_follow.specs.Laws.{IsBehind, IsCopy, IsShipped};
ghost use Rattle.cf_follow.specs.Steps.{IsReadCause, end_as};

use crate::end::FollowEnd;
use crate::entry::{Place, follow_entry};
use crate::follower::Follower;
use cf_base::Source;
use cf_journal_stream::{Reader, Unread, read_frame, read_head};
use std::alloc::Global;

/// The first place where two texts differ, or the shorter one's end; `None` where they are the
/// same.
fn first_difference(a: &[u8], b: &[u8]) -> Option<usize>
    ensures { MatchOption result (a.now ≡ b.now) (DifferAt a.now b.now) }
{
    let end = a.len().min(b.len());
    for at in 0..end {
        if a[at] != b[at] {
            return Some(at);
        }
    }
    if a.len() == b.len() { None } else { Some(end) }
}

/// Why following ends where a part that begins here wasn't read.
fn end_of(unread: Unread, at: u64) -> FollowEnd
    requires { at < 2 ^ 60 }
    ensures { result ≡ end_as at unread }
{
    match unread {
        Unread::Source => FollowEnd::ReadFault,
        Unread::NoMemory => FollowEnd::NoMemory,
        Unread::Fault(k) => FollowEnd::StreamFault {
            offset: at + u64::from(k),
        },
    }
}

/// FROM of a stream that an office of this chart and this many entries can follow.
fn follow_head<I: Source>(
    reader: &mut Reader,
    input: &mut I,
    chart: &[u8],
    len: u64,
) -> Result<u64, FollowEnd>
    ensures ok { IfOk result
        (λ from. ReadsHead (I.left input.old) (I.left input.new) from chart.now) }
    ensures within { IfOk result (λ from. from ≤ len) }
    ensures err { IfErr result (HeadEnds chart.now len (I.left input.old) (I.left input.new)) }
    ensures cause { IfErr result (IsReadCause (I.faults input.old) (I.faults input.new)) }
    ensures quiet { OnOk result (I.faults input.new ≡ I.faults input.old) }
{
    let from = match read_head(reader, input) {
        Ok(from) => from,
        Err(unread) => return Err(end_of(unread, 0)),
    };
    match first_difference(chart, reader.piece()) {
        Some(at) => Err(FollowEnd::OtherChart { at: at as u64 }),
        None if from > len => Err(FollowEnd::Gap { from, length: len }),
        None => Ok(from),
    }
}

/// Follows the records of a stream whose front was read.
fn follow_records<I: Source, F: Follower>(
    alloc: Global,
    reader: &mut Reader,
    input: &mut I,
    chart: &[u8],
    from: u64,
    follower: &mut F,
) -> FollowEnd
    requires within { from ≤ length (F.history follower.old) }
    requires few { from ≤ most_entries }
    requires short { length chart.now ≤ most_chart }
    ensures ends { (left : Option (List ℕ)) → ReadsHead left (I.left input.old) from chart.now
        → FollowEnds (office F.history F.refusal F.faults F.since) chart.now follower.old
        follower.new left (I.left input.new) result }
    ensures still { F.history follower.new ≡ F.history follower.old → result ≢ FollowEnd.DiskFault
        → follower.new ≡ follower.old }
    ensures cause { IsReadCause (I.faults input.old) (I.faults input.new) result }
{
    let mut own = Vec::new(alloc);
    let mut place = Place {
        entries: from,
        at: 12 + chart.len() as u64,
    };
    'records: loop {
        match read_frame(reader, input) {
            Ok(true) => {}
            Ok(false) => return FollowEnd::Done,
            Err(unread) => return end_of(unread, place.at),
        }
        match follow_entry(alloc, follower, reader.piece(), &mut own, place) {
            Ok(()) => {}
            Err(end) => return end,
        }
        place.entries += 1;
        place.at += 5 + reader.piece().len() as u64;
    }
}

/// Reads a stream into an office of this chart.
fn read_stream<I: Source, F: Follower>(
    alloc: Global,
    input: &mut I,
    chart: &[u8],
    follower: &mut F,
) -> FollowEnd
    ensures ends { FollowEnds
        (office F.history F.refusal F.faults F.since) chart.now follower.old follower.new
        (I.left input.old) (I.left input.new) result }
    ensures still { F.history follower.new ≡ F.history follower.old → result ≢ FollowEnd.DiskFault
        → follower.new ≡ follower.old }
    ensures cause { IsReadCause (I.faults input.old) (I.faults input.new) result }
{
    let Ok(mut reader) = Reader::new(alloc) else {
        return FollowEnd::NoMemory;
    };
    let len = follower.entries().len() as u64;
    match follow_head(&mut reader, input, chart, len) {
        Ok(from) => follow_records(alloc, &mut reader, input, chart, from, follower),
        Err(end) => end,
    }
}

/// Reads a stream into an office of this chart: the entries that it has already are compared, and
/// the others are appended, as far as it would add the same. It holds one record of the stream at a
/// time, and leaves unread what stands behind the closing byte.
pub fn follow<I: Source, F: Follower>(
    alloc: Global,
    input: &mut I,
    chart: &[u8],
    follower: &mut F,
) -> FollowEnd
    ensures ends { FollowEnds
        (office F.history F.refusal F.faults F.since) chart.now follower.old follower.new
        (I.left input.old) (I.left input.new) result }

    // A stream that was shipped from a history which continues this one is followed without a
    // difference.
    ensures copies { (whole : List EntryOf)
        → IsBehind (office F.history F.refusal F.faults F.since) follower.old whole
        → IsShipped chart.now whole (I.left input.old)
        → IsCopy (office F.history F.refusal F.faults F.since) whole follower.new result }

    // Where it came whole, no field of it is at fault.
    ensures whole { (whole : List EntryOf)
        → IsBehind (office F.history F.refusal F.faults F.since) follower.old whole
        → (s : IsShipped chart.now whole (I.left input.old))
        → s.lost ≡ [] → length chart.now ≤ most_chart → (offset : ℕ)
        → result ≢ FollowEnd.StreamFault offset }

    // Where the history stays, nothing is touched.
    ensures still { F.history follower.new ≡ F.history follower.old → result ≢ FollowEnd.DiskFault
        → follower.new ≡ follower.old }

    // Where the disk failed, it was at the entry of the last record that was taken.
    ensures since { (ends : FollowEnds (office F.history F.refusal F.faults F.since) chart.now
        follower.old follower.new (I.left input.old) (I.left input.new) result)
        → F.since follower.old follower.new (failed_in ends) }
    ensures cause { IsReadCause (I.faults input.old) (I.faults input.new) result }
    ensures disk { result ≡ FollowEnd.DiskFault
        → Rose (F.faults follower.old) (F.faults follower.new) }
    ensures quiet { result ≢ FollowEnd.DiskFault → F.faults follower.new ≡ F.faults follower.old }
{
    read_stream(alloc, input, chart, follower)
}
