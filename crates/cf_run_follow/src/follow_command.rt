//! The run of `follow`.

ghost use Rattle.std.specs.Prelude.{◌≡◌, ◌≢◌, None, IfOk, length};
ghost use Rattle.cf_base.specs.Common.{Rose};
ghost use Rattle.cf_journal_book.specs.DurableState.{DurableBook};
ghost use Rattle.cf_follow.specs.Steps.{IsReadCause};
ghost use Rattle.cf_follow.specs.declared.end.FollowEnd.TheVariants as end;
ghost use Rattle.cf_run_status.specs.Devices.{device};
ghost use Rattle.cf_run_follow.specs.Follows.{Copied, FollowRunEnds, followed_text, status_of_end};
ghost use Rattle.cf_run_status.specs.Printing.{Prints};

use crate::copying::Copying;
use cf_base::{Sink, Source};
use cf_disk::Disk;
use cf_follow::{FollowEnd, follow};
use cf_journal_book::{Book, NotOpened, open_with_bytes};
use cf_run_status::{Ran, Status, print, refusal_status};
use itoa::Buffer;
use std::alloc::{AllocError, Global};

fn status_of(how: FollowEnd) -> Status
    ensures { result ≡ status_of_end how }
{
    match how {
        FollowEnd::Done => Status::Ok,
        FollowEnd::ReadFault => Status::ReadFault,
        FollowEnd::NoMemory => Status::NoMemory,
        FollowEnd::StreamFault { offset } => Status::StreamFault { offset },
        FollowEnd::OtherChart { at } => Status::OtherChart { at },
        FollowEnd::Gap { from, length } => Status::Gap { from, length },
        FollowEnd::Forked { place } => Status::Forked { place },
        FollowEnd::EntryRefused { place, refusal } => Status::EntryRefused { place, refusal },
        FollowEnd::DiskFault => Status::DiskFault,
    }
}

/// What is printed of a history that has so many entries.
fn followed_bytes(alloc: Global, count: u64) -> Result<Vec<u8>, AllocError>
    ensures { IfOk result (λ text. text.items ≡ followed_text count) }
{
    let mut buffer = Buffer::new();
    let mut text = Vec::from_slice(alloc, b"followed ")?;
    text.extend_from_slice(buffer.format(count).as_bytes())?;
    text.push(b'\n')?;
    Ok(text)
}

/// Has a book of this chart, with nothing in doubt, follow the stream, and gives its disk back,
/// with how many entries there are then.
fn keep_copy<I: Source, D: Disk + Drop>(
    alloc: Global,
    book: Book<D>,
    chart: &[u8],
    input: &mut I,
) -> (FollowEnd, u64, D)
    requires clear { book.doubt ≡ None }
    ensures copied { (last : DurableBook D)
        × Copied (device D.tells D.content D.is_image D.moment D.was_image D.faults) chart.now book
        last result.2 (I.left input.old) (I.left input.new) result.0
        × (result.1 ≡ length last.entries) }
    ensures cause { IsReadCause (I.faults input.old) (I.faults input.new) result.0 }
    ensures disk { result.0 ≡ end.DiskFault → Rose (D.faults book.disk) (D.faults result.2) }
    ensures quiet { result.0 ≢ end.DiskFault → D.faults result.2 ≡ D.faults book.disk }
{
    let mut copy = Copying::new(book);
    let how = follow(alloc, input, chart, &mut copy);
    let book = copy.into_book();
    let count = book.len();
    (how, count, book.close())
}

/// Prints how many entries there are where the stream was followed to its end.
fn print_end<O: Sink>(alloc: Global, how: FollowEnd, count: u64, out: &mut O) -> Status
    ensures done { how ≡ end.Done
        → Prints (followed_text count) (O.held out.old) (O.held out.new) result }
    ensures stopped { how ≢ end.Done
        → (result ≡ status_of_end how) × (O.held out.new ≡ O.held out.old) }
    ensures write { result ≡ Status.WriteFault → Rose (O.faults out.old) (O.faults out.new) }
    ensures out_quiet { result ≢ Status.WriteFault → O.faults out.new ≡ O.faults out.old }
{
    match how {
        FollowEnd::Done => print(followed_bytes(alloc, count), out),
        _ => status_of(how),
    }
}

/// The run of `follow`: opens the journal, and reads a stream from the input into it. An entry that
/// it has already is compared, and each later one is appended where the rules accept it with the
/// same numbers. At the end of the stream `followed` and how many entries there are then are
/// printed on one line. Where the stream ends otherwise nothing is printed, and the entries of its
/// whole records stay.
pub fn run_follow<I: Source, O: Sink, D: Disk + Drop>(
    alloc: Global,
    input: &mut I,
    out: &mut O,
    disk: D,
) -> Ran<D>
    ensures ends { FollowRunEnds
        (device D.tells D.content D.is_image D.moment D.was_image D.faults) disk result.disk
        (I.left input.old) (I.left input.new) (O.held out.old) (O.held out.new) result.status }
    ensures read { result.status ≡ Status.ReadFault
        → Rose (I.faults input.old) (I.faults input.new) }
    ensures write { result.status ≡ Status.WriteFault → Rose (O.faults out.old) (O.faults out.new) }
    ensures disk { result.status ≡ Status.DiskFault → Rose (D.faults disk) (D.faults result.disk) }
    ensures memory { result.status ≡ Status.NoMemory
        → (I.faults input.new ≡ I.faults input.old) × (O.faults out.new ≡ O.faults out.old)
        × (D.faults result.disk ≡ D.faults disk) }
    ensures input_quiet { result.status ≢ Status.ReadFault → I.faults input.new ≡ I.faults input.old }
    ensures out_quiet { result.status ≢ Status.WriteFault → O.faults out.new ≡ O.faults out.old }
{
    match open_with_bytes(alloc, disk) {
        Ok((book, chart)) => {
            let (how, count, disk) = keep_copy(alloc, book, chart.as_slice(), input);
            Ran {
                status: print_end(alloc, how, count, out),
                disk,
            }
        }
        Err(NotOpened { disk, why }) => Ran {
            status: refusal_status(why),
            disk,
        },
    }
}
