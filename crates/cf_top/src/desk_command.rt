//! The run of `desk`.

ghost use Rattle.std.specs.Prelude.{◌≡◌, ◌≢◌, [], None};
ghost use Rattle.std.specs.Io.KnownBytes.{Consumes};
ghost use Rattle.cf_base.specs.Common.{Rose};
ghost use Rattle.cf_base_lines.specs.declared.ended.Ended.TheVariants as ended;
ghost use Rattle.cf_top.specs.Runs.{DeskEnds, DeskKept, opened, status_of_ended};
ghost use Rattle.cf_run_status.specs.Devices.{device};

use crate::clerk::Clerk;
use cf_base::{Sink, Source};
use cf_base_lines::{Ended, run_lines};
use cf_disk::Disk;
use cf_journal_book::{Book, NotOpened, open};
use cf_run_status::{Ran, Status, refusal_status};
use std::alloc::Global;

fn status_of(how: Ended) -> Status
    ensures { result ≡ status_of_ended how }
{
    match how {
        Ended::Ok => Status::Ok,
        Ended::ReadFault => Status::ReadFault,
        Ended::WriteFault => Status::WriteFault,
        Ended::InputLimit => Status::InputLimit,
        Ended::NoMemory => Status::NoMemory,
    }
}

/// Keeps a desk over a book to the end of its input, and gives its disk back.
fn keep_desk<I: Source, O: Sink, D: Disk + Drop>(
    alloc: Global,
    book: Book<D>,
    input: &mut I,
    out: &mut O,
) -> (Ended, D)
    requires { book.doubt ≡ None }
    ensures kept { DeskKept (device D.tells D.content D.is_image D.moment D.was_image D.faults)
        (opened book.plan book.entries (D.faults book.disk)) book.disk result.1
        (I.left input.old) (I.left input.new) (O.held out.old) (O.held out.new) result.0 }
    ensures silent { result.0 ≡ ended.NoMemory
        → Consumes (I.left input.old) (I.left input.new) [] × (O.held out.new ≡ O.held out.old)
        × (result.1 ≡ book.disk) }
    ensures read { result.0 ≡ ended.ReadFault → Rose (I.faults input.old) (I.faults input.new) }
    ensures write { result.0 ≡ ended.WriteFault → Rose (O.faults out.old) (O.faults out.new) }
    ensures memory { result.0 ≡ ended.NoMemory
        → (I.faults input.new ≡ I.faults input.old) × (O.faults out.new ≡ O.faults out.old) }
    ensures input_quiet { result.0 ≢ ended.ReadFault → I.faults input.new ≡ I.faults input.old }
    ensures out_quiet { result.0 ≢ ended.WriteFault → O.faults out.new ≡ O.faults out.old }
{
    let mut clerk = Clerk { alloc, book };
    let how = run_lines(alloc, &mut clerk, input, out);
    let Clerk { book, .. } = clerk;
    (how, book.close())
}

/// The run of `desk`: opens the journal, then reads one call per line of the input and answers each
/// on one line. Where the journal isn't opened, or there is no memory, nothing is read of the input
/// or written.
pub fn run_desk<I: Source, O: Sink, D: Disk + Drop>(
    alloc: Global,
    input: &mut I,
    out: &mut O,
    disk: D,
) -> Ran<D>
    ensures ends { DeskEnds
        (device D.tells D.content D.is_image D.moment D.was_image D.faults) disk result.disk
        (I.left input.old) (I.left input.new) (O.held out.old) (O.held out.new) result.status }
    ensures read { result.status ≡ Status.ReadFault
        → Rose (I.faults input.old) (I.faults input.new) }
    ensures write { result.status ≡ Status.WriteFault → Rose (O.faults out.old) (O.faults out.new) }
    ensures disk { result.status ≡ Status.DiskFault → Rose (D.faults disk) (D.faults result.disk) }
    ensures memory { result.status ≡ Status.NoMemory
        → (I.faults input.new ≡ I.faults input.old) × (O.faults out.new ≡ O.faults out.old)
        × (D.faults result.disk ≡ D.faults disk) }
    ensures input_quiet { result.status ≢ Status.ReadFault → I.faults input.new ≡ I.faults input.old }
    ensures out_quiet { result.status ≢ Status.WriteFault → O.faults out.new ≡ O.faults out.old }
{
    match open(alloc, disk) {
        Ok(book) => {
            let (how, disk) = keep_desk(alloc, book, input, out);
            Ran {
                status: status_of(how),
                disk,
            }
        }
        Err(NotOpened { disk, why }) => Ran {
            status: refusal_status(why),
            disk,
        },
    }
}
