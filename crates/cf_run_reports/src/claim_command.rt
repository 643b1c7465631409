//! The run of `claim`.

ghost use Rattle.std.specs.Prelude.{◌≡◌, ◌≢◌};
ghost use Rattle.cf_base.specs.Common.{Rose};
ghost use Rattle.cf_claims.specs.Texts.{claim_text as text_of};
ghost use Rattle.cf_run_reports.specs.Claims.{ClaimEnds, ClaimRead, ClaimOver};
ghost use Rattle.cf_run_status.specs.Devices.{device};

use cf_base::{Day, Sink, Source};
use cf_base_lines::{Unread, read_all};
use cf_claims::claim_text;
use cf_disk::Disk;
use cf_grants::GrantRefused;
use cf_journal_book::{Book, NotOpened, open};
use cf_run_status::{Ran, Status, print, refusal_status};
use std::alloc::Global;

// The most bytes that are taken of a document: one more than a document may have.
const MOST: usize = 1_048_577;

/// Prints the lines of a claim over a book's history, of the document that these bytes are, or says
/// its first fault.
fn claim_with<O: Sink, D: Disk + Drop>(
    alloc: Global,
    book: &Book<D>,
    bytes: &[u8],
    grant: u16,
    on: Day,
    desk: u16,
    out: &mut O,
) -> Status
    ensures over { ClaimOver (text_of book.now.plan book.now.entries bytes.now grant on desk)
        (O.held out.old) (O.held out.new) result }
    ensures write { result ≡ Status.WriteFault → Rose (O.faults out.old) (O.faults out.new) }
    ensures memory { result ≡ Status.NoMemory → O.faults out.new ≡ O.faults out.old }
    ensures out_quiet { result ≢ Status.WriteFault → O.faults out.new ≡ O.faults out.old }
{
    match claim_text(alloc, book.chart(), book.entries(), bytes, grant, on, desk) {
        Ok(text) => print(Ok(text), out),
        Err(GrantRefused::Fault(fault)) => Status::GrantRefused { fault },
        Err(GrantRefused::NoMemory) => Status::NoMemory,
    }
}

/// Reads the document, and prints the lines of a claim over a book's history.
fn claim_read<I: Source, O: Sink, D: Disk + Drop>(
    alloc: Global,
    book: &Book<D>,
    grant: u16,
    on: Day,
    desk: u16,
    input: &mut I,
    out: &mut O,
) -> Status
    ensures reads { ClaimRead book.now.plan book.now.entries grant on desk (I.left input.old)
        (I.left input.new) (O.held out.old) (O.held out.new) result }
    ensures read { result ≡ Status.ReadFault → Rose (I.faults input.old) (I.faults input.new) }
    ensures write { result ≡ Status.WriteFault → Rose (O.faults out.old) (O.faults out.new) }
    ensures memory { result ≡ Status.NoMemory
        → (I.faults input.new ≡ I.faults input.old) × (O.faults out.new ≡ O.faults out.old) }
    ensures input_quiet { result ≢ Status.ReadFault → I.faults input.new ≡ I.faults input.old }
    ensures out_quiet { result ≢ Status.WriteFault → O.faults out.new ≡ O.faults out.old }
{
    match read_all(alloc, input, MOST) {
        Ok(bytes) => claim_with(alloc, book, bytes.as_slice(), grant, on, desk, out),
        Err(Unread::Fault) => Status::ReadFault,
        Err(Unread::NoMemory) => Status::NoMemory,
    }
}

/// The run of `claim`: opens the journal, reads a document of grants from the input, at most
/// 1,048,577 bytes of it, and writes the bill calls by which a desk claims a grant on a day. The
/// journal is only read. `GrantRefused` comes, and nothing is written, with the document's first
/// fault, or where it has no such grant. Where the journal isn't opened, or there is no memory,
/// nothing is written.
pub fn run_claim<I: Source, O: Sink, D: Disk + Drop>(
    alloc: Global,
    grant: u16,
    on: Day,
    desk: u16,
    input: &mut I,
    out: &mut O,
    disk: D,
) -> Ran<D>
    ensures ends { ClaimEnds
        (device D.tells D.content D.is_image D.moment D.was_image D.faults) grant on desk disk
        result.disk
        (I.left input.old) (I.left input.new) (O.held out.old) (O.held out.new) result.status }
    ensures read { result.status ≡ Status.ReadFault
        → Rose (I.faults input.old) (I.faults input.new) }
    ensures write { result.status ≡ Status.WriteFault → Rose (O.faults out.old) (O.faults out.new) }
    ensures disk { result.status ≡ Status.DiskFault → Rose (D.faults disk) (D.faults result.disk) }
    ensures memory { result.status ≡ Status.NoMemory
        → (I.faults input.new ≡ I.faults input.old) × (O.faults out.new ≡ O.faults out.old)
        × (D.faults result.disk ≡ D.faults disk) }
    ensures input_quiet { result.status ≢ Status.ReadFault → I.faults input.new ≡ I.faults input.old }
    ensures out_quiet { result.status ≢ Status.WriteFault → O.faults out.new ≡ O.faults out.old }
{
    match open(alloc, disk) {
        Ok(book) => {
            let status = claim_read(alloc, &book, grant, on, desk, input, out);
            Ran {
                status,
                disk: book.close(),
            }
        }
        Err(NotOpened { disk, why }) => Ran {
            status: refusal_status(why),
            disk,
        },
    }
}
