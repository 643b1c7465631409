//! The run of `ship`.

ghost use Rattle.std.specs.Prelude.{◌≡◌, ◌≢◌};
ghost use Rattle.cf_base.specs.Common.{Rose};
ghost use Rattle.cf_run_status.specs.Devices.{device};
ghost use Rattle.cf_run_follow.specs.Ships.{ShipEnds, status_of_shipped};

use cf_base::Sink;
use cf_disk::Disk;
use cf_journal_book::{NotOpened, open_with_bytes};
use cf_journal_stream::{ShipEnd, ship};
use cf_run_status::{Ran, Status, refusal_status};
use std::alloc::Global;

fn status_of(how: ShipEnd) -> Status
    ensures { result ≡ status_of_shipped how }
{
    match how {
        ShipEnd::Done => Status::Ok,
        ShipEnd::WriteFault => Status::WriteFault,
        ShipEnd::NoMemory => Status::NoMemory,
    }
}

/// The run of `ship`: opens the journal, and writes the stream of its history: the chart, and the
/// entries behind the first `from`. The journal is only read. Where it isn't opened nothing is
/// written.
pub fn run_ship<O: Sink, D: Disk + Drop>(alloc: Global, from: u32, out: &mut O, disk: D) -> Ran<D>
    ensures ends { ShipEnds
        (device D.tells D.content D.is_image D.moment D.was_image D.faults) from disk result.disk
        (O.held out.old) (O.held out.new) result.status }
    ensures write { result.status ≡ Status.WriteFault → Rose (O.faults out.old) (O.faults out.new) }
    ensures disk { result.status ≡ Status.DiskFault → Rose (D.faults disk) (D.faults result.disk) }
    ensures memory { result.status ≡ Status.NoMemory
        → (O.faults out.new ≡ O.faults out.old) × (D.faults result.disk ≡ D.faults disk) }
    ensures out_quiet { result.status ≢ Status.WriteFault → O.faults out.new ≡ O.faults out.old }
{
    match open_with_bytes(alloc, disk) {
        Ok((book, chart)) => {
            let how = ship(
                alloc,
                chart.as_slice(),
                book.entries(),
                u64::from(from),
                out,
            );
            Ran {
                status: status_of(how),
                disk: book.close(),
            }
        }
        Err(NotOpened { disk, why }) => Ran {
            status: refusal_status(why),
            disk,
        },
    }
}
