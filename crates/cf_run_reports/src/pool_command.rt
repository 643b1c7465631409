//! The run of `pool`.

ghost use Rattle.std.specs.Prelude.{◌≡◌, ◌≢◌, ◌<◌, ◌^◌, true};
ghost use Rattle.cf_base.specs.Common.{is_call_month, Rose};
ghost use Rattle.cf_pool.specs.Balances.{sizes};
ghost use Rattle.cf_run_status.specs.Devices.{device};
ghost use Rattle.cf_run_reports.specs.Pools.{PoolEnds, PoolMakes, PrintsShares};

use cf_base::{Month, Sink};
use cf_chart::Chart;
use cf_disk::Disk;
use cf_journal_book::NotOpened;
use cf_pool::{CashMove, PoolRefused, pool_lines};
use cf_pool_cash::open_with_moves;
use cf_run_status::{Ran, Status, print, refusal_status};
use std::alloc::Global;

/// The lines of a month's shares.
fn pool_bytes(
    alloc: Global,
    chart: &Chart,
    moves: &[CashMove],
    month: Month,
    amount: u64,
    desk: u16,
) -> Result<Vec<u8>, PoolRefused>
    requires month { is_call_month month ≡ true }
    requires few { sizes moves.now < 2 ^ 120 }
    ensures { PoolMakes chart.now moves.now month amount desk result }
{
    let mut lines = Vec::new(alloc);
    match pool_lines(alloc, chart, moves, month, amount, desk, &mut lines) {
        Ok(()) => Ok(lines),
        Err(why) => Err(why),
    }
}

/// Writes the lines of shares, where there are any.
fn print_shares<O: Sink>(lines: Result<Vec<u8>, PoolRefused>, out: &mut O) -> Status
    ensures prints { PrintsShares lines (O.held out.old) (O.held out.new) result }
    ensures write { result ≡ Status.WriteFault → Rose (O.faults out.old) (O.faults out.new) }
    ensures memory { result ≡ Status.NoMemory → O.faults out.new ≡ O.faults out.old }
    ensures out_quiet { result ≢ Status.WriteFault → O.faults out.new ≡ O.faults out.old }
{
    match lines {
        Ok(lines) => print(Ok(lines), out),
        Err(PoolRefused::NoShare { sum }) => Status::NoShare { sum },
        Err(PoolRefused::NoMemory) => Status::NoMemory,
    }
}

/// The run of `pool`: opens the journal, and writes the receive calls by which a desk shares a
/// month's interest among the funds by their average daily balances, one a line, as `desk` reads
/// them. The month is from 1970-01 to 2199-12, and `amount` is in cents. The journal is only read.
/// `NoShare` comes, and nothing is written, where no fund has a balance to share by. Where the
/// journal isn't opened, or there is no memory, nothing is written.
pub fn run_pool<O: Sink, D: Disk + Drop>(
    alloc: Global,
    month: Month,
    amount: u64,
    desk: u16,
    out: &mut O,
    disk: D,
) -> Ran<D>
    requires { is_call_month month ≡ true }
    ensures ends { PoolEnds
        (device D.tells D.content D.is_image D.moment D.was_image D.faults) month amount desk disk
        result.disk
        (O.held out.old) (O.held out.new) result.status }
    ensures write { result.status ≡ Status.WriteFault → Rose (O.faults out.old) (O.faults out.new) }
    ensures disk { result.status ≡ Status.DiskFault → Rose (D.faults disk) (D.faults result.disk) }
    ensures memory { result.status ≡ Status.NoMemory
        → (O.faults out.new ≡ O.faults out.old) × (D.faults result.disk ≡ D.faults disk) }
    ensures out_quiet { result.status ≢ Status.WriteFault → O.faults out.new ≡ O.faults out.old }
{
    match open_with_moves(alloc, disk) {
        Ok((book, moves)) => {
            let lines = pool_bytes(alloc, book.chart(), moves.as_slice(), month, amount, desk);
            let status = print_shares(lines, out);
            Ran {
                status,
                disk: book.close(),
            }
        }
        Err(NotOpened { disk, why }) => Ran {
            status: refusal_status(why),
            disk,
        },
    }
}
