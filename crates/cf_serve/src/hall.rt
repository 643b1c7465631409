//! A hall is opened over a book, its doors are served, and it is closed.

ghost use Rattle.std.specs.Prelude.{◌≡◌, ◌<◌, ◌≤◌, ℕ, length, map};
ghost use Rattle.cf_hall.specs.OpeningNames.{name_at};
ghost use Rattle.cf_journal_book.specs.declared.refused.BookRefused.TheVariants as refused;
ghost use Rattle.cf_serve.specs.HallServes.{ServesDoors};

use crate::end::{HallServed, ServeEnd};
use crate::rooms::Rooms;
use crate::serving::serve_doors;
use cf_chart::Chart;
use cf_disk::Disk;
use cf_hall::{Hall, Opening};
use cf_hall_names::City;
use cf_http::Door;
use cf_journal_book::{Book, BookRefused};
use std::alloc::Global;
use std::mem;
use std::sync::Wait;
use std::thread::Threads;

/// Opens a hall over an opened book, with a second copy of its chart, serves so many links at each
/// of at most 65,535 doors, each by a clerk in a thread of its own, and closes the hall. A door
/// that gives no link waits as long as it does. All memory that this takes for itself is reserved
/// first: where there is none, the doors and the disk are as they were. One call opens, uses and
/// closes the hall, so its caller picks the names of the hall from what it passes.
pub fn serve_hall<
    N: City + Send + Sync,
    D: Disk + Drop + Send,
    H: Threads + Wait + Sync,
    R: Door + Drop + Send,
>(
    rt: &H,
    alloc: Global,
    book: Book<D>,
    chart: Chart,
    opening: Opening,
    doors: &mut Vec<R>,
    links: u32,
) -> HallServed<D>
where
    R::Link: Send,
    requires few { length doors.old.items ≤ 65535 }
    requires own { opening.turns ≡ N.table }
    requires stripes { (k : ℕ) → k < 8 → name_at opening.stripes k ≡ N.stripes k }
    requires ledgers { (opening.accepted.name ≡ N.accepted) × (opening.faulted.name ≡ N.faulted) }
    requires plan { (book.plan ≡ N.plan) × (chart ≡ N.plan) }
    requires first { length book.entries ≡ N.first }
    requires doubt { book.doubt ≡ N.doubt }
    requires begun { D.moment book.disk ≡ N.begun }
    requires risen { D.faults book.disk ≡ N.risen }
    ensures many { length doors.new.items ≡ length doors.old.items }
    ensures untouched { result.end ≡ ServeEnd.Unopened refused.NoMemory
        → doors.new.items ≡ doors.old.items }
    ensures ends { ServesDoors
        (record {
          tells = D.tells;
          is_image = D.is_image;
          moment = D.moment;
          was_image = D.was_image;
          faults = D.faults;
        })
        R.Link.tells R.known links book result.disk (map R.tells doors.old.items)
        (map R.tells doors.new.items) result.end }
{
    let Ok(rooms) = Rooms::<N, D, H, R>::new(alloc, doors.len()) else {
        return HallServed {
            end: ServeEnd::Unopened {
                why: BookRefused::NoMemory,
            },
            disk: book.close(),
        };
    };
    let Rooms {
        mut passes,
        desks,
        doors: room,
        mut receipts,
    } = rooms;
    let mut hall = Hall::open(book, chart, opening);
    hall.enter_all(doors.len(), &mut passes);
    let all = mem::replace(doors, room);
    let end = serve_doors(
        rt,
        alloc,
        &hall.shared,
        links,
        all,
        doors,
        &mut passes,
        desks,
    );
    let closed = hall.close(passes, &mut receipts);
    HallServed {
        end,
        disk: closed.disk,
    }
}
