//! The run of `serve`.

ghost use Rattle.std.specs.Prelude.{◌≡◌, ◌≢◌, ◌+◌, ◌-◌, ◌≤◌, ◌<◌, ◌++◌, [], IfOk, drop, length, reverse, take};
ghost use Rattle.std.specs.Vec.{vec_len, vec_capacity};
ghost use Rattle.cf_base.specs.Common.{Rose};
ghost use Rattle.cf_serve_laws.specs.ServeEnds.{served_text};
ghost use Rattle.cf_journal_book.specs.declared.refused.BookRefused.TheVariants as refused;
ghost use Rattle.cf_run_status.specs.Devices.{device};
ghost use Rattle.cf_top.specs.DoorKinds.{door_kind};
ghost use Rattle.cf_top.specs.Serves.{KeepsDoors, PutsLine, ServeEnds, TellsEnd};

use cf_base::Sink;
use cf_base_lines::write_all;
use cf_disk::Disk;
use cf_hall::Opening;
use cf_http::Door;
use cf_journal_book::{NotOpened, open_with_chart};
use cf_run_status::{Ran, Status, refusal_status};
use cf_serve::{HallServed, ServeEnd, serve_hall};
use itoa::Buffer;
use std::alloc::{AllocError, Global};
use std::marker::Brand;
use std::sync::Wait;
use std::thread::Threads;

/// What a run of `serve` takes before it opens the journal: nothing that it does later wants
/// memory.
#[derive(Drop)]
struct Prepared<R: Drop> {
    opening: Opening,
    /// Room for the doors that are served, and for the others.
    first: Vec<R>,
    others: Vec<R>,
}

/// How many bytes the line has at most that says what was served.
const LINE_ROOM: usize = 64;

/// What serving at so many doors of these takes, and room for the line.
fn prepare<R: Drop>(
    alloc: Global,
    first: usize,
    others: usize,
) -> Result<(Prepared<R>, Vec<u8>), AllocError>
    ensures first { IfOk result (λ p. (p.0.first.items ≡ []) × (first ≤ vec_capacity p.0.first)) }
    ensures others { IfOk result (λ p. (p.0.others.items ≡ [])
        × (others ≤ vec_capacity p.0.others)) }
    ensures line { IfOk result (λ p. (p.1.items ≡ []) × (64 ≤ vec_capacity p.1)) }
{
    let opening = Opening::new(alloc)?;
    let first = Vec::with_capacity(alloc, first)?;
    let others = Vec::with_capacity(alloc, others)?;
    let line = Vec::with_capacity(alloc, LINE_ROOM)?;
    let prepared = Prepared {
        opening,
        first,
        others,
    };
    Ok((prepared, line))
}

/// Appends a piece where there is room for it.
fn put(out: &mut Vec<u8>, piece: &str)
    requires { vec_len out.old + length piece.now ≤ vec_capacity out.old }
    ensures text { out.new.items ≡ out.old.items ++ piece.now }
    ensures length { vec_len out.new ≡ vec_len out.old + length piece.now }
    ensures capacity { vec_capacity out.old ≤ vec_capacity out.new }
{
    let _ = out.extend_from_slice(piece.as_bytes());
}

/// The line that says how many links were served.
fn put_served(line: &mut Vec<u8>, links: u64)
    requires empty { line.old.items ≡ [] }
    requires room { 64 ≤ vec_capacity line.old }
    ensures { line.new.items ≡ served_text links }
{
    put(line, "served ");
    let mut buffer = Buffer::new();
    put(line, buffer.format(links));
    put(line, " links\n");
}

/// Writes a line.
fn put_line<O: Sink>(line: &[u8], out: &mut O) -> Status
    ensures line { PutsLine line.now (O.held out.old) (O.held out.new) result }
    ensures write { result ≡ Status.WriteFault → Rose (O.faults out.old) (O.faults out.new) }
    ensures out_quiet { result ≢ Status.WriteFault → O.faults out.new ≡ O.faults out.old }
{
    match write_all(out, line) {
        Ok(()) => Status::Ok,
        Err(_) => Status::WriteFault,
    }
}

/// Says what was served, in room that was taken for it.
fn tell_end<O: Sink>(end: ServeEnd, line: &mut Vec<u8>, out: &mut O) -> Status
    requires empty { line.old.items ≡ [] }
    requires room { 64 ≤ vec_capacity line.old }
    ensures told { TellsEnd end (O.held out.old) (O.held out.new) result }
    ensures write { result ≡ Status.WriteFault → Rose (O.faults out.old) (O.faults out.new) }
    ensures quiet { result ≡ Status.NoMemory → O.faults out.new ≡ O.faults out.old }
    ensures out_quiet { result ≢ Status.WriteFault → O.faults out.new ≡ O.faults out.old }
{
    match end {
        ServeEnd::Served { links } => {
            put_served(line, links);
            put_line(line.as_slice(), out)
        }
        ServeEnd::DoorFailed { .. } => Status::DoorFault,
        ServeEnd::Unopened { why } => refusal_status(why),
    }
}

/// Moves the doors past the first so many to another list, the last one first. It takes no memory.
fn take_others<R>(doors: &mut Vec<R>, first: usize, others: &mut Vec<R>)
    requires enough { first ≤ length doors.old.items }
    requires empty { others.old.items ≡ [] }
    requires room { length doors.old.items - first ≤ vec_capacity others.old }
    ensures first { doors.new.items ≡ take first doors.old.items }
    ensures others { others.new.items ≡ reverse (drop first doors.old.items) }
    ensures capacity { vec_capacity doors.new ≡ vec_capacity doors.old }
{
    for _ in first..doors.len() {
        if let Some(door) = doors.pop() {
            others.push_reserved(door);
        }
    }
}

/// Moves doors to the end of another list, which has room for them.
fn move_all<R>(from: &mut Vec<R>, to: &mut Vec<R>)
    requires { length to.old.items + length from.old.items ≤ vec_capacity to.old }
    ensures to { to.new.items ≡ to.old.items ++ from.old.items }
    ensures from { from.new.items ≡ [] }
    ensures capacity { vec_capacity to.old ≤ vec_capacity to.new }
    ensures other_capacity { vec_capacity from.new ≡ vec_capacity from.old }
{
    let _ = to.append(from);
}

/// Opens the journal of the disk, and serves links at each door. The names of the hall are picked
/// at its one call.
fn keep_doors<H: Threads + Wait + Sync, D: Disk + Drop + Send, R: Door + Drop + Send>(
    rt: &H,
    alloc: Global,
    opening: Opening,
    doors: &mut Vec<R>,
    links: u32,
    disk: D,
) -> HallServed<D>
where
    R::Link: Send,
    requires few { length doors.old.items ≤ 16 }
    ensures keeps { KeepsDoors (device D.tells D.content D.is_image D.moment D.was_image D.faults)
        (door_kind R.Link.tells R.known R.tells)
        links disk result.disk doors.old.items doors.new.items result.end }
    ensures len { length doors.new.items ≡ length doors.old.items }
    ensures disk { result.end ≡ ServeEnd.Unopened refused.Disk
        → Rose (D.faults disk) (D.faults result.disk) }
    ensures memory { result.end ≡ ServeEnd.Unopened refused.NoMemory
        → D.faults result.disk ≡ D.faults disk }
{
    match open_with_chart(alloc, disk) {
        Ok((book, chart)) => {
            serve_hall::<Brand, D, H, R>(rt, alloc, book, chart, opening, doors, links)
        }
        Err(NotOpened { disk, why }) => HallServed {
            end: ServeEnd::Unopened { why },
            disk,
        },
    }
}

/// Serves links at the first doors, which stand in a list of their own meanwhile, and puts all
/// doors back in their order.
fn keep_first<H: Threads + Wait + Sync, D: Disk + Drop + Send, R: Door + Drop + Send>(
    rt: &H,
    alloc: Global,
    prepared: Prepared<R>,
    count: usize,
    links: u32,
    disk: D,
    doors: &mut Vec<R>,
) -> HallServed<D>
where
    R::Link: Send,
    requires empty { (prepared.first.items ≡ []) × (prepared.others.items ≡ []) }
    requires room { (count ≤ vec_capacity prepared.first)
        × (length doors.old.items - count ≤ vec_capacity prepared.others) }
    requires enough { count ≤ length doors.old.items }
    requires few { count ≤ 16 }
    ensures keeps { KeepsDoors (device D.tells D.content D.is_image D.moment D.was_image D.faults)
        (door_kind R.Link.tells R.known R.tells)
        links disk result.disk (take count doors.old.items) (take count doors.new.items)
        result.end }
    ensures others { drop count doors.new.items ≡ drop count doors.old.items }
    ensures disk { result.end ≡ ServeEnd.Unopened refused.Disk
        → Rose (D.faults disk) (D.faults result.disk) }
    ensures memory { result.end ≡ ServeEnd.Unopened refused.NoMemory
        → D.faults result.disk ≡ D.faults disk }
{
    let Prepared {
        opening,
        mut first,
        mut others,
    } = prepared;
    take_others(doors, count, &mut others);
    move_all(doors, &mut first);
    let served = keep_doors(rt, alloc, opening, &mut first, links, disk);
    move_all(&mut first, doors);
    others.reverse();
    move_all(&mut others, doors);
    served
}

/// The run of `serve`: opens the journal, and serves so many links at each of the first `count`
/// doors, at most 16, each door by a thread of its own. It says how many links it served.
/// `BadWords` comes where there are fewer doors. Then, where the journal isn't opened, and where
/// there is no memory, no link is served, and nothing is written.
pub fn run_serve<H: Threads + Wait + Sync, O: Sink, D: Disk + Drop + Send, R: Door + Drop + Send>(
    rt: &H,
    alloc: Global,
    count: usize,
    links: u32,
    out: &mut O,
    disk: D,
    doors: &mut Vec<R>,
) -> Ran<D>
where
    R::Link: Send,
    requires few { count ≤ 16 }
    ensures ends { ServeEnds (device D.tells D.content D.is_image D.moment D.was_image D.faults)
        (door_kind R.Link.tells R.known R.tells)
        count links disk result.disk doors.old.items doors.new.items
        (O.held out.old) (O.held out.new) result.status }
    ensures write { result.status ≡ Status.WriteFault → Rose (O.faults out.old) (O.faults out.new) }
    ensures disk { result.status ≡ Status.DiskFault → Rose (D.faults disk) (D.faults result.disk) }
    ensures memory { result.status ≡ Status.NoMemory
        → (O.faults out.new ≡ O.faults out.old) × (D.faults result.disk ≡ D.faults disk) }
    ensures out_quiet { result.status ≢ Status.WriteFault → O.faults out.new ≡ O.faults out.old }
    ensures short { result.status ≡ Status.BadWords → length doors.old.items < count }
{
    if doors.len() < count {
        return Ran {
            status: Status::BadWords,
            disk,
        };
    }
    match prepare(alloc, count, doors.len() - count) {
        Ok((prepared, mut line)) => {
            let served = keep_first(rt, alloc, prepared, count, links, disk, doors);
            let status = tell_end(served.end, &mut line, out);
            Ran {
                status,
                disk: served.disk,
            }
        }
        Err(_) => Ran {
            status: Status::NoMemory,
            disk,
        },
    }
}
