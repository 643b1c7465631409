//! A hall is opened over a journal, its callers play, and it is closed.

ghost use Rattle.std.specs.Prelude.{◌≡◌, ◌<◌, ◌≤◌, ℕ, [], length, IfOk};
ghost use Rattle.std.specs.Vec.{vec_capacity};
ghost use Rattle.cf_hall.specs.OpeningNames.{name_at};

use crate::halls::board::Board;
use crate::halls::caller::Caller;
use cf_chart::Chart;
use cf_disk::Disk;
use cf_hall::{Hall, HallPass, Opening, Shared};
use cf_hall_names::City;
use cf_journal_book::{Book, open_with_chart};
use cf_turns::Receipts;
use std::alloc::{AllocError, Global};
use std::marker::Brand;
use std::sync::{Mutex, Wait};
use std::thread;
use std::thread::Threads;
use std::time::Clock;

/// How many callers a hall has at most.
const MOST_CALLERS: usize = 64;

/// The callers of a hall, with what they tell each other. Each caller is locked by its own thread
/// alone.
#[derive(Drop)]
pub struct Table {
    pub alloc: Global,
    pub board: Board,
    pub callers: Vec<Mutex<Caller>>,
}

/// What playing left: how many entries there are, the receipts of each caller, and how many
/// nanoseconds the calls took.
#[derive(Drop)]
pub struct Played {
    pub entries: u64,
    pub receipts: Vec<Receipts>,
    pub nanoseconds: u64,
}

/// Nanoseconds of a clock that doesn't go back.
pub fn nanoseconds<C: Clock>(clock: &C) -> u64 {
    match clock.monotonic() {
        Ok(time) => u64::try_from(time.as_nanos()).unwrap_or(0),
        Err(_) => 0,
    }
}

/// Posts the calls of the caller at this place.
fn play_caller<N: City, D: Disk + Drop, H: Wait>(
    rt: &H,
    shared: &Shared<N, D>,
    table: &Table,
    place: usize,
    pass: &mut HallPass<N>,
) {
    if let Some(caller) = table.callers.get(place) {
        caller
            .lock(rt)
            .post_all(rt, table.alloc, shared, pass, &table.board);
    }
}

/// Lets all callers play, each in a thread of its own where one can be made.
fn play_all<N: City + Send + Sync, D: Disk + Drop + Send, H: Threads + Wait + Sync>(
    rt: &H,
    shared: &Shared<N, D>,
    table: &Table,
    passes: &mut Vec<HallPass<N>>,
)
    requires { length passes.old.items ≤ 65535 }
    ensures { length passes.new.items ≡ length passes.old.items }
{
    let threads = passes.len() + 1;
    let each = passes.as_mut_slice();
    thread::for_each_mut(
        rt,
        each,
        threads,
        &|place, pass| { play_caller(rt, shared, table, place, pass) },
    );
}

/// Lets all callers play, and says how many nanoseconds that took.
fn time_all<N: City + Send + Sync, D: Disk + Drop + Send, H: Threads + Wait + Clock + Sync>(
    rt: &H,
    shared: &Shared<N, D>,
    table: &Table,
    passes: &mut Vec<HallPass<N>>,
) -> u64
    requires { length passes.old.items ≤ 65535 }
    ensures { length passes.new.items ≡ length passes.old.items }
{
    let begun = nanoseconds(rt);
    play_all(rt, shared, table, passes);
    nanoseconds(rt).saturating_sub(begun)
}

/// Room for what there is one of for each caller.
#[derive(Drop)]
struct Rooms<N: City> {
    passes: Vec<HallPass<N>>,
    receipts: Vec<Receipts>,
}

/// Room for so many callers.
fn reserve<N: City>(alloc: Global, count: usize) -> Result<Rooms<N>, AllocError>
    ensures empty { IfOk result (λ r. (r.passes.items ≡ []) × (r.receipts.items ≡ [])) }
    ensures room { IfOk result
        (λ r. (count ≤ vec_capacity r.passes) × (count ≤ vec_capacity r.receipts)) }
{
    Ok(Rooms {
        passes: Vec::with_capacity(alloc, count)?,
        receipts: Vec::with_capacity(alloc, count)?,
    })
}

/// Opens a hall over a book, lets so many callers play, and closes the hall.
fn play_within<N: City + Send + Sync, D: Disk + Drop + Send, H: Threads + Wait + Clock + Sync>(
    rt: &H,
    book: Book<D>,
    chart: Chart,
    opening: Opening,
    table: &Table,
    count: usize,
    rooms: Rooms<N>,
) -> Played
    requires few { count ≤ 65535 }
    requires empty { (rooms.passes.items ≡ []) × (rooms.receipts.items ≡ []) }
    requires room { (count ≤ vec_capacity rooms.passes) × (count ≤ vec_capacity rooms.receipts) }
    requires own { opening.turns ≡ N.table }
    requires stripes { (k : ℕ) → k < 8 → name_at opening.stripes k ≡ N.stripes k }
    requires ledgers { (opening.accepted.name ≡ N.accepted) × (opening.faulted.name ≡ N.faulted) }
    requires plan { (book.plan ≡ N.plan) × (chart ≡ N.plan) }
    requires first { length book.entries ≡ N.first }
    requires doubt { book.doubt ≡ N.doubt }
    requires begun { D.moment book.disk ≡ N.begun }
    requires risen { D.faults book.disk ≡ N.risen }
{
    let Rooms {
        mut passes,
        mut receipts,
    } = rooms;
    let mut hall = Hall::open(book, chart, opening);
    hall.enter_all(count, &mut passes);
    let nanoseconds = time_all(rt, &hall.shared, table, &mut passes);
    let closed = hall.close(passes, &mut receipts);
    Played {
        entries: closed.length,
        receipts,
        nanoseconds,
    }
}

/// Opens a hall over a book, lets so many callers play, and closes the hall, where there is memory
/// for the passes and the receipts.
fn play_over<N: City + Send + Sync, D: Disk + Drop + Send, H: Threads + Wait + Clock + Sync>(
    rt: &H,
    book: Book<D>,
    chart: Chart,
    opening: Opening,
    table: &Table,
    count: usize,
) -> Option<Played>
    requires few { count ≤ 65535 }
    requires own { opening.turns ≡ N.table }
    requires stripes { (k : ℕ) → k < 8 → name_at opening.stripes k ≡ N.stripes k }
    requires ledgers { (opening.accepted.name ≡ N.accepted) × (opening.faulted.name ≡ N.faulted) }
    requires plan { (book.plan ≡ N.plan) × (chart ≡ N.plan) }
    requires first { length book.entries ≡ N.first }
    requires doubt { book.doubt ≡ N.doubt }
    requires begun { D.moment book.disk ≡ N.begun }
    requires risen { D.faults book.disk ≡ N.risen }
{
    match reserve::<N>(table.alloc, count) {
        Ok(rooms) => Some(play_within(rt, book, chart, opening, table, count, rooms)),
        Err(_) => {
            let _ = book.close();
            None
        }
    }
}

/// Opens the journal of a disk, and lets all callers of a table play in a hall over it. The names
/// of the hall are picked at its one call.
pub fn play_table<D: Disk + Drop + Send, H: Threads + Wait + Clock + Sync>(
    rt: &H,
    table: &Table,
    opening: Opening,
    disk: D,
) -> Option<Played> {
    let count = table.callers.len().min(MOST_CALLERS);
    match open_with_chart(table.alloc, disk) {
        Ok((book, chart)) => play_over::<Brand, D, H>(rt, book, chart, opening, table, count),
        Err(_) => None,
    }
}
