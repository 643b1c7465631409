//! Desks are opened at the doors, kept and parted again.

ghost use Rattle.std.specs.Prelude.{◌≡◌, ◌≤◌, [], length, map, All};
ghost use Rattle.std.specs.List.{list_any, sum_by};
ghost use Rattle.std.specs.Vec.{vec_capacity};
ghost use Rattle.cf_hall_names.specs.Closing.{IsFreshPass};
ghost use Rattle.cf_serve.specs.DesksRun as spec;
ghost use Rattle.cf_serve.specs.DesksRun.{DesksRan};
ghost use Rattle.cf_serve_laws.specs.Desks.{end_links, is_fault};
ghost use Rattle.cf_serve_laws.specs.ServeRuns.{door_of};

use crate::clerk::Clerk;
use crate::desk::{Desk, keep_all};
use crate::end::ServeEnd;
use cf_disk::Disk;
use cf_hall::{HallPass, Shared};
use cf_hall_names::City;
use cf_http::{Door, DoorEnd};
use std::alloc::Global;
use std::sync::Wait;
use std::thread::Threads;

/// Opens a desk: a door, and a clerk with the pass.
fn seat<'a, N: City, D: Disk + Drop, H: Wait, R: Door + Drop>(
    rt: &'a H,
    alloc: Global,
    shared: &'a Shared<N, D>,
    door: R,
    pass: HallPass<N>,
) -> Desk<'a, N, D, H, R>
    ensures pass { result.pass ≡ pass }
    ensures door { door_of result ≡ R.tells door }
{
    let clerk = Clerk {
        rt,
        alloc,
        shared,
        pass,
    };
    Desk {
        door,
        clerk,
        end: DoorEnd::Done { links: 0 },
    }
}

/// Opens a desk for each door, in the order of the doors. It takes no memory.
fn seat_all<'a, N: City, D: Disk + Drop, H: Wait, R: Door + Drop>(
    rt: &'a H,
    alloc: Global,
    shared: &'a Shared<N, D>,
    doors: Vec<R>,
    passes: &mut Vec<HallPass<N>>,
    desks: &mut Vec<Desk<'a, N, D, H, R>>,
)
    requires pairs { length passes.old.items ≡ length doors.items }
    requires fresh { All (IsFreshPass N.first) passes.old.items }
    requires empty { desks.old.items ≡ [] }
    requires room { length doors.items ≤ vec_capacity desks.old }
    ensures doors { map door_of desks.new.items ≡ map R.tells doors.items }
    ensures many { length desks.new.items ≡ length doors.items }
    ensures fresh { All (λ d. IsFreshPass N.first d.pass) desks.new.items }
    ensures passes { passes.new.items ≡ [] }
    ensures capacity { vec_capacity passes.new ≡ vec_capacity passes.old }
{
    for door in doors {
        if let Some(pass) = passes.pop() {
            desks.push_reserved(seat(rt, alloc, shared, door, pass));
        }
    }
}

fn is_failed(end: DoorEnd) -> bool
    ensures { result ≡ is_fault end }
{
    match end {
        DoorEnd::Done { .. } => false,
        DoorEnd::DoorFault { .. } => true,
    }
}

/// Whether a door failed.
fn has_failed<'a, N: City, D: Disk + Drop, H: Wait, R: Door + Drop>(
    desks: &[Desk<'a, N, D, H, R>],
) -> bool
    ensures { result ≡ list_any (λ d. is_fault d.end) desks.now }
{
    desks.iter().any(|desk| is_failed(desk.end))
}

/// How many links a door gave.
fn links_of(end: DoorEnd) -> u32
    ensures { result ≡ end_links end }
{
    match end {
        DoorEnd::Done { links } => links,
        DoorEnd::DoorFault { links } => links,
    }
}

/// How many links the doors gave.
fn links_given<'a, N: City, D: Disk + Drop, H: Wait, R: Door + Drop>(
    desks: &[Desk<'a, N, D, H, R>],
) -> u64
    requires { length desks.now ≤ 65535 }
    ensures { result ≡ sum_by (λ d. end_links d.end) desks.now }
{
    let mut links = 0;
    for desk in desks {
        links += u64::from(links_of(desk.end));
    }
    links
}

/// Parts a desk: its door and its pass.
fn part<'a, N: City, D: Disk + Drop, H: Wait, R: Door + Drop>(
    desk: Desk<'a, N, D, H, R>,
) -> (R, HallPass<N>)
    ensures door { R.tells result.0 ≡ door_of desk.entry }
    ensures pass { result.1 ≡ desk.entry.pass }
{
    let Desk { door, clerk, .. } = desk;
    let Clerk { pass, .. } = clerk;
    (door, pass)
}

/// Parts all desks: their doors and passes, in the order of the desks. It takes no memory.
fn part_all<'a, N: City, D: Disk + Drop, H: Wait, R: Door + Drop>(
    desks: Vec<Desk<'a, N, D, H, R>>,
    doors: &mut Vec<R>,
    passes: &mut Vec<HallPass<N>>,
)
    requires empty { (doors.old.items ≡ []) × (passes.old.items ≡ []) }
    requires doors_room { length desks.items ≤ vec_capacity doors.old }
    requires passes_room { length desks.items ≤ vec_capacity passes.old }
    ensures doors { map R.tells doors.new.items ≡ map door_of desks.entry.items }
    ensures many { (length doors.new.items ≡ length desks.entry.items)
        × (length passes.new.items ≡ length desks.entry.items) }
    ensures passes { passes.new.items ≡ map (λ d. d.pass) desks.entry.items }
{
    for desk in desks {
        let (door, pass) = part(desk);
        doors.push_reserved(door);
        passes.push_reserved(pass);
    }
}

/// How the service of the desks ended.
fn end_of<'a, N: City, D: Disk + Drop, H: Wait, R: Door + Drop>(
    desks: &[Desk<'a, N, D, H, R>],
) -> ServeEnd
    requires { length desks.now ≤ 65535 }
    ensures { result ≡ spec.end_of desks.now }
{
    let links = links_given(desks);
    if has_failed(desks) {
        ServeEnd::DoorFailed { links }
    } else {
        ServeEnd::Served { links }
    }
}

/// Keeps a desk at each door, with a pass each: all at once, and each for so many links. The doors
/// are handed back in their order, in the room for them, and with them the passes.
pub(crate) fn serve_doors<
    'a,
    N: City + Send + Sync,
    D: Disk + Drop + Send,
    H: Threads + Wait + Sync,
    R: Door + Drop + Send,
>(
    rt: &'a H,
    alloc: Global,
    shared: &'a Shared<N, D>,
    links: u32,
    doors: Vec<R>,
    back: &mut Vec<R>,
    passes: &mut Vec<HallPass<N>>,
    mut desks: Vec<Desk<'a, N, D, H, R>>,
) -> ServeEnd
where
    R::Link: Send,
    requires few { length doors.items ≤ 65535 }
    requires pairs { length passes.old.items ≡ length doors.items }
    requires fresh { All (IsFreshPass N.first) passes.old.items }
    requires empty { (back.old.items ≡ []) × (desks.items ≡ []) }
    requires back_room { length doors.items ≤ vec_capacity back.old }
    requires passes_room { length doors.items ≤ vec_capacity passes.old }
    requires desks_room { length doors.items ≤ vec_capacity desks }
    ensures many { (length back.new.items ≡ length doors.items)
        × (length passes.new.items ≡ length doors.items) }
    ensures ran { DesksRan R.Link.tells R.known N.plan N.first links (map R.tells doors.items)
        (map R.tells back.new.items) passes.new.items result }
{
    seat_all(rt, alloc, shared, doors, passes, &mut desks);
    keep_all(rt, alloc, &mut desks, links);
    let end = end_of(desks.as_slice());
    part_all(desks, back, passes);
    end
}
