//! A desk: a door, and the clerk who answers there.

ghost use Rattle.std.specs.Prelude.{◌≡◌, ◌<◌, ◌^◌, length};
ghost use Rattle.cf_serve.specs.DesksRun.{EachKept};
ghost use Rattle.cf_serve_laws.specs.Desks.{DeskKept};

use crate::clerk::Clerk;
use cf_disk::Disk;
use cf_hall_names::City;
use cf_http::{Door, DoorEnd, serve_door};
use std::alloc::Global;
use std::marker::Model;
use std::sync::Wait;
use std::thread;
use std::thread::Threads;

/// A door with its clerk, and how the service there ended.
#[derive(Drop)]
pub struct Desk<'a, N: City, D: Disk + Drop, H: Wait, R: Door + Drop> {
    pub door: R,
    pub clerk: Clerk<'a, N, D, H>,
    pub end: DoorEnd,
}

impl<'a, N: City, D: Disk + Drop, H: Wait, R: Door + Drop> Model for Desk<'a, N, D, H, R> {
    ghost use Rattle.cf_serve_laws.specs.Desks.{DeskState};

    ghost Value = { DeskState R.Link };

    ghost view = { λ d. record {
      pass = d.clerk;
      door = R.tells d.door;
      end = d.end;
    } };
}

impl<'a, N: City, D: Disk + Drop, H: Wait, R: Door + Drop> Desk<'a, N, D, H, R> {
    /// Serves so many links of the door, one after another: fewer where none is left to come, or
    /// the door fails.
    pub fn keep(&mut self, alloc: Global, links: u32)
        ensures { DeskKept R.Link.tells R.known N.plan links self.old self.new }
    {
        let how = serve_door(alloc, &mut self.door, links, &mut self.clerk);
        self.end = how;
    }
}

/// Keeps all desks, each in a thread of its own where one can be made.
pub fn keep_all<
    'a,
    N: City + Send + Sync,
    D: Disk + Drop + Send,
    H: Threads + Wait + Sync,
    R: Door + Drop + Send,
>(rt: &H, alloc: Global, desks: &mut Vec<Desk<'a, N, D, H, R>>, links: u32)
where
    R::Link: Send,
    requires { length desks.old.items < 2 ^ 32 }
    ensures kept { EachKept R.Link.tells R.known N.plan links desks.old.items desks.new.items }
    ensures many { length desks.new.items ≡ length desks.old.items }
{
    let threads = desks.len() + 1;
    let each = desks.as_mut_slice();
    thread::for_each_mut(rt, each, threads, &|_, desk| desk.keep(alloc, links));
}
