//! The memory that serving takes, which is reserved before the hall is opened.

ghost use Rattle.std.specs.Prelude.{◌≡◌, ◌≤◌, [], IfOk};
ghost use Rattle.std.specs.Vec.{vec_capacity};

use crate::desk::Desk;
use cf_disk::Disk;
use cf_hall::HallPass;
use cf_hall_names::City;
use cf_http::Door;
use cf_turns::Receipts;
use std::alloc::{AllocError, Global};
use std::sync::Wait;

/// Room for what there is one of at each door.
#[derive(Drop)]
pub(crate) struct Rooms<'a, N: City, D: Disk + Drop, H: Wait, R: Door + Drop> {
    pub(crate) passes: Vec<HallPass<N>>,
    pub(crate) desks: Vec<Desk<'a, N, D, H, R>>,
    pub(crate) doors: Vec<R>,
    pub(crate) receipts: Vec<Receipts>,
}

impl<'a, N: City, D: Disk + Drop, H: Wait, R: Door + Drop> Rooms<'a, N, D, H, R> {
    /// Room for so many doors. It fails exactly for want of memory.
    pub(crate) fn new(alloc: Global, count: usize) -> Result<Rooms<'a, N, D, H, R>, AllocError>
        ensures passes { IfOk result
            (λ r. (r.passes.items ≡ []) × (count ≤ vec_capacity r.passes)) }
        ensures desks { IfOk result (λ r. (r.desks.items ≡ []) × (count ≤ vec_capacity r.desks)) }
        ensures doors { IfOk result (λ r. (r.doors.items ≡ []) × (count ≤ vec_capacity r.doors)) }
        ensures receipts { IfOk result
            (λ r. (r.receipts.items ≡ []) × (count ≤ vec_capacity r.receipts)) }
    {
        Ok(Rooms {
            passes: Vec::with_capacity(alloc, count)?,
            desks: Vec::with_capacity(alloc, count)?,
            doors: Vec::with_capacity(alloc, count)?,
            receipts: Vec::with_capacity(alloc, count)?,
        })
    }
}
