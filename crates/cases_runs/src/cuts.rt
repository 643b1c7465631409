//! A desk over each front of a journal.

use crate::stage::{Stage, desk_over, disk_with};
use crate::status::whole_text;
use std::alloc::AllocError;
use std::io;

/// How a desk without lines ends over the first bytes of what the disk holds.
fn ended_over(stage: &Stage, len: usize) -> Result<String, AllocError> {
    let (front, _) = stage.bytes.as_slice().split_at(len.min(stage.bytes.len()));
    let disk = disk_with(stage.alloc, front, &[], 0)?;
    let left = desk_over(stage.alloc, "", disk)?;
    whole_text(stage.alloc, left.status)
}

/// The lengths, one after another, over which a desk ends alike.
#[derive(Drop)]
struct Alike {
    from: usize,
    to: usize,
    ended: String,
}

fn show_alike(rt: &impl Print, alike: &Alike) -> io::Result<()> {
    println!(rt;
        "= {} to {} bytes: {}",
        alike.from,
        alike.to,
        alike.ended.as_str()
    )
}

/// Prints how a desk ends over each front of what the disk holds, the empty one and the whole among
/// them.
pub fn show_cuts(rt: &impl Print, stage: &Stage) -> io::Result<()> {
    let mut alike = Alike {
        from: 0,
        to: 0,
        ended: ended_over(stage, 0)?,
    };
    for len in 0..=stage.bytes.len() {
        let ended = ended_over(stage, len)?;
        if ended.as_str() != alike.ended.as_str() {
            show_alike(rt, &alike)?;
            alike.from = len;
            alike.ended = ended;
        }
        alike.to = len;
    }
    show_alike(rt, &alike)
}
