//! What a crash may leave of a disk.

use cf_disk::DiskCall;
use std::alloc::{AllocError, Global};

/// What a crash leaves of a change that isn't synced.
#[derive(Clone, Copy)]
pub enum Tear {
    All,
    Nothing,
    Front,
    Back,
    Ones,
}

pub const TEARS: [Tear; 5] = [
    Tear::All,
    Tear::Nothing,
    Tear::Front,
    Tear::Back,
    Tear::Ones,
];

/// Puts a piece over what is there, and past the end.
fn put(bytes: &mut Vec<u8>, at: u64, piece: &[u8]) -> Result<(), AllocError> {
    let start = at as usize;
    let end = start.saturating_add(piece.len());
    if bytes.len() < end {
        bytes.resize(end, 0)?;
    }
    let start = start.min(bytes.len());
    let (_, behind) = bytes.as_mut_slice().split_at_mut(start);
    let len = piece.len().min(behind.len());
    let (slots, _) = behind.split_at_mut(len);
    slots.copy_from_slice(&piece[..len]);
    Ok(())
}

/// Puts a byte 1 in the place of each byte of a piece.
fn put_ones(bytes: &mut Vec<u8>, at: u64, piece: &[u8]) -> Result<(), AllocError> {
    put(bytes, at, piece)?;
    let start = (at as usize).min(bytes.len());
    let (_, behind) = bytes.as_mut_slice().split_at_mut(start);
    let len = piece.len().min(behind.len());
    let (slots, _) = behind.split_at_mut(len);
    slots.fill(1);
    Ok(())
}

/// The middle of a piece, without the zeros at its end.
fn middle(piece: &[u8]) -> usize {
    let mut at: usize = 0;
    let mut end: usize = 0;
    for byte in piece {
        at = at.saturating_add(1);
        if *byte != 0 {
            end = at;
        }
    }
    end / 2
}

fn put_torn(bytes: &mut Vec<u8>, at: u64, piece: &[u8], tear: Tear) -> Result<(), AllocError> {
    let (front, back) = piece.split_at(middle(piece).min(piece.len()));
    match tear {
        Tear::All => put(bytes, at, piece),
        Tear::Nothing => Ok(()),
        Tear::Front => put(bytes, at, front),
        Tear::Back => put(bytes, at.saturating_add(front.len() as u64), back),
        Tear::Ones => put_ones(bytes, at, piece),
    }
}

/// A disk between its calls.
#[derive(Drop)]
struct Torn {
    /// What a read gives.
    content: Vec<u8>,
    /// What a crash leaves.
    image: Vec<u8>,
    /// How the next change is torn, and the one after it.
    tears: [Tear; 2],
}

impl Torn {
    /// Makes a call.
    fn make(&mut self, call: &DiskCall) -> Result<(), AllocError> {
        let [tear, next] = self.tears;
        match call {
            DiskCall::Write { at, piece } => {
                put(&mut self.content, *at, piece.as_slice())?;
                put_torn(&mut self.image, *at, piece.as_slice(), tear)?;
                self.tears = [next, tear];
            }
            DiskCall::Cut { len } => {
                self.content.resize(*len as usize, 0)?;
                if matches!(tear, Tear::All) {
                    self.image.resize(*len as usize, 0)?;
                }
                self.tears = [next, tear];
            }
            DiskCall::Sync { held: true } => {
                self.image.clear();
                self.image.extend_from_slice(self.content.as_slice())?;
            }
            _ => {}
        }
        Ok(())
    }
}

/// An image of a disk that held these bytes, after these calls. Changes that aren't synced are torn
/// in turn.
pub fn image_after(
    alloc: Global,
    before: &[u8],
    calls: &[DiskCall],
    tears: [Tear; 2],
) -> Result<Vec<u8>, AllocError> {
    let mut torn = Torn {
        content: Vec::from_slice(alloc, before)?,
        image: Vec::from_slice(alloc, before)?,
        tears,
    };
    for call in calls {
        torn.make(call)?;
    }
    Ok(torn.image)
}
