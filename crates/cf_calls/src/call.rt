//! A call of a desk.

use crate::acts::Act;
use crate::read::Read;
use crate::text::Key;
use cf_base::Day;

/// A call that would change the history.
pub struct Change {
    pub desk: u16,
    pub key: Key,
    /// The day that the change is dated.
    pub on: Day,
    /// The least length of the history that the caller has seen.
    pub after: Option<u64>,
    pub act: Act,
}

/// Written out, for a derived one is proved anew in each crate that lets such a value go.
impl Drop for Change {
    fn drop(self) {
        let Change {
            desk: _,
            key: _,
            on: _,
            after: _,
            act: _,
        } = self;
    }
}

/// A call that only looks.
#[derive(Clone, Copy)]
pub struct Look {
    /// The least length of the history that the caller has seen.
    pub after: Option<u64>,
    pub read: Read,
}

/// A call of a desk.
#[derive(Drop)]
pub enum Call {
    Change(Change),
    Look(Look),
}
