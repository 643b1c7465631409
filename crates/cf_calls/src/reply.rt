//! What is answered to a call.

use crate::entry::Drawn;
use crate::list::List;
use crate::refusal::Refusal;
use crate::shown::Shown;
use crate::text::Label;

/// What an accepted change made.
#[derive(Clone, Copy)]
pub enum Made {
    Nothing,
    Requisition {
        number: u32,
    },
    Order {
        number: u32,
    },
    /// A voucher, with the first of its assets and how many follow one another.
    Voucher {
        number: u32,
        first_asset: u32,
        assets: u16,
    },
    Bill {
        number: u32,
    },
    /// The fiscal year that a collection is recognised in.
    Year {
        year: u16,
    },
    Asset {
        number: u32,
    },
    Bond {
        number: u32,
    },
    /// A lease, with the asset that is leased and the bond that its payments are of.
    Lease {
        asset: u32,
        bond: u32,
    },
    /// What a debt payment paid, in cents.
    Paid {
        interest: u64,
        principal: u64,
    },
}

pub type Amounts = List<i128>;

/// A row of a statement.
#[derive(Drop)]
pub struct Row {
    pub label: Label,
    /// In cents.
    pub amounts: Amounts,
}

/// What a reply says.
#[derive(Drop)]
pub enum Body {
    /// The change was accepted now, or before as the entry at `was`.
    Done { made: Made, was: Option<u64> },
    Refused(Refusal),
    Shown(Shown),
}

/// A reply: what it says, and the length of the history after the call.
pub struct Reply {
    pub at: u64,
    pub body: Body,
}

/// Written out, for a derived one is proved anew in each crate that lets such a value go.
impl Drop for Reply {
    fn drop(self) {
        let Reply { at: _, body: _ } = self;
    }
}

/// What is given for a call: a reply, or why there is none.
#[derive(Drop)]
pub enum Posted {
    Reply(Reply),
    /// The disk failed while the call was handled.
    Disk,
    /// There was no memory for the call.
    NoMemory,
}

/// What the rules say of a change.
#[derive(Clone, Copy)]
pub enum Verdict {
    /// The change is accepted, and draws these numbers.
    Accept(Drawn),
    /// The same call was accepted as the entry at this place.
    Repeat { was: u64 },
    Refuse(Refusal),
}
