//! Why no entry was read.

/// What is wrong with the bytes.
#[derive(Clone, Copy)]
pub struct CodecFault {
    /// The place of the first byte of the first field that is cut short, out of its range, or
    /// against a rule with the fields before it. A rule on a whole list is broken at the list's
    /// count.
    pub offset: usize,
}

/// Why no entry was read.
#[derive(Clone, Copy)]
pub enum CodecRefused {
    /// The bytes begin with no payload.
    Fault(CodecFault),
    /// There was no memory for the entry.
    NoMemory,
}

/// There was no memory for the payload.
#[derive(Clone, Copy)]
pub struct NoMemory;
