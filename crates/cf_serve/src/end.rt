use cf_journal_book::BookRefused;

/// How the service of a hall ended.
#[derive(Clone, Copy)]
pub enum ServeEnd {
    /// Each door gave as many links as were asked for, or all that came to it: so many in all.
    Served { links: u64 },
    /// A door failed. Its count of faults tells which.
    DoorFailed { links: u64 },
    /// The hall wasn't opened. No door was asked for a link.
    Unopened { why: BookRefused },
}

/// How the service of a hall ended, and its disk.
#[derive(Drop)]
pub struct HallServed<D: Drop> {
    pub end: ServeEnd,
    pub disk: D,
}
