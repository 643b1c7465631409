//! Callers over a hall, each in a thread of its own, and what they are answered. A hall that holds
//! up a call for ever is told by a count of turns, and not by a program that hangs.
//!
//! The lines of a script:
//!
//! - `# ..`: a heading
//! - `chart FILE`: the chart of the next journal
//! - `{..`: a call of the caller that came last; before the first caller, one of the desk that kept
//!   the journal before the hall is opened
//! - `caller`: a caller more
//! - `wait held`, `wait N`: the caller's next call is begun once a call is held at its gate, or
//!   once N calls were answered
//! - `hold N`: the caller's next call is held at its gate, its stripes taken, until N calls were
//!   answered
//! - `keep N`: the same until N calls were begun, and then for some turns more
//! - `fail N`: the disk of the next hall fails at its call N
//! - `play`: plays all callers over a new journal: prints what each was answered, how many calls
//!   were held, gave up waiting or were overtaken while they were kept, how many entries there are,
//!   and what the receipts of each caller say: how many calls were accepted, and how many were
//!   answered by a fault of the disk
//! - `mixed N`: plays them so many times, and prints what is the same whoever comes first: the
//!   replies without their places, then the places, both sorted
//! - `time`, `time desk`, `time read`: plays them, has a desk take their calls one after another,
//!   or reads their calls alone, and prints how long that took

pub mod board;
mod caller;
mod hall;
mod journal;
pub mod play;
pub mod stage;
mod summary;
pub mod word;
