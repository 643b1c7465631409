//! What the callers of a hall tell each other, and the gates that hold calls by it.

use cf_calls::Call;
use cf_hall::Gate;
use std::sync::atomic::{AtomicU64, Ordering};
use std::thread;

/// How many turns a caller waits for the others before it gives up.
const MOST_TURNS: u32 = 16_777_216;

/// How many turns a call is kept at its gate while another one is under way. A turn is a yield,
/// which on a busy machine costs a part of a millisecond.
const KEPT_TURNS: u32 = 16_384;

/// When a call is begun.
#[derive(Clone, Copy)]
pub enum Begin {
    AtOnce,
    /// Once a call is held at its gate.
    OnceHeld,
    /// Once so many calls were answered.
    OnceAnswered(u64),
}

/// How long a call is held at its gate.
#[derive(Clone, Copy)]
pub enum Hold {
    No,
    /// Until so many calls were answered.
    UntilAnswered(u64),
    /// Until so many calls were begun, and then for `KEPT_TURNS`.
    WhileBegun(u64),
}

/// Counts of what the callers of a hall did.
#[derive(Drop)]
pub struct Board {
    /// Calls that were begun.
    begun: AtomicU64,
    /// Calls that came to a gate that holds them.
    held: AtomicU64,
    answered: AtomicU64,
    /// Waits that ended for their turns.
    gave_up: AtomicU64,
    /// Calls that were kept at their gates while another one was answered.
    overtaken: AtomicU64,
}

fn count_one(count: &AtomicU64) {
    count.fetch_add(1, Ordering::SeqCst);
}

fn counted(count: &AtomicU64) -> u64 {
    count.load(Ordering::SeqCst)
}

impl Board {
    pub fn new() -> Board {
        Board {
            begun: AtomicU64::new(0),
            held: AtomicU64::new(0),
            answered: AtomicU64::new(0),
            gave_up: AtomicU64::new(0),
            overtaken: AtomicU64::new(0),
        }
    }

    /// Waits until a count is so high, or gives up.
    fn wait_for(&self, count: &AtomicU64, least: u64) {
        for _ in 0..MOST_TURNS {
            if counted(count) >= least {
                return;
            }
            thread::yield_now();
        }
        count_one(&self.gave_up);
    }

    /// Begins a call once it is to be begun.
    pub fn begin(&self, begin: Begin) {
        match begin {
            Begin::AtOnce => {}
            Begin::OnceHeld => self.wait_for(&self.held, 1),
            Begin::OnceAnswered(calls) => self.wait_for(&self.answered, calls),
        }
        count_one(&self.begun);
    }

    /// A call was answered.
    pub fn answer(&self) {
        count_one(&self.answered);
    }

    /// Keeps a call until so many were begun, and lets some turns go by. A call that is answered
    /// meanwhile has overtaken it.
    fn keep(&self, calls: u64) {
        let before = counted(&self.answered);
        count_one(&self.held);
        self.wait_for(&self.begun, calls);
        for _ in 0..KEPT_TURNS {
            thread::yield_now();
        }
        if counted(&self.answered) != before {
            count_one(&self.overtaken);
        }
    }

    /// Holds a call at its gate.
    fn hold(&self, hold: Hold) {
        match hold {
            Hold::No => {}
            Hold::UntilAnswered(calls) => {
                count_one(&self.held);
                self.wait_for(&self.answered, calls);
            }
            Hold::WhileBegun(calls) => self.keep(calls),
        }
    }

    /// How many calls were held.
    pub fn held(&self) -> u64 {
        counted(&self.held)
    }

    /// How many waits ended for their turns.
    pub fn gave_up(&self) -> u64 {
        counted(&self.gave_up)
    }

    /// How many calls were overtaken.
    pub fn overtaken(&self) -> u64 {
        counted(&self.overtaken)
    }
}

/// The gate of one call.
#[derive(Drop)]
pub struct Held<'a> {
    pub board: &'a Board,
    pub hold: Hold,
}

impl<'a> Gate for Held<'a> {
    fn taken(&self, _call: &Call) {
        self.board.hold(self.hold);
    }
}
