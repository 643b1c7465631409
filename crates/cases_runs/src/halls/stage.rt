//! What the next hall is opened with, and how it is played.

use crate::halls::board::{Begin, Board, Hold};
use crate::halls::caller::{Caller, Step};
use crate::halls::hall::{Played, Table, nanoseconds, play_table};
use crate::halls::journal::{after_desk, book_of, failing, founded};
use cf_disk::MemDisk;
use cf_hall::Opening;
use cf_journal_book::Book;
use std::alloc::{AllocError, Global};
use std::sync::{Mutex, Wait};
use std::thread::Threads;
use std::time::Clock;

/// What the script told of the next hall.
#[derive(Drop)]
pub struct Stage {
    pub alloc: Global,
    pub chart: String,
    /// The desk that keeps the journal before the hall is opened.
    pub desk: Caller,
    pub table: Table,
    /// What was told of the next call.
    pub begin: Begin,
    pub hold: Hold,
    /// The call of the next hall's disk that fails, or 0.
    pub fail: u64,
}

fn empty_table(alloc: Global) -> Table {
    Table {
        alloc,
        board: Board::new(),
        callers: Vec::new(alloc),
    }
}

impl Stage {
    pub fn new(alloc: Global) -> Stage {
        Stage {
            alloc,
            chart: String::new(alloc),
            desk: Caller::new(alloc),
            table: empty_table(alloc),
            begin: Begin::AtOnce,
            hold: Hold::No,
            fail: 0,
        }
    }

    pub fn add_caller(&mut self) -> Result<(), AllocError> {
        let caller = Mutex::new(Caller::new(self.alloc));
        self.table.callers.push(caller)?;
        Ok(())
    }

    /// Adds a step to the caller that came last, or to the desk before the first caller.
    fn add_step(&mut self, step: Step) -> Result<(), AllocError> {
        match self.table.callers.last_mut() {
            Some(caller) => caller.get_mut().add(step),
            None => self.desk.add(step),
        }
    }

    /// Adds a call, which is begun and held as it was told.
    pub fn add_call(&mut self, line: &str) -> Result<(), AllocError> {
        let step = Step {
            line: String::from_str(self.alloc, line)?,
            begin: self.begin,
            hold: self.hold,
        };
        self.begin = Begin::AtOnce;
        self.hold = Hold::No;
        self.add_step(step)
    }

    /// Forgets all callers and calls.
    pub fn clear(&mut self) {
        self.desk = Caller::new(self.alloc);
        self.table = empty_table(self.alloc);
        self.fail = 0;
    }

    /// Forgets what callers were answered and told each other.
    fn forget(&mut self) {
        self.table.board = Board::new();
        self.desk.forget();
        for caller in self.table.callers.iter_mut() {
            caller.get_mut().forget();
        }
    }

    /// A new journal, after the calls of its desk, on a disk that fails as it was told.
    fn journal(&mut self) -> Option<MemDisk> {
        self.forget();
        let disk = founded(self.alloc, self.chart.as_str())?;
        let left = after_desk(self.alloc, disk, &mut self.desk)?;
        failing(self.alloc, &left, self.fail)
    }

    /// Plays all callers in a hall over a new journal.
    pub fn play<R: Threads + Wait + Clock + Sync>(&mut self, rt: &R) -> Option<Played> {
        let disk = self.journal()?;
        match Opening::new(self.alloc) {
            Ok(opening) => play_table(rt, &self.table, opening, disk),
            Err(_) => None,
        }
    }

    /// Has a book settle the calls of all callers, one caller after another.
    fn settle_all(&mut self, book: &mut Book<MemDisk>) {
        for caller in self.table.callers.iter_mut() {
            caller.get_mut().settle_all(self.alloc, book);
        }
    }

    /// Has a desk over a new journal take all calls: how many entries there are then, and how many
    /// nanoseconds that took.
    pub fn play_desk<R: Clock>(&mut self, rt: &R) -> Option<(u64, u64)> {
        let disk = self.journal()?;
        match book_of(self.alloc, disk) {
            Some(mut book) => {
                let begun = nanoseconds(rt);
                self.settle_all(&mut book);
                let took = nanoseconds(rt).saturating_sub(begun);
                let entries = book.len();
                let _ = book.close();
                Some((entries, took))
            }
            None => None,
        }
    }

    /// Reads all calls, and says how many there are, and how many nanoseconds that took.
    pub fn read_calls<R: Clock>(&mut self, rt: &R) -> (usize, u64) {
        let begun = nanoseconds(rt);
        let mut calls = 0usize;
        for caller in self.table.callers.iter_mut() {
            calls = calls.saturating_add(caller.get_mut().read_all(self.alloc));
        }
        (calls, nanoseconds(rt).saturating_sub(begun))
    }
}
