//! A caller: its calls, and what it was answered.

use crate::halls::board::{Begin, Board, Held, Hold};
use cf_calls::Posted;
use cf_disk::{Disk, MemDisk};
use cf_hall::{HallPass, Shared};
use cf_hall_names::City;
use cf_journal_book::Book;
use cf_json::read_call;
use cf_json_replies::write_posted;
use std::alloc::{AllocError, Global};
use std::sync::Wait;

/// A call of a caller, as a line.
#[derive(Drop)]
pub struct Step {
    pub line: String,
    pub begin: Begin,
    pub hold: Hold,
}

/// A caller of a hall, or the desk before it.
#[derive(Drop)]
pub struct Caller {
    steps: Vec<Step>,
    /// The replies, each on a line.
    replies: Vec<u8>,
}

/// Adds the text of what was given for a call, and a newline.
fn put_given(alloc: Global, given: &Posted, replies: &mut Vec<u8>) -> Result<(), AllocError> {
    write_posted(alloc, given, replies)?;
    replies.push(b'\n')?;
    Ok(())
}

/// Posts the call that a line is. One that is no call in form is answered as want of memory.
fn post_line<N: City, D: Disk + Drop, H: Wait>(
    rt: &H,
    alloc: Global,
    shared: &Shared<N, D>,
    pass: &mut HallPass<N>,
    gate: &Held<'_>,
    line: &str,
) -> Posted {
    match read_call(alloc, line.as_bytes()) {
        Ok(call) => shared.post(rt, alloc, pass, gate, call),
        Err(_) => Posted::NoMemory,
    }
}

/// Posts the call of a step, once it is to be begun.
fn post<N: City, D: Disk + Drop, H: Wait>(
    rt: &H,
    alloc: Global,
    shared: &Shared<N, D>,
    pass: &mut HallPass<N>,
    board: &Board,
    step: &Step,
) -> Posted {
    board.begin(step.begin);
    let gate = Held {
        board,
        hold: step.hold,
    };
    let given = post_line(rt, alloc, shared, pass, &gate, step.line.as_str());
    board.answer();
    given
}

/// Has a book settle the call that a line is.
fn settle_line(alloc: Global, book: &mut Book<MemDisk>, line: &str) -> Posted {
    match read_call(alloc, line.as_bytes()) {
        Ok(call) => book.settle(alloc, call),
        Err(_) => Posted::NoMemory,
    }
}

impl Caller {
    pub fn new(alloc: Global) -> Caller {
        Caller {
            steps: Vec::new(alloc),
            replies: Vec::new(alloc),
        }
    }

    pub fn add(&mut self, step: Step) -> Result<(), AllocError> {
        self.steps.push(step)?;
        Ok(())
    }

    /// Forgets what it was answered.
    pub fn forget(&mut self) {
        self.replies.clear();
    }

    /// What it was answered, a line for each call. Where memory was wanting lines are missing.
    pub fn replies(&self) -> &str {
        str::from_utf8(self.replies.as_slice()).unwrap_or("no text")
    }

    /// Reads its calls, and says how many are in form.
    pub fn read_all(&self, alloc: Global) -> usize {
        let mut calls = 0usize;
        for step in &self.steps {
            if read_call(alloc, step.line.as_bytes()).is_ok() {
                calls = calls.saturating_add(1);
            }
        }
        calls
    }

    /// Posts its calls, one after another.
    pub fn post_all<N: City, D: Disk + Drop, H: Wait>(
        &mut self,
        rt: &H,
        alloc: Global,
        shared: &Shared<N, D>,
        pass: &mut HallPass<N>,
        board: &Board,
    ) {
        for step in &self.steps {
            let given = post(rt, alloc, shared, pass, board, step);
            let _ = put_given(alloc, &given, &mut self.replies);
        }
    }

    /// Has a book settle its calls, one after another.
    pub fn settle_all(&mut self, alloc: Global, book: &mut Book<MemDisk>) {
        for step in &self.steps {
            let given = settle_line(alloc, book, step.line.as_str());
            let _ = put_given(alloc, &given, &mut self.replies);
        }
    }
}
