//! What the script has told, and what is said of its last line.

use crate::document::{Asked, tell_document};
use crate::entries::{tell_payload, tell_written};
use crate::hex::put_digits;
use crate::lines::tell_line;
use crate::page::Page;
use std::alloc::Global;

/// What the script has told, and what is said of its last line.
#[derive(Drop)]
pub struct Stage {
    pub alloc: Global,
    /// The text of a chart, which the script changes.
    pub text: Page,
    /// The text with a change, or the bytes that a line has.
    draft: Page,
    pub said: Page,
}

impl Stage {
    pub fn new(alloc: Global) -> Stage {
        Stage {
            alloc,
            text: Page::new(alloc),
            draft: Page::new(alloc),
            said: Page::new(alloc),
        }
    }

    /// Puts a table of empty rows before the text.
    pub fn put_rows(&mut self, table: &str, rows: u16) {
        self.draft.clear();
        self.draft.put(table);
        self.draft.put(" = [");
        for _ in 0..rows {
            self.draft.put("{},");
        }
        self.draft.put("]\n");
        self.draft.put(self.text.text());
        self.text.clear();
        self.text.put(self.draft.text());
    }

    /// Says what is asked of the text.
    pub fn tell_text(&mut self, asked: Asked) {
        let text = self.text.text();
        tell_document(&mut self.said, self.alloc, text.as_bytes(), asked);
    }

    /// Makes the draft the text with a change, in which `;` is the end of a line, where the text
    /// has the old words.
    fn change(&mut self, old: &str, new: &str) {
        self.draft.clear();
        match self.text.text().split_once(old) {
            Some((before, after)) => {
                self.draft.put(before);
                self.draft.put_lines(new);
                self.draft.put(after);
            }
            None => self.draft.put("no such words"),
        }
    }

    /// Says what is said of the draft as a chart.
    fn tell_draft(&mut self) {
        let bytes = self.draft.bytes.as_slice();
        tell_document(&mut self.said, self.alloc, bytes, Asked::Fault);
    }

    /// Says what is said of the text with a change.
    pub fn tell_change(&mut self, old: &str, new: &str) {
        self.change(old, new);
        self.tell_draft();
    }

    /// Makes the draft so many blanks with these bytes behind them.
    fn put_digits(&mut self, blanks: usize, digits: &str) {
        self.draft.clear();
        for _ in 0..blanks {
            self.draft.put(" ");
        }
        let is_there = put_digits(digits, &mut self.draft.bytes);
        self.said.note(is_there);
    }

    /// Says what is said of a chart of so many blanks with these bytes behind them.
    pub fn tell_blanks(&mut self, blanks: usize, digits: &str) {
        self.put_digits(blanks, digits);
        self.tell_draft();
    }

    /// Says what is said of a line.
    pub fn tell_line(&mut self, line: &str) {
        tell_line(&mut self.said, self.alloc, line.as_bytes());
    }

    /// Says what is said of a line of these bytes.
    pub fn tell_bytes(&mut self, digits: &str) {
        self.put_digits(0, digits);
        tell_line(&mut self.said, self.alloc, self.draft.bytes.as_slice());
    }

    /// Says what is said of a payload in a journal of this version.
    pub fn tell_payload(&mut self, digits: &str, version: u8) {
        self.put_digits(0, digits);
        let bytes = self.draft.bytes.as_slice();
        tell_payload(&mut self.said, self.alloc, bytes, version);
    }

    /// Says what writing the entry of a payload leaves of so much room.
    pub fn tell_written(&mut self, digits: &str, room: usize) {
        self.put_digits(0, digits);
        let bytes = self.draft.bytes.as_slice();
        tell_written(&mut self.said, self.alloc, bytes, room);
    }
}
