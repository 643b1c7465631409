//! What is said of a line of the script.

use itoa::Buffer;
use std::alloc::Global;

/// A text that grows. Where there was no memory for a part of it, it isn't whole.
#[derive(Drop)]
pub struct Page {
    pub bytes: Vec<u8>,
    is_whole: bool,
}

impl Page {
    pub fn new(alloc: Global) -> Page {
        Page {
            bytes: Vec::new(alloc),
            is_whole: true,
        }
    }

    /// Begins anew.
    pub fn clear(&mut self) {
        self.bytes.clear();
        self.is_whole = true;
    }

    /// The text, where it is whole.
    pub fn text(&self) -> &str {
        if self.is_whole {
            str::from_utf8(self.bytes.as_slice()).unwrap_or("no text")
        } else {
            "no memory"
        }
    }

    /// Notes whether there was memory for a part.
    pub fn note(&mut self, is_there: bool) {
        self.is_whole = self.is_whole && is_there;
    }

    fn put_byte(&mut self, byte: u8) {
        let is_there = self.bytes.push(byte).is_ok();
        self.note(is_there);
    }

    pub fn put(&mut self, text: &str) {
        let is_there = self.bytes.extend_from_slice(text.as_bytes()).is_ok();
        self.note(is_there);
    }

    /// Appends a text, in which `;` is the end of a line.
    pub fn put_lines(&mut self, text: &str) {
        for byte in text.bytes() {
            self.put_byte(if byte == b';' { b'\n' } else { byte });
        }
    }

    fn put_number(&mut self, number: i128) {
        let mut buffer = Buffer::new();
        self.put(buffer.format(number));
    }

    /// Appends a text in which each `#` stands for the next number.
    pub fn put_numbers(&mut self, template: &str, numbers: &[i128]) {
        let mut numbers = numbers.iter();
        for byte in template.bytes() {
            match byte {
                b'#' => self.put_number(numbers.next().copied().unwrap_or(0)),
                _ => self.put_byte(byte),
            }
        }
    }
}
