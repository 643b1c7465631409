//! Journals in memory, and the desk that keeps one before a hall is opened.

use crate::halls::caller::Caller;
use crate::stage::disk_with;
use cf_chart::Chart;
use cf_disk::MemDisk;
use cf_journal::found;
use cf_journal_book::{Book, open};
use std::alloc::Global;

/// Founds a journal with these bytes of a chart, and says whether it did.
fn found_with(alloc: Global, bytes: &[u8], disk: &mut MemDisk) -> bool {
    match Chart::read(alloc, bytes) {
        Ok(_) => found(alloc, disk, bytes).is_ok(),
        Err(_) => false,
    }
}

/// A disk in memory with a journal that was founded with this chart.
pub fn founded(alloc: Global, chart: &str) -> Option<MemDisk> {
    match MemDisk::new(alloc, Vec::new(alloc)) {
        Ok(mut disk) => {
            if found_with(alloc, chart.as_bytes(), &mut disk) {
                Some(disk)
            } else {
                None
            }
        }
        Err(_) => None,
    }
}

/// The book of the journal of a disk.
pub fn book_of(alloc: Global, disk: MemDisk) -> Option<Book<MemDisk>> {
    match open(alloc, disk) {
        Ok(book) => Some(book),
        Err(_) => None,
    }
}

/// The disk after a desk had its calls settled there.
pub fn after_desk(alloc: Global, disk: MemDisk, desk: &mut Caller) -> Option<MemDisk> {
    match book_of(alloc, disk) {
        Some(mut book) => {
            desk.settle_all(alloc, &mut book);
            Some(book.close())
        }
        None => None,
    }
}

/// A disk that holds the same bytes, whose call of this number fails; with 0 none does.
pub fn failing(alloc: Global, disk: &MemDisk, call: u64) -> Option<MemDisk> {
    match disk_with(alloc, disk.bytes(), &[call], 0) {
        Ok(failing) => Some(failing),
        Err(_) => None,
    }
}
