//! What is said of a payload: the entry that begins it, or the offset of the first faulty field.

ghost use Rattle.cf_calls.specs.Common.{IsEntryInForm};

use crate::lines::tell_change;
use crate::page::Page;
use cf_calls::Entry;
use cf_codec::{CodecFault, CodecRefused, payload_len, read_entry, write_entry};
use std::alloc::Global;

/// Whether an entry's payload has this length and is written as these bytes.
fn is_written_so(alloc: Global, entry: &Entry, bytes: &[u8]) -> bool
    requires { IsEntryInForm entry.now }
{
    let mut out = Vec::new(alloc);
    let is_written = write_entry(entry, &mut out).is_ok();
    is_written && out.as_slice() == bytes && payload_len(entry) == bytes.len() as u64
}

/// Appends an entry's change with its drawn numbers and its length, where it is written again as it
/// was read.
fn tell_entry(page: &mut Page, alloc: Global, entry: &Entry, length: usize, bytes: &[u8])
    requires { IsEntryInForm entry.now }
{
    let (payload, _) = bytes.split_at(length.min(bytes.len()));
    if is_written_so(alloc, entry, payload) {
        let drawn = entry.drawn;
        tell_change(page, &entry.change);
        page.put_numbers(
            " # # of #",
            &[drawn.number as i128, drawn.second as i128, length as i128],
        );
    } else {
        page.put("written otherwise");
    }
}

/// Writes an entry's payload behind a byte 7 in so much room, and says how much room there then is,
/// the first byte, and whether the bytes that follow are the payload's.
fn tell_room(page: &mut Page, entry: &Entry, bytes: &[u8], out: &mut Vec<u8>)
    requires { IsEntryInForm entry.now }
{
    let is_written = out.push(7).is_ok() && write_entry(entry, out).is_ok();
    let first = out.first().copied().unwrap_or(0);
    let is_payload = out.get(1..) == Some(bytes);
    page.put(if is_written {
        "written: true"
    } else {
        "written: false"
    });
    page.put_numbers(
        ", room: #, first byte: #, then the payload: ",
        &[out.capacity() as i128, first as i128],
    );
    page.put(if is_payload { "true" } else { "false" });
}

/// Tells how an entry is written to a list with so much room.
fn tell_in_room(page: &mut Page, alloc: Global, entry: &Entry, bytes: &[u8], room: usize)
    requires { IsEntryInForm entry.now }
{
    match Vec::with_capacity(alloc, room) {
        Ok(mut out) => tell_room(page, entry, bytes, &mut out),
        Err(_) => page.note(false),
    }
}

fn tell_refused(page: &mut Page, refused: CodecRefused) {
    match refused {
        CodecRefused::Fault(CodecFault { offset }) => {
            page.put_numbers("fault #", &[offset as i128]);
        }
        CodecRefused::NoMemory => page.note(false),
    }
}

/// Appends the entry that a payload begins with in a journal of this version, or the offset of the
/// fault.
pub fn tell_payload(page: &mut Page, alloc: Global, bytes: &[u8], version: u8) {
    page.put("  ");
    match read_entry(alloc, bytes, version) {
        Ok((entry, length)) => tell_entry(page, alloc, &entry, length, bytes),
        Err(refused) => tell_refused(page, refused),
    }
    page.put("\n");
}

/// Appends what writing the entry of a payload leaves of so much room, or the offset of the fault.
pub fn tell_written(page: &mut Page, alloc: Global, bytes: &[u8], room: usize) {
    page.put("  ");
    match read_entry(alloc, bytes, 2) {
        Ok((entry, _)) => tell_in_room(page, alloc, &entry, bytes, room),
        Err(refused) => tell_refused(page, refused),
    }
    page.put("\n");
}
