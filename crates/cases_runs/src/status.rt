//! How a run ended, as text.

use cf_run_status::Status;
use std::alloc::{AllocError, Global};

/// The exit code, and what the program says on standard error.
pub fn brief_text(alloc: Global, status: Status) -> Result<String, AllocError> {
    match status {
        Status::Ok => String::from_str(alloc, "0"),
        Status::Damaged { offset, .. } => {
            format!(in alloc; "{} {} at {offset}", status.code(), status.text())
        }
        _ => format!(in alloc; "{} {}", status.code(), status.text()),
    }
}

/// A length, and the first byte where there is one.
fn file_text(alloc: Global, len: u64, byte: Option<u8>) -> Result<String, AllocError> {
    match byte {
        None => format!(in alloc; ", length {len}"),
        Some(byte) => format!(in alloc; ", length {len}, first byte {byte}"),
    }
}

/// The values of a status that the program doesn't say.
fn values_text(alloc: Global, status: Status) -> Result<String, AllocError> {
    match status {
        Status::ChartRefused { fault } => format!(in alloc; ", {fault}"),
        Status::NotFounded { len, byte } => file_text(alloc, len, byte),
        Status::AlreadyFounded { len, byte } => file_text(alloc, len, Some(byte)),
        Status::Damaged {
            refusal: Some(number),
            ..
        } => format!(in alloc; ", refusal {number}"),
        Status::GrantRefused { fault } => format!(in alloc; ", {fault}"),
        Status::NoShare { sum } => format!(in alloc; ", sum {sum}"),
        Status::OtherChart { at } => format!(in alloc; ", at {at}"),
        Status::Gap { from, length } => format!(in alloc; ", from {from}, length {length}"),
        Status::StreamFault { offset } => format!(in alloc; ", at {offset}"),
        Status::Forked { place } => format!(in alloc; ", place {place}"),
        Status::EntryRefused { place, refusal } => {
            format!(in alloc; ", place {place}, refusal {refusal}")
        }
        _ => Ok(String::new(alloc)),
    }
}

/// The exit code, what the program says on standard error, and the values that it doesn't say.
pub fn whole_text(alloc: Global, status: Status) -> Result<String, AllocError> {
    let mut text = brief_text(alloc, status)?;
    let values = values_text(alloc, status)?;
    text.push_str(values.as_str())?;
    Ok(text)
}
