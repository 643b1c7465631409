//! Payloads of records.

ghost use Rattle.std.specs.Prelude.{IfOk};
ghost use Rattle.cf_calls.specs.Common.{IsEntryInForm};
ghost use Rattle.cf_journal_stream.specs.Readings.{IsCompared, IsRead};

use cf_calls::Entry;
use cf_codec::{CodecRefused, NoMemory, payload_len, read_entry, write_entry};
use std::alloc::Global;

/// The version of the grammar of a stream's payloads.
const VERSION: u8 = 2;

/// The entry whose payload is exactly this text; `None` where it is that of none.
pub fn read_payload(alloc: Global, text: &[u8]) -> Result<Option<Entry>, NoMemory>
    ensures { IfOk result (IsRead text.now) }
{
    match read_entry(alloc, text, VERSION) {
        Ok((entry, len)) if len == text.len() => Ok(Some(entry)),
        Ok(_) | Err(CodecRefused::Fault(_)) => Ok(None),
        Err(CodecRefused::NoMemory) => Err(NoMemory),
    }
}

/// Whether a text is the payload of an entry, which is written to `own` for that.
pub fn is_payload(entry: &Entry, text: &[u8], own: &mut Vec<u8>) -> Result<bool, NoMemory>
    requires { IsEntryInForm entry.now }
    ensures { IfOk result (IsCompared text.now entry.now) }
{
    if payload_len(entry) != text.len() as u64 {
        return Ok(false);
    }
    own.clear();
    write_entry(entry, own)?;
    Ok(own.as_slice() == text)
}
