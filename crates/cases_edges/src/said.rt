//! Bytes as text.

use std::alloc::{AllocError, Global};

/// A text with bars for newlines.
pub fn barred(alloc: Global, bytes: &[u8]) -> Result<String, AllocError> {
    let text = str::from_utf8(bytes).unwrap_or("no text");
    text.replace(alloc, "\n", "|")
}

/// A text with newlines for bars and returns for hashes.
pub fn unbarred(alloc: Global, text: &str) -> Result<String, AllocError> {
    let text = text.replace(alloc, "|", "\n")?;
    text.as_str().replace(alloc, "#", "\r")
}

/// A result as a word.
pub fn held(is_ok: bool) -> &'static str {
    if is_ok { "done" } else { "failed" }
}
