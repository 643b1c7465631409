//! Amounts of money as text: units, a dot, and two digits.
ghost use Rattle.std.specs.Prelude.{◌≡◌, ◌<◌, IfOk, string_bytes};
ghost use Rattle.cf_base.specs.Amounts.{money_of};

use std::alloc::{AllocError, Global};

/// An amount of cents as text: a `-` where it is below zero, the units without leading zeros, a
/// dot, and two digits of the hundredths (own rule). It fails exactly for want of memory.
pub fn money_text(alloc: Global, total: i128) -> Result<String, AllocError>
    ensures { IfOk result (λ t. string_bytes t ≡ money_of total) }
{
    let sign = if total < 0 { "-" } else { "" };
    let size = total.unsigned_abs();
    format!(in alloc; "{sign}{}.{}{}", size / 100, size % 100 / 10, size % 10)
}
