//! The journal as it was behind its first entries.

ghost use Rattle.std.specs.Prelude.{◌≡◌, ◌+◌, ◌≤◌, IfOk, length};
ghost use Rattle.std.specs.List.{All};
ghost use Rattle.cf_journal.specs.Records.{HasRecord, gate_after};
ghost use Rattle.cf_books_front.specs.Front.{GivesFront, HasAll, HasFirst, front, front_in};
ghost use Rattle.cf_books_front.specs.Whole.{parts};

use crate::whole::{Whole, before, read_whole};
use cf_calls::Entry;
use cf_journal::{OpenRefused, record_len};
use std::alloc::{AllocError, Global};

/// Why a journal has no front with so many entries.
#[derive(Clone, Copy)]
pub enum FrontRefused {
    /// It has fewer entries, this many.
    Fewer { entries: u64 },
    /// Nothing of it is whole.
    Nothing(OpenRefused),
}

/// The place of the gate behind these entries, which stand behind this chart.
#[tactic(auto, unfolding(cf_journal::specs::Records::gate_after))]
fn gate_behind(chart: &[u8], entries: &[Entry]) -> u128
    requires { All HasRecord entries.now }
    ensures { result ≡ gate_after (6 + length chart.now) entries.now }
{
    let mut gate = 6 + chart.len() as u128;
    for entry in entries {
        gate += u128::from(record_len(entry));
    }
    gate
}

/// The bytes up to the gate behind the first `n` entries, with a closed gate there.
fn front_of(alloc: Global, n: u64, whole: &Whole, bytes: &[u8]) -> Result<Vec<u8>, AllocError>
    requires records { All HasRecord whole.now.entries.items }
    requires few { n ≤ length whole.now.entries.items }
    ensures { IfOk result (λ v. v.items ≡ front n (parts whole.now) bytes.now) }
{
    let entries = &whole.entries.as_slice()[..n as usize];
    let gate = gate_behind(whole.chart.as_slice(), entries);
    before(alloc, gate, bytes)
}

/// A journal's bytes up to the gate behind its first `n` entries, with a closed gate there. No
/// entry further on is judged: it is read to find how many there are. Refused where the journal has
/// fewer entries, or where nothing of it is whole.
pub fn front_with(alloc: Global, n: u64, bytes: &[u8]) -> Result<Vec<u8>, FrontRefused>
    ensures answer { GivesFront result (front_in n bytes.now) }
    ensures first { IfOk result (λ v. HasFirst n bytes.now v.items) }
    ensures all { IfOk result (λ v. HasAll n bytes.now v.items) }
{
    let whole = match read_whole(alloc, bytes) {
        Ok(whole) => whole,
        Err(why) => return Err(FrontRefused::Nothing(why)),
    };
    let entries = whole.entries.len() as u64;
    if n > entries {
        return Err(FrontRefused::Fewer { entries });
    }
    match front_of(alloc, n, &whole, bytes) {
        Ok(front) => Ok(front),
        Err(_) => Err(FrontRefused::Nothing(OpenRefused::NoMemory)),
    }
}
