//! Whether an office takes an entry again behind its history.

ghost use Rattle.std.specs.Prelude.{◌≡◌};
ghost use Rattle.cf_budget.specs.Tables.{has_line};
ghost use Rattle.cf_calls.specs.Common.{IsEntryInForm};
ghost use Rattle.cf_registers.specs.Lines.{LendsTouched};
ghost use Rattle.cf_journal_book.specs.Recovery as spec;

use cf_calls::{Drawn, Entry, Verdict};
use cf_office::{History, judge};

/// Whether the office draws these numbers for an entry.
fn is_drawn(entry: &Entry, drawn: Drawn) -> bool
    ensures { result ≡ spec.is_same_drawn drawn entry.now.drawn }
{
    drawn.number == entry.drawn.number && drawn.second == entry.drawn.second
}

/// The number of the refusal of an entry: `None` where the office takes it again.
pub(crate) fn refusal_of(history: &History, entry: &Entry) -> Option<u8>
    requires form { IsEntryInForm entry.now }
    requires lent { LendsTouched history.now.plan
        (has_line history.now.lines) entry.now.change.act }
    ensures { result ≡ spec.entry_refusal history.now.plan history.now.entries entry.now }
{
    match judge(history, &entry.change) {
        Verdict::Accept(drawn) if is_drawn(entry, drawn) => None,
        Verdict::Refuse(refusal) => Some(refusal.number()),
        Verdict::Accept(_) | Verdict::Repeat { .. } => Some(0),
    }
}
