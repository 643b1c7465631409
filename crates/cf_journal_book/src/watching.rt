//! Who watches a journal being opened.

ghost use Rattle.std.specs.Prelude.{⊤, ◌++◌, ◌∷◌, [], List, OnOk};
ghost use Rattle.cf_journal_book.specs.Watching.{Posted, IsNext, all_posted, shown_as};
ghost use Rattle.cf_model.specs.Common.{Entry};
ghost use Rattle.cf_chart.specs.Common.{Plan};

use cf_budget::LineChange;
use cf_calls::Entry;
use cf_chart::Chart;
use cf_ledger::Post;
use cf_registers::Registers;
use std::alloc::AllocError;

/// One who is shown the entries of a journal, entry by entry, while it is opened: each with the
/// registers before it, what it changes of line numbers, and what it posts on both bases.
pub trait Watch {
    /// What was seen under a chart: each entry with the registers before it and its posts, oldest
    /// first.
    ghost has_seen: { Self → Plan → List Posted → Type 0 };

    /// Sees the next entry of a legal history at its place, from 1: the registers before it, its
    /// changes of line numbers (one a line and year), and its posts on the fund basis and on the
    /// government-wide one.
    fn see(
        &mut self,
        chart: &Chart,
        place: u64,
        entry: &Entry,
        before: &Registers,
        changes: &[LineChange],
        fund: &[Post],
        gov: &[Post],
    ) -> Result<(), AllocError>
        requires { (history : List Entry)
            × IsNext chart.now history
            (shown_as place entry.now before.now.registers fund.now gov.now) changes.now }
        ensures { (history : List Entry)
            → has_seen self.old chart.now (all_posted chart.now history)
            → IsNext chart.now history
            (shown_as place entry.now before.now.registers fund.now gov.now) changes.now
            → OnOk result (has_seen self.new chart.now
            (all_posted chart.now history
            ++ shown_as place entry.now before.now.registers fund.now gov.now ∷ [])) };
}

/// Nobody watches.
#[derive(Drop)]
pub(crate) struct Unwatched;

impl Watch for Unwatched {
    ghost has_seen = { λ _ _ _. ⊤ };

    fn see(
        &mut self,
        _chart: &Chart,
        _place: u64,
        _entry: &Entry,
        _before: &Registers,
        _changes: &[LineChange],
        _fund: &[Post],
        _gov: &[Post],
    ) -> Result<(), AllocError> {
        Ok(())
    }
}
