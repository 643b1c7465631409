//! Opening a journal, and what its entries moved.

ghost use Rattle.std.specs.Prelude.{◌≡◌, IfErr, IfOk};
ghost use Rattle.cf_journal_book.specs.Openings.{OpensBook, OpensNone};
ghost use Rattle.cf_office_rows.specs.History.{AddUp, history_rows};
ghost use Rattle.cf_books_ledger.specs.Seen.{rows_in};

use cf_budget::LineChange;
use cf_calls::Entry;
use cf_chart::Chart;
use cf_disk::Disk;
use cf_journal_book::{Book, NotOpened, Watch, open_watched};
use cf_ledger::Post;
use cf_office_rows::{LedgerRow, put_entry};
use cf_registers::{Registers, whole};
use std::alloc::{AllocError, Global};

/// The rows of the entries that were seen.
#[derive(Drop)]
struct Gathered {
    alloc: Global,
    rows: Vec<LedgerRow>,
}

impl Watch for Gathered {
    ghost has_seen = { λ g plan seen. g.rows.items ≡ rows_in plan seen };

    fn see(
        &mut self,
        chart: &Chart,
        place: u64,
        entry: &Entry,
        before: &Registers,
        _changes: &[LineChange],
        fund: &[Post],
        _gov: &[Post],
    ) -> Result<(), AllocError> {
        // A chart says what the rules of an entry rest on.
        whole(chart);
        put_entry(
            self.alloc,
            &mut self.rows,
            chart,
            before,
            place,
            entry,
            fund,
        )
    }
}

/// Opens the book of the journal on a disk, as `cf_journal_book::open` does, with the rows of its
/// entries, oldest first: they add up to the numbers of each control line and fiscal year, and to
/// the revenue of each source.
pub fn open_with_ledger<D: Disk + Drop>(
    alloc: Global,
    disk: D,
) -> Result<(Book<D>, Vec<LedgerRow>), NotOpened<D>>
    ensures ok { IfOk result
        (λ x. OpensBook D.tells D.content D.is_image D.moment D.was_image D.faults disk x.0) }
    ensures rows { IfOk result (λ x. x.1.items ≡ history_rows x.0.plan x.0.entries) }
    ensures sums { IfOk result (λ x. AddUp x.0.plan x.0.entries x.1.items) }
    ensures err { IfErr result (λ e. OpensNone
        D.tells D.content D.is_image D.moment D.was_image D.faults disk e.disk e.why) }
{
    let mut gathered = Gathered {
        alloc,
        rows: Vec::new(alloc),
    };
    match open_watched(alloc, disk, &mut gathered) {
        Ok(book) => Ok((book, gathered.rows)),
        Err(refused) => Err(refused),
    }
}
