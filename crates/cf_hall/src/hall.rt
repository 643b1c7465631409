//! The hall: what its threads share, and the parts of its ledgers that no pass has yet.

ghost use Rattle.std.specs.Prelude.{◌≡◌, ◌+◌, ◌<◌, ◌≤◌, ℕ, [], length, map, All};
ghost use Rattle.std.specs.Vec.{vec_len, vec_capacity};
ghost use Rattle.cf_hall_names.specs.Closing.{HasFirst, IsFreshPass, receipts_of};
ghost use Rattle.cf_hall_names.specs.Lists.{entries_of};
ghost use Rattle.cf_hall.specs.Endings.{HallEnds};
ghost use Rattle.cf_hall.specs.OpeningNames.{name_at};

use crate::book::HallBook;
use crate::closing::Closed;
use crate::opening::{Opening, begin, open_ties, record_all};
use crate::pass::HallPass;
use crate::shared::Shared;
use crate::taken::Taken;
use cf_chart::Chart;
use cf_disk::Disk;
use cf_hall_names::{City, Shares, Totals};
use cf_journal_book::Book;
use cf_turns::Receipts;

/// A hall that is open. What threads share stands apart from the rest, which its owner keeps.
#[derive(Drop)]
pub struct Hall<N: City, D: Disk + Drop> {
    pub shared: Shared<N, D>,
    /// The pass of the entries that the journal held at opening.
    pub(crate) kept: HallPass<N>,
    pub(crate) spare: Shares<N>,
    pub(crate) entered: u16,
    ghost parts: { spare.parts + entered ≡ 65535 },
    ghost none: { (spare.accepted ≡ 0) × (spare.faulted ≡ 0) },
    ghost quiet: { kept.faults ≡ 0 },
}

impl<N: City, D: Disk + Drop> Hall<N, D> {
    /// Opens a hall over an opened book, with a second copy of its chart. The entries of the book's
    /// history are recorded for a pass that the hall keeps. It takes no memory.
    pub fn open(book: Book<D>, chart: Chart, opening: Opening) -> Hall<N, D>
        requires own { opening.turns ≡ N.table }
        requires stripes { (k : ℕ) → k < 8 → name_at opening.stripes k ≡ N.stripes k }
        requires ledgers { (opening.accepted.name ≡ N.accepted)
            × (opening.faulted.name ≡ N.faulted) }
        requires plan { (book.plan ≡ N.plan) × (chart ≡ N.plan) }
        requires first { length book.entries ≡ N.first }
        requires doubt { book.doubt ≡ N.doubt }
        requires begun { D.moment book.disk ≡ N.begun }
        requires risen { D.faults book.disk ≡ N.risen }
        ensures entered { result.entered ≡ 0 }
        ensures seen { entries_of result.kept.seen ≡ book.entries }
        ensures places { HasFirst (length book.entries) result.kept.places }
    {
        let (lines, archive) = book.into_parts();
        let Opening {
            turns,
            mut recorder,
            stripes,
            accepted,
            faulted,
        } = opening;
        let (counts, mut ties) = open_ties(&turns, &mut recorder, stripes);
        let (mut totals, mut spare) = Totals::open(accepted, faulted);
        let mut kept = HallPass::new(recorder.open_pass(&turns), spare.split_one());
        let entries = archive.rest().entries();
        record_all(entries, &turns, &mut recorder, &mut totals, &mut kept);
        let recording = begin(&turns, &chart, entries, recorder, counts, &mut ties);
        let taken = Taken {
            lines,
            owed: None,
            ties,
        };
        let book = HallBook {
            archive,
            recording,
            totals,
        };
        Hall {
            shared: Shared::new(turns, chart, taken, book),
            kept,
            spare,
            entered: 0,
        }
    }

    /// Opens a pass, which has seen the whole history. It waits for nobody, and takes no memory.
    pub fn enter(&mut self) -> HallPass<N>
        requires { self.old.entered < 65535 }
        ensures entered { self.new.entered ≡ self.old.entered + 1 }
        ensures shared { self.new.shared ≡ self.old.shared }
        ensures kept { self.new.kept ≡ self.old.kept }
        ensures pass { IsFreshPass N.first result }
    {
        let pass = self.shared.open_pass();
        let shares = self.spare.split_one();
        self.entered += 1;
        HallPass::new(pass, shares)
    }

    /// Opens so many passes. It waits for nobody, and takes no memory.
    pub fn enter_all(&mut self, count: usize, passes: &mut Vec<HallPass<N>>)
        requires few { self.old.entered + count ≤ 65535 }
        requires empty { passes.old.items ≡ [] }
        requires room { count ≤ vec_capacity passes.old }
        ensures kept { self.new.kept ≡ self.old.kept }
        ensures entered { self.new.entered ≡ self.old.entered + count }
        ensures many { length passes.new.items ≡ count }
        ensures fresh { All (IsFreshPass N.first) passes.new.items }
        ensures capacity { vec_capacity passes.new ≡ vec_capacity passes.old }
    {
        for _entered in 0..count {
            let pass = self.enter();
            passes.push_reserved(pass);
        }
    }

    /// Ends all passes, which are as many as were entered, and hands the disk back. The receipts of
    /// the passes come in their order. It takes no memory, and waits for nobody.
    pub fn close(self, passes: Vec<HallPass<N>>, receipts: &mut Vec<Receipts>) -> Closed<D>
        requires all { length passes.items ≡ self.entered }
        requires empty { receipts.old.items ≡ [] }
        requires room { vec_len receipts.old + length passes.items ≤ vec_capacity receipts.old }
        ensures receipts { receipts.new.items ≡ map receipts_of passes.items }
        ensures ends { HallEnds D.tells D.is_image D.moment D.was_image D.faults N.plan N.first
            N.doubt N.begun N.risen self.kept passes.items result.length result.disk }
    {
        let Hall {
            shared,
            kept,
            spare,
            entered: _,
        } = self;
        let (turns, book) = shared.into_book();
        book.close(&turns, kept, spare, passes, receipts)
    }
}
