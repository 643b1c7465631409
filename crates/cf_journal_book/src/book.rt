//! The book of one thread: an archive, and the line numbers of its history.

ghost use Rattle.std.specs.Prelude.{◌≡◌, ◌++◌, ◌∷◌, [], false, true, length, ℕ, List, Ok, Some, None, IfOk, IfSome, IsTrue, if◌then◌else◌, ◌≤◌, All, IsSome};
ghost use Rattle.cf_base.specs.Common.{Rose, most_entries};
ghost use Rattle.cf_model_articulation.specs.Articulates.{AllArticulate};
ghost use Rattle.cf_budget.specs.Tables.{has_line};
ghost use Rattle.cf_calls.specs.Common.{IsCallInForm, IsEntryInForm, IsYear};
ghost use Rattle.cf_calls.specs.declared.call.Call.TheVariants as calls;
ghost use Rattle.cf_calls.specs.declared.reply.Posted.TheVariants as posted;
ghost use Rattle.cf_chart.specs.Common.{chart_of};
ghost use Rattle.cf_model_closed.specs.ClosedYears.{ClosedYearsStay};
ghost use Rattle.cf_disk.specs.Moments.{AtEachMoment};
ghost use Rattle.cf_journal.specs.Journal.{IsSettled};
ghost use Rattle.cf_model.specs.Report as report;
ghost use Rattle.cf_model.specs.Common.{IsSoundState, IsLegal};
ghost use Rattle.cf_model.specs.Step as step;
ghost use Rattle.cf_registers.specs.Moved.{AreTablesOf};
ghost use Rattle.cf_journal_book.specs.Books.{accepts, is_reply, IsInHand, RecoversNear};
ghost use Rattle.cf_journal_book.specs.Admitting.{Admits};
ghost use Rattle.cf_journal_book.specs.DurableState.{state_of};
ghost use Rattle.cf_journal_book.specs.Recovery.{entry_refusal};
ghost use Rattle.cf_journal_book.specs.Settling.{Settles};

use crate::admission::kept;
use crate::archive::{Archive, Settled};
use cf_base::Kind;
use cf_budget::Lines;
use cf_calls::{Call, Entry, Posted, Row};
use cf_chart::Chart;
use cf_disk::Disk;
use cf_follow::Admission;
use cf_journal::Journal;
use cf_office::{BookOffice, History, apply_lines};
use cf_office_looks::report_rows;
use std::alloc::{AllocError, Global};
use std::marker::Model;
use std::snapshot::Snapshot;

/// An office with the journal that keeps its history on a disk. Whatever a crash leaves of the disk
/// recovers to the history, or to it and the one entry in doubt.
#[derive(Drop)]
pub struct Book<D: Disk + Drop> {
    lines: Lines,
    archive: Archive<D>,
}

impl<D: Disk + Drop> Model for Book<D> {
    ghost use Rattle.cf_journal_book.specs.Archives.{HasAllLines};
    ghost use Rattle.cf_journal_book.specs.DurableState.{DurableBook};

    ghost Value = { DurableBook D };

    ghost view = { λ b. b.archive };

    ghost invariant = { λ b. HasAllLines b.archive.plan b.archive.entries b.lines };
}

impl<D: Disk + Drop> Book<D> {
    /// The book of an office whose journal keeps its history, with nothing in doubt.
    pub(crate) fn of(
        office: BookOffice,
        journal: Journal,
        disk: D,
        chart: Snapshot<Vec<u8>>,
    ) -> Book<D>
        requires states { chart_of chart.value.items ≡ Ok office.plan }
        requires settled { IsSettled D.tells D.is_image journal disk chart.value.items
            office.entries }
        ensures { result ≡ record
            { plan = office.plan; entries = office.entries; doubt = None; disk = disk } }
    {
        let (lines, rest) = office.into_parts();
        let archive = Archive::of(rest, journal, disk, chart);
        Book { lines, archive }
    }

    /// How many entries there are.
    pub fn len(&self) -> u64
        ensures { result ≡ length self.now.entries }
    {
        self.archive.rest().entries().len() as u64
    }

    /// The entries, oldest first: a legal history of at most 1,500,000, each of which is in form.
    pub fn entries(&self) -> &[Entry]
        ensures value { result.now ≡ self.now.entries }
        ensures legal { IsLegal self.now.plan self.now.entries }
        ensures form { All IsEntryInForm result.now }
        ensures few { length self.now.entries ≤ most_entries }
    {
        self.archive.rest().entries()
    }

    /// The chart that the history stands under.
    pub fn chart(&self) -> &Chart
        ensures { result.now ≡ self.now.plan }
    {
        self.archive.rest().chart()
    }

    /// The rows of a statement of a fiscal year from 1971 to 2199. They are read off running
    /// numbers: it takes no longer with more entries. It fails exactly for want of memory.
    pub fn report_rows(&self, alloc: Global, year: u16, kind: Kind) -> Result<Vec<Row>, AllocError>
        requires { IsYear year }
        ensures { IfOk result
            (λ rows. rows.items ≡ report.report_rows self.now.plan self.now.entries year kind) }
    {
        report_rows(alloc, &self.history(), year, kind)
    }

    /// The history, with the numbers of every line, as those who read it ask for it.
    pub(crate) fn history(&self) -> History<'_>
        ensures plan { result.plan ≡ self.now.plan }
        ensures entries { result.entries ≡ self.now.entries }
        ensures whole { (line : ℕ) → has_line result.lines line ≡ true }
    {
        History::new(&self.lines, self.archive.rest())
    }

    /// What is given for a call: the step's reply, with the step's next history; or want of memory
    /// or a fault of the disk, which leave the history. The entry of an accepted change stands on
    /// the disk when its reply is given. Only such a change touches the disk: a look, a repeat, a
    /// refusal and want of memory leave it alone.
    pub fn settle(&mut self, alloc: Global, call: Call) -> Posted
        requires { IsCallInForm call }
        ensures reply { Settles (state_of D.faults self.old) call result
            (state_of D.faults self.new) }
        ensures history { self.new.entries
            ≡ (if is_reply result then step.next_of self.old.plan self.old.entries call
            else self.old.entries) }
        ensures disk { accepts self.old.plan self.old.entries call ≡ false
            → self.new.disk ≡ self.old.disk }
        ensures memory { result ≡ posted.NoMemory → self.new.disk ≡ self.old.disk }
        ensures cause { result ≡ posted.Disk
            → Rose (D.faults self.old.disk) (D.faults self.new.disk) }
        ensures quiet { (result ≡ posted.Disk → ⊥)
            → D.faults self.new.disk ≡ D.faults self.old.disk }

        // What a crash leaves at any moment of the call.
        ensures any_moment { IsTrue D.tells
            → AtEachMoment D.moment D.was_image self.old.disk self.new.disk
            (RecoversNear self.old.plan self.old.entries
            (IsInHand (state_of D.faults self.old) call)) }
    {
        match self.archive.settle(alloc, &mut self.lines, call) {
            Settled::Kept(posted) => posted,
            Settled::Added(reply, owed) => {
                apply_lines(&mut self.lines, owed);
                Posted::Reply(reply)
            }
        }
    }

    /// Takes an entry of another book's history as the next one, where this book would add the
    /// same. Only such an entry touches the disk, and not where memory was wanting.
    pub fn admit(&mut self, entry: Entry) -> Admission
        requires { IsEntryInForm entry }
        ensures admits { Admits (state_of D.faults self.old) entry result
            (state_of D.faults self.new) }
        ensures refused { IsSome (entry_refusal self.old.plan self.old.entries entry)
            → self.new.disk ≡ self.old.disk }
        ensures memory { result ≡ Admission.NoMemory → self.new.disk ≡ self.old.disk }

        // What a crash leaves at any moment of the call.
        ensures any_moment { IsTrue D.tells
            → AtEachMoment D.moment D.was_image self.old.disk self.new.disk
            (RecoversNear self.old.plan self.old.entries
            (IsInHand (state_of D.faults self.old) (calls.Change entry.change))) }
    {
        match self.archive.admit(&mut self.lines, entry) {
            Err(refusal) => Admission::Refused(refusal),
            Ok(Settled::Kept(posted)) => kept(&posted),
            Ok(Settled::Added(_, changes)) => {
                apply_lines(&mut self.lines, changes);
                Admission::Added
            }
        }
    }

    /// The line numbers, which are there for every line, and the archive.
    pub fn into_parts(self) -> (Lines, Archive<D>)
        ensures tables { AreTablesOf self.plan self.entries result.0 }
        ensures whole { (line : ℕ) → has_line result.0 line ≡ true }
        ensures archive { result.1 ≡ self }
    {
        let Book { lines, archive } = self;
        (lines, archive)
    }

    /// Gives the disk back. The history is sound, no entry of it posts to a closed fiscal year, and
    /// its statements articulate. Whatever a crash leaves of the disk recovers to it, or to it and
    /// the entry in doubt, with which it is sound too.
    pub fn close(self) -> D
        ensures disk { result ≡ self.disk }
        ensures sound { IsSoundState (record { plan = self.plan; entries = self.entries }) }
        ensures doubt_sound { IfSome self.doubt
            (λ e. IsSoundState (record { plan = self.plan; entries = self.entries ++ e ∷ [] })) }
        ensures closed { ClosedYearsStay self.plan self.entries }
        ensures articulates { AllArticulate self.plan self.entries }
        ensures images { IsTrue D.tells → (image : List ℕ) → D.is_image result image
            → RecoversNear self.plan self.entries (λ e. self.doubt ≡ Some e) image }
    {
        let Book { archive, .. } = self;
        archive.close()
    }
}
