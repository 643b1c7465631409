//! An archive: a history kept on a disk, and one call over it with lent line numbers.

ghost use Rattle.std.specs.Prelude.{◌≡◌, ◌++◌, ◌∷◌, [], false, ℕ, List, Ok, Some, None, IsSome, IfSome, IfOk, IfErr, OnOk, OnErr, IsTrue};
ghost use Rattle.cf_model_articulation.specs.Articulates.{AllArticulate};
ghost use Rattle.cf_budget.specs.Tables.{has_line, SameRows, SameStripes};
ghost use Rattle.cf_calls.specs.Common.{IsCallInForm, IsChangeInForm, IsEntryInForm};
ghost use Rattle.cf_calls.specs.declared.call.Call.TheVariants as calls;
ghost use Rattle.cf_calls.specs.declared.reply.Posted.TheVariants as posted;
ghost use Rattle.cf_model.specs.Common.{Accept, IsSoundState};
ghost use Rattle.cf_chart.specs.Common.{chart_of};
ghost use Rattle.cf_model_closed.specs.ClosedYears.{ClosedYearsStay};
ghost use Rattle.cf_disk.specs.Moments.{AtEachMoment};
ghost use Rattle.cf_journal.specs.Journal.{IsSettled, Reserves, SamePlace};
ghost use Rattle.cf_model.specs.Step as step;
ghost use Rattle.cf_registers.specs.Lines.{LendsTouched};
ghost use Rattle.cf_registers.specs.Moved.{AreTablesOf};
ghost use Rattle.cf_journal_book.specs.Archives.{given, Grows, IsOwed, LendsCall};
ghost use Rattle.cf_journal_book.specs.Books.{accepts, IsInHand, RecoversNear};
ghost use Rattle.cf_journal_book.specs.DurableState.{state_of};
ghost use Rattle.cf_journal_book.specs.Recovery.{entry_refusal};
ghost use Rattle.cf_journal_book.specs.Settling.{Settles, entry_by};

use crate::readmission::refusal_of;
use crate::writing::write;
use cf_budget::Lines;
use cf_calls::{Act, Body, Call, Change, Drawn, Entry, Posted, Reply, Verdict, entry_of};
use cf_disk::Disk;
use cf_journal::Journal;
use cf_office::{
    History, Prepared, PreparedLines, Rest, apply_rest, judge, refusal_reply, repeat_reply, reserve,
};
use cf_office_looks::look_reply;
use std::alloc::Global;
use std::marker::Model;
use std::snapshot::Snapshot;

/// A history with the journal that keeps it on a disk, and all that is looked up in it but line
/// numbers. Whatever a crash leaves of the disk recovers to the history, or to it and the one entry
/// in doubt.
pub struct Archive<D: Disk + Drop> {
    rest: Rest,
    journal: Journal,
    disk: D,
    // For proofs alone: the bytes that state the chart, and the entry in doubt. Neither has bytes
    // of its own.
    chart: Snapshot<Vec<u8>>,
    doubt: Option<Snapshot<Entry>>,
}

/// Written out, for a derived one is proved anew in each crate that lets such a value go.
impl<D: Disk + Drop> Drop for Archive<D> {
    fn drop(self) {
        let Archive {
            rest: _,
            journal: _,
            disk: _,
            chart: _,
            doubt: _,
        } = self;
    }
}

impl<D: Disk + Drop> Model for Archive<D> {
    ghost use Rattle.cf_journal_book.specs.Books.{IsKept};
    ghost use Rattle.cf_journal_book.specs.DurableState.{DurableBook};
    ghost use Rattle.cf_journal_book.specs.Snapshots.{doubt_of};

    ghost Value = { DurableBook D };

    ghost view = { λ a.
        record {
          plan = a.rest.plan;
          entries = a.rest.entries;
          doubt = doubt_of a.doubt;
          disk = a.disk;
        } };

    ghost invariant = { λ a.
        IsKept D.tells D.is_image a.rest.plan a.rest.entries a.journal a.disk a.chart.value.items
        (doubt_of a.doubt) };
}

/// What a call over an archive came to.
#[derive(Drop)]
pub enum Settled {
    /// The history stays, and this is given.
    Kept(Posted),
    /// An entry was added, and this is replied. Its changes of line numbers are owed to the tables.
    Added(Reply, PreparedLines),
}

/// Takes all memory that an accepted change needs before it is written, and makes its entry ready
/// in the history and in the journal.
fn prepare(
    lines: &mut Lines,
    rest: &mut Rest,
    journal: &mut Journal,
    change: Change,
    drawn: Drawn,
) -> Option<(Prepared, Snapshot<Entry>)>
    requires form { IsChangeInForm change }
    requires accepted { step.verdict_of rest.old.plan rest.old.entries change ≡ Accept drawn }
    requires tables { AreTablesOf rest.old.plan rest.old.entries lines.old }
    requires lent { LendsTouched rest.old.plan (has_line lines.old) change.act }
    ensures plan { rest.new.plan ≡ rest.old.plan }
    ensures entries { rest.new.entries ≡ rest.old.entries }
    ensures rows { SameRows lines.old lines.new }
    ensures stripes { SameStripes lines.old lines.new }
    ensures place { SamePlace journal.old journal.new }
    ensures ready { IfSome result (λ p. rest.new.ready ≡ Some (entry_by change drawn)) }
    ensures owed { IfSome result
        (λ p. IsOwed rest.old.plan rest.old.entries (entry_by change drawn) lines.new p.0.lines) }
    ensures reserved { IfSome result (λ p. Reserves journal.new (entry_by change drawn)) }
    ensures entry { IfSome result (λ p. p.1.value ≡ entry_by change drawn) }
{
    // The state says of its history that it is legal.
    let _legal = rest.entries();
    let entry = entry_of(change, drawn);
    journal.reserve(&entry).ok()?;
    let kept = Snapshot::of(&entry);
    let prepared = reserve(lines, rest, entry).ok()?;
    Some((prepared, kept))
}

/// The act of the entry that is ready.
fn ready_act(rest: &Rest) -> &Act
    requires { IsSome rest.now.ready }
    ensures { IfSome rest.now.ready (λ e. result.now ≡ e.change.act) }
{
    match rest.ready_entry() {
        Some(entry) => &entry.change.act,
        None => unreachable!(),
    }
}

impl<D: Disk + Drop> Archive<D> {
    /// The archive of a history that the journal keeps, with nothing in doubt.
    pub(crate) fn of(rest: Rest, journal: Journal, disk: D, chart: Snapshot<Vec<u8>>) -> Archive<D>
        requires states { chart_of chart.value.items ≡ Ok rest.plan }
        requires settled { IsSettled D.tells D.is_image journal disk chart.value.items
            rest.entries }
        ensures { result ≡ record
            { plan = rest.plan; entries = rest.entries; doubt = None; disk = disk } }
    {
        // The state says of its history that it is legal.
        let _legal = rest.entries();
        Archive {
            rest,
            journal,
            disk,
            chart,
            doubt: None,
        }
    }

    /// The history, and all that is looked up in it but line numbers.
    pub fn rest(&self) -> &Rest
        ensures plan { result.now.plan ≡ self.now.plan }
        ensures entries { result.now.entries ≡ self.now.entries }
    {
        &self.rest
    }

    /// What is given for a call: the step's reply, with the step's next history; or want of memory
    /// or a fault of the disk, which leave the history. The entry of an accepted change stands on
    /// the disk when its reply is given, and its changes of line numbers are owed to the tables,
    /// which have room for them. Only such a change touches the disk, and not where memory was
    /// wanting.
    pub fn settle(&mut self, alloc: Global, lines: &mut Lines, call: Call) -> Settled
        requires form { IsCallInForm call }
        requires tables { AreTablesOf self.old.plan self.old.entries lines.old }
        requires lent { LendsCall self.old.plan (has_line lines.old) call }
        ensures reply { Settles (state_of D.faults self.old) call (given result)
            (state_of D.faults self.new) }
        ensures grows { Grows self.old.plan self.old.entries self.new.entries call lines.new
            result }
        ensures plan { self.new.plan ≡ self.old.plan }
        ensures rows { SameRows lines.old lines.new }
        ensures stripes { SameStripes lines.old lines.new }
        ensures disk { accepts self.old.plan self.old.entries call ≡ false
            → self.new.disk ≡ self.old.disk }
        ensures memory { given result ≡ posted.NoMemory → self.new.disk ≡ self.old.disk }

        // What a crash leaves at any moment of the call.
        ensures any_moment { IsTrue D.tells
            → AtEachMoment D.moment D.was_image self.old.disk self.new.disk
            (RecoversNear self.old.plan self.old.entries
            (IsInHand (state_of D.faults self.old) call)) }
    {
        match call {
            Call::Look(look) => {
                let history = History::new(lines, &self.rest);
                Settled::Kept(look_reply(alloc, &history, &look))
            }
            Call::Change(change) => self.settle_change(lines, change),
        }
    }

    fn settle_change(&mut self, lines: &mut Lines, change: Change) -> Settled
        requires form { IsChangeInForm change }
        requires tables { AreTablesOf self.old.plan self.old.entries lines.old }
        requires lent { LendsTouched self.old.plan (has_line lines.old) change.act }
        ensures reply { Settles (state_of D.faults self.old) (calls.Change change) (given result)
            (state_of D.faults self.new) }
        ensures grows { Grows self.old.plan self.old.entries self.new.entries
            (calls.Change change) lines.new result }
        ensures plan { self.new.plan ≡ self.old.plan }
        ensures rows { SameRows lines.old lines.new }
        ensures stripes { SameStripes lines.old lines.new }
        ensures disk { accepts self.old.plan self.old.entries (calls.Change change) ≡ false
            → self.new.disk ≡ self.old.disk }
        ensures memory { given result ≡ posted.NoMemory → self.new.disk ≡ self.old.disk }
        ensures any_moment { IsTrue D.tells
            → AtEachMoment D.moment D.was_image self.old.disk self.new.disk
            (RecoversNear self.old.plan self.old.entries
            (IsInHand (state_of D.faults self.old) (calls.Change change))) }
    {
        let history = History::new(lines, &self.rest);
        match judge(&history, &change) {
            Verdict::Accept(drawn) => self.accept(lines, change, drawn),
            Verdict::Repeat { was } => Settled::Kept(repeat_reply(&history, was)),
            Verdict::Refuse(refusal) => Settled::Kept(refusal_reply(&history, refusal)),
        }
    }

    /// Appends an entry that was taken from another history. `Err(n)`: the office refuses it with
    /// the number n, which is 0 for a repeat and for other drawn numbers, and nothing changed.
    /// `Ok`: what `settle` gives for its change.
    pub fn admit(&mut self, lines: &mut Lines, entry: Entry) -> Result<Settled, u8>
        requires form { IsEntryInForm entry }
        requires tables { AreTablesOf self.old.plan self.old.entries lines.old }
        requires lent { LendsTouched self.old.plan (has_line lines.old) entry.change.act }
        ensures refused { IfErr result
            (λ n. entry_refusal self.old.plan self.old.entries entry ≡ Some n) }
        ensures same { OnErr result (self.new ≡ self.old) }
        ensures taken { OnOk result (entry_refusal self.old.plan self.old.entries entry ≡ None) }
        ensures reply { IfOk result
            (λ s. Settles (state_of D.faults self.old) (calls.Change entry.change) (given s)
            (state_of D.faults self.new)) }
        ensures grows { IfOk result
            (λ s. Grows self.old.plan self.old.entries self.new.entries
            (calls.Change entry.change) lines.new s) }
        ensures plan { self.new.plan ≡ self.old.plan }
        ensures rows { SameRows lines.old lines.new }
        ensures stripes { SameStripes lines.old lines.new }
        ensures memory { IfOk result
            (λ s. given s ≡ posted.NoMemory → self.new.disk ≡ self.old.disk) }
        ensures any_moment { IsTrue D.tells
            → AtEachMoment D.moment D.was_image self.old.disk self.new.disk
            (RecoversNear self.old.plan self.old.entries
            (IsInHand (state_of D.faults self.old) (calls.Change entry.change))) }
    {
        let history = History::new(lines, &self.rest);
        match refusal_of(&history, &entry) {
            Some(refusal) => Err(refusal),
            None => Ok(self.accept(lines, entry.change, entry.drawn)),
        }
    }

    /// Writes the entry of an accepted change, and adds it.
    fn accept(&mut self, lines: &mut Lines, change: Change, drawn: Drawn) -> Settled
        requires form { IsChangeInForm change }
        requires accepted { step.verdict_of self.old.plan self.old.entries change ≡ Accept drawn }
        requires tables { AreTablesOf self.old.plan self.old.entries lines.old }
        requires lent { LendsTouched self.old.plan (has_line lines.old) change.act }
        ensures reply { Settles (state_of D.faults self.old) (calls.Change change) (given result)
            (state_of D.faults self.new) }
        ensures grows { Grows self.old.plan self.old.entries self.new.entries
            (calls.Change change) lines.new result }
        ensures plan { self.new.plan ≡ self.old.plan }
        ensures rows { SameRows lines.old lines.new }
        ensures stripes { SameStripes lines.old lines.new }
        ensures memory { given result ≡ posted.NoMemory → self.new.disk ≡ self.old.disk }
        ensures any_moment { IsTrue D.tells
            → AtEachMoment D.moment D.was_image self.old.disk self.new.disk
            (RecoversNear self.old.plan self.old.entries
            (IsInHand (state_of D.faults self.old) (calls.Change change))) }
    {
        let Some((prepared, entry)) = prepare(
            lines,
            &mut self.rest,
            &mut self.journal,
            change,
            drawn,
        ) else {
            return Settled::Kept(Posted::NoMemory);
        };
        let Ok(()) = write(
            &mut self.journal,
            &mut self.disk,
            &mut self.doubt,
            ready_act(&self.rest),
            entry,
        ) else {
            return Settled::Kept(Posted::Disk);
        };
        let Prepared { lines: owed, rest } = prepared;
        let made = apply_rest(&mut self.rest, rest);
        let reply = Reply {
            at: self.rest.entries().len() as u64,
            body: Body::Done { made, was: None },
        };
        Settled::Added(reply, owed)
    }

    /// Gives the disk back. The history is sound, no entry of it posts to a closed fiscal year, and
    /// its statements articulate. Whatever a crash leaves of the disk recovers to it, or to it and
    /// the entry in doubt, with which it is sound too.
    pub fn close(self) -> D
        ensures disk { result ≡ self.disk }
        ensures sound { IsSoundState (record { plan = self.plan; entries = self.entries }) }
        ensures doubt_sound { IfSome self.doubt
            (λ e. IsSoundState (record { plan = self.plan; entries = self.entries ++ e ∷ [] })) }
        ensures closed { ClosedYearsStay self.plan self.entries }
        ensures articulates { AllArticulate self.plan self.entries }
        ensures images { IsTrue D.tells → (image : List ℕ) → D.is_image result image
            → RecoversNear self.plan self.entries (λ e. self.doubt ≡ Some e) image }
    {
        let Archive {
            rest,
            journal: _,
            disk,
            chart: _,
            doubt: _,
        } = self;
        let _legal = rest.entries();
        disk
    }
}
