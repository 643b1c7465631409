//! The book of the hall, which one call at a time has, and what it does for a call.

ghost use Rattle.std.specs.Prelude.{◌≡◌, ◌+◌, ◌≤◌, [], ◌∷◌, ◌++◌, None, IsTrue, false, length, map};
ghost use Rattle.std.specs.Vec.{vec_len, vec_capacity};
ghost use mathlib.Core.List.{IsPrefix};
ghost use Rattle.cf_journal_book.specs.Archives.{LendsCall};
ghost use Rattle.cf_journal_book.specs.Books.{IsInHand, RecoversNear, accepts};
ghost use Rattle.cf_journal_book.specs.DurableState.{state_of};
ghost use Rattle.cf_journal_book.specs.Settling.{Settles};
ghost use Rattle.cf_budget.specs.Tables.{has_line, SameStripes};
ghost use Rattle.cf_calls.specs.Common.{IsCallInForm};
ghost use Rattle.cf_model.specs.Common.{Entry as EntryOf};
ghost use Rattle.cf_calls.specs.declared.reply.Posted.TheVariants as posted;
ghost use Rattle.cf_disk.specs.Moments.{AtEachMoment};
ghost use Rattle.cf_hall_names.specs.Closing.{receipts_of};
ghost use Rattle.cf_hall_names.specs.Lists.{entries_of};
ghost use Rattle.cf_hall_names.specs.Telling.{Tells};
ghost use Rattle.cf_hall.specs.Endings.{HallEnds};
ghost use Rattle.cf_hall.specs.HallState.{ListGrows, WasAdded};
ghost use Rattle.cf_hall.specs.Passes.{Sights, failed_after, faults_by};
ghost use Rattle.cf_hall.specs.Recordings.{HasNoted, SameRecorder};
ghost use Rattle.cf_hall.specs.TakenState.{AllSeen};

use crate::closing::{Closed, close_in};
use crate::pass::HallPass;
use crate::recording::Recording;
use crate::taken::Taken;
use cf_calls::{Call, Posted};
use cf_disk::Disk;
use cf_hall_names::{City, Shares, Totals};
use cf_journal_book::{Archive, Settled};
use cf_office::PreparedLines;
use cf_turns::{Pass, Receipts, Turns};
use std::alloc::Global;
use std::marker::Model;
use std::snapshot::Snapshot;

/// The history with its journal and disk, and all that counts it. Contracts see the archive and the
/// recorder. Whatever a crash leaves of the disk recovers to the history, or to it and the entry in
/// doubt, for that is the archive's promise; and what it left at each moment since the hall was
/// opened, to a front of the history, or to that and one entry: one that was in doubt at opening,
/// or that of a call which was answered by a fault of the disk.
#[derive(Drop)]
pub struct HallBook<N: City, D: Disk + Drop> {
    pub(crate) archive: Archive<D>,
    pub(crate) recording: Recording<N>,
    pub(crate) totals: Totals<N>,
}

impl<N: City, D: Disk + Drop> Model for HallBook<N, D> {
    ghost use Rattle.cf_hall.specs.HallState.{BookState, IsHallBook};

    ghost Value = { BookState D };

    ghost view = { λ b. record { archive = b.archive; recorder = b.recording } };

    ghost invariant = { λ b.
        IsHallBook D.tells D.moment D.was_image D.faults N.plan N.first N.doubt N.begun N.risen
        b.archive b.recording b.totals };
}

/// What the pass sees after an answer that added nothing. A fault reply is noted and counted.
fn see<N: City>(
    turns: &Turns,
    recording: &mut Recording<N>,
    totals: &mut Totals<N>,
    pass: &mut HallPass<N>,
    call: Snapshot<Call>,
    answer: &Posted,
)
    requires own { turns.now ≡ N.table }
    ensures recorder { recording.new
        ≡ record recording.old
        { failed = failed_after recording.old.failed call.value pass.old.number answer.now } }
    ensures totals { totals.new
        ≡ record totals.old { faulted = totals.old.faulted + faults_by answer.now } }
    ensures pass { Sights pass.old recording.old.list call.value answer.now pass.new }
    ensures seen { IsPrefix pass.old.seen pass.new.seen }
{
    match answer {
        Posted::Reply(_) => recording.tell(turns, &mut pass.pass),
        Posted::NoMemory => {}
        Posted::Disk => {
            recording.fail(turns, call, &mut pass.pass);
            totals.fault(&mut pass.shares);
        }
    }
}

/// Records the entry that stands last in the archive for the pass, as an accepted call of it.
fn add_last<N: City, D: Disk + Drop>(
    archive: &Archive<D>,
    turns: &Turns,
    recording: &mut Recording<N>,
    totals: &mut Totals<N>,
    owed: PreparedLines,
    taken: &mut Taken<N>,
    pass: &mut HallPass<N>,
)
    requires own { turns.now ≡ N.table }
    requires plan { archive.now.plan ≡ N.plan }
    requires owes { taken.old.owed ≡ None }
    requires seen { AllSeen recording.old.list taken.old.ties }
    requires added { WasAdded N.plan recording.old.list archive.now.entries taken.old.lines owed }
    ensures list { entries_of recording.new.list ≡ archive.now.entries }
    ensures grows { (e : EntryOf)
        × (recording.new.list ≡ recording.old.list ++ (e, pass.old.number) ∷ []) }
    ensures recorder { SameRecorder recording.old recording.new }
    ensures counted { length recording.new.list ≡ length recording.old.list + 1 }
    ensures seen { AllSeen recording.new.list taken.new.ties }
    ensures lines { taken.new.lines ≡ taken.old.lines }
    ensures totals { totals.new ≡ record totals.old { accepted = totals.old.accepted + 1 } }
    ensures pass { HasNoted pass.old recording.new.list pass.new }
{
    let rest = archive.rest();
    let entries = rest.entries();
    let entry = &entries[entries.len() - 1];
    recording.record(turns, rest.chart(), entry, owed, taken, &mut pass.pass);
    totals.accept(&mut pass.shares);
}

impl<N: City, D: Disk + Drop> HallBook<N, D> {
    /// A pass with the next number, which has seen the whole list.
    pub(crate) fn open_pass(&mut self, turns: &Turns) -> Pass
        requires own { turns.now ≡ N.table }
        ensures table { result.table ≡ N.table }
        ensures seen { N.first ≤ length result.seen }
        ensures fresh { (result.places ≡ []) × (result.faults ≡ 0) × (result.failed ≡ []) }
    {
        let mut pass = self.recording.open_pass(turns);
        self.recording.tell(turns, &mut pass);
        pass
    }

    /// What is done for a call while its caller has the book. The stripes of the call were taken
    /// and owe nothing. After an accepted call they owe its entry's changes, and stand for the
    /// history once those are made. None is lost. Only a change that the rules accept touches the
    /// disk, and not where memory was wanting.
    pub fn settle(
        &mut self,
        alloc: Global,
        turns: &Turns,
        taken: &mut Taken<N>,
        pass: &mut HallPass<N>,
        call: Call,
    ) -> Posted
        requires form { IsCallInForm call }
        requires own { turns.now ≡ N.table }
        requires owes { taken.old.owed ≡ None }
        requires lent { LendsCall N.plan (has_line taken.old.lines) call }
        ensures reply { Settles (state_of D.faults self.old.archive) call result
            (state_of D.faults self.new.archive) }
        ensures list { ListGrows self.old.recorder.list pass.old.number self.new.recorder.list }
        ensures taken { AllSeen self.new.recorder.list taken.new.ties }
        ensures stripes { SameStripes taken.old.lines taken.new.lines }
        ensures pass { Tells N.plan pass.old pass.new call result }
        ensures disk { accepts self.old.archive.plan self.old.archive.entries call ≡ false
            → self.new.archive.disk ≡ self.old.archive.disk }
        ensures memory { result ≡ posted.NoMemory → self.new.archive.disk ≡ self.old.archive.disk }

        // What a crash leaves at any moment of the call.
        ensures any_moment { IsTrue D.tells
            → AtEachMoment D.moment D.was_image self.old.archive.disk self.new.archive.disk
            (RecoversNear self.old.archive.plan self.old.archive.entries
            (IsInHand (state_of D.faults self.old.archive) call)) }
    {
        let said = Snapshot::of(&call);
        self.recording.catch_up(turns, taken, &mut pass.pass);
        match self.archive.settle(alloc, &mut taken.lines, call) {
            Settled::Kept(answer) => {
                see(
                    turns,
                    &mut self.recording,
                    &mut self.totals,
                    pass,
                    said,
                    &answer,
                );
                answer
            }
            Settled::Added(reply, owed) => {
                // A fault alone is noted with the call.
                drop(said);
                add_last(
                    &self.archive,
                    turns,
                    &mut self.recording,
                    &mut self.totals,
                    owed,
                    taken,
                    pass,
                );
                Posted::Reply(reply)
            }
        }
    }

    /// Ends all passes, and hands the disk back. It takes no memory.
    pub(crate) fn close(
        self,
        turns: &Turns,
        kept: HallPass<N>,
        spare: Shares<N>,
        passes: Vec<HallPass<N>>,
        receipts: &mut Vec<Receipts>,
    ) -> Closed<D>
        requires own { turns.now ≡ N.table }
        requires parts { spare.parts + length passes.items ≡ 65535 }
        requires none { (spare.accepted ≡ 0) × (spare.faulted ≡ 0) }
        requires quiet { kept.faults ≡ 0 }
        requires empty { receipts.old.items ≡ [] }
        requires room { vec_len receipts.old + length passes.items ≤ vec_capacity receipts.old }
        ensures receipts { receipts.new.items ≡ map receipts_of passes.items }
        ensures ends { HallEnds D.tells D.is_image D.moment D.was_image D.faults N.plan N.first
            N.doubt N.begun N.risen kept passes.items result.length result.disk }
    {
        let HallBook {
            archive,
            recording,
            totals,
        } = self;
        let length = archive.rest().entries().len() as u64;
        close_in(
            turns,
            recording.recorder,
            totals,
            kept,
            spare,
            passes,
            receipts,
        );
        Closed {
            length,
            disk: archive.close(),
        }
    }
}
