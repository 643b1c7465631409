//! Who adds to the list.

ghost use Rattle.std.specs.Prelude.{◌≡◌, ℕ, ◌+◌, ◌-◌, ◌^◌, ◌<◌, ◌≤◌, [], ◌∷◌, ◌++◌, length, min, true};
ghost use mathlib.Core.List.{IsPrefix};
ghost use Rattle.cf_base.specs.Common.{most_entries};
ghost use Rattle.cf_turns.specs.Lists.{calls_of, count_of, places_of};

use crate::pass::{Ask, Note, Pass};
use crate::receipts::Receipts;
use crate::rule::{
    EndJoin, EndLoad, EndSplit, FailLoad, HearJoin, HearLoad, NoteSplit, NumberJoin, NumberSplit,
    OpenSplit, RecordAdd, Told, ToldFailed,
};
use crate::turns::{Turns, ViewSeat};
use cf_calls::{Call, Entry};
use std::marker::{Brand, Model};
use std::snapshot::Snapshot;

/// Who adds to the list. There is one for each word, so it stands under a lock where several
/// threads add.
#[derive(Drop)]
pub struct Recorder {
    pub(crate) seat: ViewSeat,
    pub(crate) len: u64,
}

impl Model for Recorder {
    ghost use Rattle.cf_turns.specs.Seats.{IsRecorderSeat};
    ghost use Rattle.cf_turns.specs.States.{RecorderState};

    ghost Value = { RecorderState };

    ghost view = { λ r. record {
      table = r.seat.table_id;
      list = r.seat.me.0.list;
      opened = r.seat.me.0.opened;
      ended = r.seat.me.0.ended;
      floor = r.seat.me.0.floor;
      failed = r.seat.me.0.failed;
    } };

    ghost invariant = { λ r. IsRecorderSeat r.seat.me r.len };
}

impl Recorder {
    /// Adds the entry at the end of the list, for this pass, and answers its place there, from 1. A
    /// history has at most 1,500,000 entries (own rule).
    pub fn record(&mut self, turns: &Turns, entry: &Entry, pass: &mut Pass) -> u64
        requires own { (self.old.table ≡ turns.now) × (pass.old.table ≡ turns.now) }
        requires few { length self.old.list < most_entries }
        ensures recorder { self.new
            ≡ record self.old { list = self.old.list ++ (entry.now, pass.old.number) ∷ [] } }
        ensures pass { pass.new ≡ record pass.old { places = pass.old.places ++ result ∷ [] } }
        ensures place { result ≡ length self.new.list }
    {
        let word = &turns.table.shared;
        let lent = word.split_seat::<NumberSplit>(&mut pass.seat);
        word.join_seat::<NumberJoin>(&mut self.seat, lent);
        let place = add::<Brand>(&mut self.seat, turns, entry) + 1;
        let back = word.split_seat::<NumberSplit>(&mut self.seat);
        word.join_seat::<NumberJoin>(&mut pass.seat, back);
        self.len = place;
        pass.accepted += 1;
        place
    }

    /// Notes that a call of this pass was answered by a fault of the disk, and counts it. A count
    /// that stands at its greatest value stays there.
    pub fn fail(&mut self, turns: &Turns, call: Snapshot<Call>, pass: &mut Pass)
        requires own { (self.old.table ≡ turns.now) × (pass.old.table ≡ turns.now) }
        ensures recorder { self.new
            ≡ record self.old { failed = self.old.failed ++ (call.value, pass.old.number) ∷ [] } }
        ensures pass { pass.new ≡ record pass.old {
          faults = min (pass.old.faults + 1) (2 ^ 64 - 1);
          failed = pass.old.failed ++ call.value ∷ [];
        } }
    {
        let word = &turns.table.shared;
        let number = word.split_seat::<NumberSplit>(&mut pass.seat);
        word.join_seat::<NumberJoin>(&mut self.seat, number);
        note_failed::<Brand>(&mut self.seat, turns, call);
        let back = word.split_seat::<NumberSplit>(&mut self.seat);
        word.join_seat::<NumberJoin>(&mut pass.seat, back);
        pass.faults = pass.faults.saturating_add(1);
    }

    /// A note of the whole list.
    pub fn note(&mut self, turns: &Turns) -> Note
        requires own { self.old.table ≡ turns.now }
        ensures recorder { self.new ≡ self.old }
        ensures note { result ≡ record { table = self.old.table; list = self.old.list; floor = 0 } }
    {
        let seat = turns.table.shared.split_seat::<NoteSplit>(&mut self.seat);
        Note {
            seat,
            len: self.len,
        }
    }

    /// A pass with the next number, which has seen nothing.
    pub fn open_pass(&mut self, turns: &Turns) -> Pass
        requires own { self.old.table ≡ turns.now }
        ensures recorder { self.new ≡ record self.old { opened = self.old.opened + 1 } }
        ensures pass { result ≡ record {
          table = self.old.table;
          number = self.old.opened;
          seen = [];
          floor = 0;
          reads = 0;
          last_read = 0;
          places = [];
          faults = 0;
          failed = [];
        } }
    {
        let seat = turns.table.shared.split_seat::<OpenSplit>(&mut self.seat);
        Pass {
            seat,
            len: 0,
            accepted: 0,
            faults: 0,
        }
    }

    /// Ends a pass. What it has seen begins the list, and its places are those of the entries
    /// recorded for it, as its calls that failed are those noted for it. Its number was given out
    /// and was not among those of ended passes. No entry has a number that was not given out.
    pub fn end_pass(&mut self, turns: &Turns, pass: Pass) -> Receipts
        requires own { (self.old.table ≡ turns.now) × (pass.table ≡ turns.now) }
        ensures recorder { self.new
            ≡ record self.old { ended = self.old.ended ++ pass.number ∷ [] } }
        ensures receipts { result
            ≡ record { number = pass.number; places = pass.places; faults = pass.faults } }
        ensures places { pass.places ≡ places_of pass.number self.old.list }
        ensures failed { pass.failed ≡ calls_of pass.number self.old.failed }
        ensures given { pass.number < self.old.opened }
        ensures fresh { count_of pass.number self.old.ended ≡ 0 }
        ensures seen { IsPrefix pass.seen self.old.list }
        ensures recorded { (n : ℕ) → self.old.opened ≤ n → places_of n self.old.list ≡ [] }
    {
        let Pass {
            seat: mut theirs,
            len: _,
            accepted,
            faults,
        } = pass;
        let word = &turns.table.shared;
        let seat = word.split_seat::<EndSplit>(&mut theirs);
        word.join_seat::<EndJoin>(&mut self.seat, theirs);
        word.load::<EndLoad>(&mut self.seat, 0);
        Receipts {
            seat,
            accepted,
            faults,
        }
    }

    /// Answers how long the list is, which is at least what the ask read.
    pub fn hear(&mut self, turns: &Turns, ask: Ask) -> u64
        requires own { (self.old.table ≡ turns.now) × (ask.table ≡ turns.now) }
        ensures recorder { self.new ≡ record self.old { floor = ask.floor } }
        ensures length { result ≡ length self.old.list }
        ensures floor { ask.floor ≤ length self.old.list }
    {
        let Ask { seat, value: _ } = ask;
        let word = &turns.table.shared;
        word.join_seat::<HearJoin>(&mut self.seat, seat);
        word.load::<HearLoad>(&mut self.seat, 0)
    }
}

// Adds the entry, with the number that the seat was lent.
fn add<N: Told>(seat: &mut ViewSeat, turns: &Turns, entry: &Entry) -> u64
    requires told { N.entries ≡ (entry.now, seat.old.me.0.number) ∷ [] }
    requires own { seat.old.table_id ≡ turns.now }
    requires records { seat.old.me.0.records ≡ true }
    requires lent { seat.old.me.0.has_number ≡ true }
    requires few { length seat.old.me.0.list < most_entries }
    ensures own { seat.new.table_id ≡ seat.old.table_id }
    ensures slots { seat.new.me.1 ≡ seat.old.me.1 }
    ensures view { seat.new.me.0 ≡ record seat.old.me.0 {
      list = seat.old.me.0.list ++ (entry.now, seat.old.me.0.number) ∷ [];
      places = seat.old.me.0.places ++ (result + 1) ∷ [];
    } }
    ensures found { result ≡ length seat.old.me.0.list }
    ensures few_places { length seat.old.me.0.places ≤ result }
{
    let _ = entry;
    turns.table.shared.fetch_add::<RecordAdd<N>>(seat, 0, 1)
}

// Notes the call, with the number that the seat was lent.
fn note_failed<N: ToldFailed>(seat: &mut ViewSeat, turns: &Turns, call: Snapshot<Call>)
    requires told { N.calls ≡ (call.value, seat.old.me.0.number) ∷ [] }
    requires own { seat.old.table_id ≡ turns.now }
    requires records { seat.old.me.0.records ≡ true }
    requires lent { seat.old.me.0.has_number ≡ true }
    ensures own { seat.new.table_id ≡ seat.old.table_id }
    ensures slots { seat.new.me.1 ≡ seat.old.me.1 }
    ensures view { seat.new.me.0 ≡ record seat.old.me.0 {
      failed = seat.old.me.0.failed ++ (call.value, seat.old.me.0.number) ∷ [];
      own_failed = seat.old.me.0.own_failed ++ call.value ∷ [];
    } }
{
    let _ = call;
    turns.table.shared.load::<FailLoad<N>>(seat, 0);
}
