//! What a caller has seen of the list.

ghost use Rattle.std.specs.Prelude.{◌≡◌, ◌+◌, ◌≤◌, length};
ghost use mathlib.Core.List.{IsPrefix};
ghost use Rattle.cf_turns.specs.Lists.{longer};

use crate::recorder::Recorder;
use crate::rule::{AskLoad, AskSplit, LearnJoin, LearnLoad};
use crate::turns::{Turns, ViewSeat};
use std::marker::Model;

/// A caller's own beginning of the list, with the places of its accepted calls, its calls that were
/// answered by a fault of the disk, and their count.
#[derive(Drop)]
pub struct Pass {
    pub(crate) seat: ViewSeat,
    pub(crate) len: u64,
    pub(crate) accepted: u64,
    pub(crate) faults: u64,
}

impl Model for Pass {
    ghost use Rattle.cf_turns.specs.Seats.{IsPassSeat};
    ghost use Rattle.cf_turns.specs.States.{PassState};

    ghost Value = { PassState };

    ghost view = { λ p. record {
      table = p.seat.table_id;
      number = p.seat.me.0.number;
      seen = p.seat.me.0.list;
      floor = p.seat.me.0.floor;
      reads = p.seat.me.0.reads;
      last_read = p.seat.me.0.last_read;
      places = p.seat.me.0.places;
      faults = p.faults;
      failed = p.seat.me.0.own_failed;
    } };

    ghost invariant = { λ p. IsPassSeat p.seat.me p.len p.accepted };
}

/// The list as it was when the note was taken.
#[derive(Drop)]
pub struct Note {
    pub(crate) seat: ViewSeat,
    pub(crate) len: u64,
}

impl Model for Note {
    ghost use Rattle.std.specs.Prelude.{◌≡◌, [], length};
    ghost use Rattle.cf_turns.specs.States.{NoteState};

    ghost Value = { NoteState };

    ghost view = { λ n.
        record { table = n.seat.table_id; list = n.seat.me.0.list; floor = n.seat.me.0.floor } };

    ghost invariant = { λ n. (n.seat.me.1 ≡ []) × (n.len ≡ length n.seat.me.0.list) };
}

/// How long the list was when it was asked.
#[derive(Drop)]
pub struct Ask {
    pub(crate) seat: ViewSeat,
    pub(crate) value: u64,
}

impl Model for Ask {
    ghost use Rattle.std.specs.Prelude.{◌≡◌, []};
    ghost use Rattle.cf_turns.specs.States.{AskState};

    ghost Value = { AskState };

    ghost view = { λ a. record { table = a.seat.table_id; floor = a.seat.me.0.floor } };

    ghost invariant = { λ a. (a.seat.me.1 ≡ []) × (a.value ≡ a.seat.me.0.floor) };
}

impl Ask {
    /// The length that was read.
    pub fn value(&self) -> u64
        ensures { result ≡ self.now.floor }
    {
        self.value
    }
}

impl Pass {
    /// Sees what the note tells, where that is more, and answers how much it has seen now.
    pub fn learn(&mut self, turns: &Turns, note: Note) -> u64
        requires own { (self.old.table ≡ turns.now) × (note.table ≡ turns.now) }
        ensures pass { self.new ≡ record self.old { seen = longer self.old.seen note.list } }
        ensures old { IsPrefix self.old.seen self.new.seen }
        ensures note { IsPrefix note.list self.new.seen }
        ensures seen { result ≡ length self.new.seen }
    {
        let Note { seat, len } = note;
        let word = &turns.table.shared;
        word.join_seat::<LearnJoin>(&mut self.seat, seat);
        word.load::<LearnLoad>(&mut self.seat, 0);
        if self.len < len {
            self.len = len;
        }
        self.len
    }

    /// How much of the list it has seen.
    pub fn seen(&self) -> u64
        ensures { result ≡ length self.now.seen }
    {
        self.len
    }

    /// Reads how long the list is, which is at least as long as what was seen.
    pub fn ask(&mut self, turns: &Turns) -> Ask
        requires own { self.old.table ≡ turns.now }
        ensures pass { self.new ≡ record self.old {
          floor = result.floor;
          reads = self.old.reads + 1;
          last_read = result.floor;
        } }
        ensures ask { result.table ≡ self.old.table }
        ensures seen { length self.old.seen ≤ result.floor }
    {
        let word = &turns.table.shared;
        let value = word.load::<AskLoad>(&mut self.seat, 0);
        let seat = word.split_seat::<AskSplit>(&mut self.seat);
        Ask { seat, value }
    }

    /// Sees the whole list, which is at least as long as it was when this call began.
    pub fn catch_up(&mut self, turns: &Turns, recorder: &mut Recorder)
        requires own { (self.old.table ≡ turns.now) × (recorder.old.table ≡ turns.now) }
        ensures pass { self.new ≡ record self.old {
          seen = recorder.old.list;
          floor = self.new.last_read;
          reads = self.old.reads + 1;
          last_read = self.new.last_read;
        } }
        ensures recorder { recorder.new ≡ record recorder.old { floor = self.new.last_read } }
        ensures read { self.new.last_read ≤ length recorder.old.list }
        ensures old { IsPrefix self.old.seen recorder.old.list }
    {
        let ask = self.ask(turns);
        recorder.hear(turns, ask);
        let note = recorder.note(turns);
        self.learn(turns, note);
    }
}
