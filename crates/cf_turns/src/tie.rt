//! A pass beside a stripe's count of the entries that touch it.

ghost use Rattle.std.specs.Prelude.{◌≡◌, ◌+◌, ◌<◌, ◌≤◌, length};
ghost use Rattle.cf_turns.specs.Touching.{touch_count, GrowsTouched};

use crate::pass::Pass;
use crate::recorder::Recorder;
use crate::turns::Turns;
use std::marker::{Brand, Model};
use std::sync::ledger::{Book, Ledger, Share};

/// The name of a stripe's ledger, which counts the entries that touch the stripe.
pub trait Stripe: Ledger {
    ghost use Rattle.std.specs.Prelude.{ℕ, Bool};
    ghost use Rattle.cf_calls.specs.declared.entry.Entry.{Entry};

    /// All its parts.
    ghost all: { ℕ };

    ghost touches: { Entry → Bool };
}

impl Stripe for Brand {
    ghost use Rattle.std.specs.Prelude.{false};

    ghost all = { 1 };

    ghost touches = { λ _. false };
}

/// A pass, with the stripe's whole share, which is how many entries that touch the stripe the pass
/// has seen. Contracts see the pass.
#[derive(Drop)]
pub struct Tie<S: Stripe> {
    pass: Pass,
    share: Share<S>,
}

impl<S: Stripe> Model for Tie<S> {
    ghost use Rattle.std.specs.Prelude.{◌≡◌};
    ghost use Rattle.cf_turns.specs.States.{PassState};
    ghost use Rattle.cf_turns.specs.Touching.{touch_count};

    ghost Value = { PassState };

    ghost view = { λ t. t.pass };

    ghost invariant = { λ t. (t.share.parts ≡ S.all)
        × (t.share.amount ≡ touch_count S.touches t.pass.seen) };
}

impl<S: Stripe> Tie<S> {
    /// Ties a pass to the whole share.
    pub fn new(pass: Pass, share: Share<S>) -> Tie<S>
        requires parts { share.parts ≡ S.all }
        requires amount { share.amount ≡ touch_count S.touches pass.seen }
        ensures { result ≡ pass }
    {
        Tie { pass, share }
    }

    /// Sees the whole list. Of the entries past what was seen, those that the book doesn't count
    /// yet touch the stripe, and no others.
    pub fn catch_up(
        &mut self,
        turns: &Turns,
        recorder: &mut Recorder,
        book: &mut Book<S>,
        uncounted: u64,
    )
        requires ledger { (S.all ≡ S.parts) × (0 < S.all) }
        requires own { (self.old.table ≡ turns.now) × (recorder.old.table ≡ turns.now) }
        requires total { book.old.total + uncounted ≡ touch_count S.touches recorder.old.list }
        ensures total { book.new.total ≡ touch_count S.touches recorder.old.list }
        ensures recorder { recorder.new ≡ record recorder.old { floor = self.new.last_read } }
        ensures tie { self.new ≡ record self.old {
          seen = recorder.old.list;
          floor = self.new.last_read;
          reads = self.old.reads + 1;
          last_read = self.new.last_read;
        } }
        ensures read { self.new.last_read ≤ length recorder.old.list }
        ensures grows { GrowsTouched S.touches uncounted self.old.seen recorder.old.list }
    {
        book.audit(&mut self.share);
        book.add(&mut self.share, uncounted);
        self.pass.catch_up(turns, recorder);
    }
}
