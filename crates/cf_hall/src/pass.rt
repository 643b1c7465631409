//! A caller's pass.

ghost use Rattle.std.specs.Prelude.{◌≡◌, []};
ghost use mathlib.Core.List.{IsPrefix};
ghost use Rattle.cf_turns.specs.Lists.{longer};

use cf_hall_names::{City, Shares};
use cf_turns::{Pass, Recorder, Turns};
use std::marker::Model;

/// A caller's beginning of the hall's history, with its part of the ledgers of accepted calls and
/// of fault replies. Contracts see the pass.
#[derive(Drop)]
pub struct HallPass<N: City> {
    pub(crate) pass: Pass,
    pub(crate) shares: Shares<N>,
}

impl<N: City> Model for HallPass<N> {
    ghost use Rattle.cf_turns.specs.States.{PassState};
    ghost use Rattle.cf_hall.specs.Passes.{IsCounted};

    ghost Value = { PassState };

    ghost view = { λ p. p.pass };

    ghost invariant = { λ p. IsCounted N.table p.pass p.shares };
}

impl<N: City> HallPass<N> {
    pub(crate) fn new(pass: Pass, shares: Shares<N>) -> HallPass<N>
        requires own { pass.table ≡ N.table }
        requires fresh { (pass.places ≡ []) × (pass.faults ≡ 0) × (pass.failed ≡ []) }
        requires shares { shares ≡ record { parts = 1; accepted = 0; faulted = 0 } }
        ensures { result ≡ pass }
    {
        HallPass { pass, shares }
    }

    /// Sees the whole list.
    pub(crate) fn see_all(&mut self, turns: &Turns, recorder: &mut Recorder)
        requires own { (turns.now ≡ N.table) × (recorder.old.table ≡ N.table) }
        ensures recorder { recorder.new ≡ recorder.old }
        ensures pass { self.new
            ≡ record self.old { seen = longer self.old.seen recorder.old.list } }
        ensures seen { IsPrefix self.old.seen self.new.seen }
    {
        let note = recorder.note(turns);
        self.pass.learn(turns, note);
    }
}
