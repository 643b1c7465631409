//! Recording entries: the one list of the hall, with the counts of its entries by stripe.

ghost use Rattle.std.specs.Prelude.{◌≡◌, ◌+◌, ◌-◌, ◌^◌, ◌<◌, ℕ, min, if◌then◌else◌, ◌∷◌, ◌++◌, [], None, Some};
ghost use mathlib.Core.List.{IsPrefix};
ghost use Rattle.cf_budget.specs.Tables.{has_line};
ghost use Rattle.cf_model.specs.Common.{IsLegal};
ghost use Rattle.cf_model.specs.Stripes as spec;
ghost use Rattle.cf_hall_names.specs.Lists.{entries_of, total_at};
ghost use Rattle.cf_registers.specs.Lines.{LendsTouched};
ghost use Rattle.cf_registers.specs.Moved.{AreTablesOf};
ghost use Rattle.cf_turns.specs.Lists.{longer};
ghost use Rattle.cf_hall.specs.Recordings.{HasAsked, HasNoted, SameRecorder};
ghost use Rattle.cf_journal_book.specs.Archives.{IsOwed};
ghost use Rattle.cf_hall.specs.TakenState.{AllSeen};

use crate::taken::Taken;
use cf_calls::{Act, Call, Entry};
use cf_chart::Chart;
use cf_hall_names::{City, Counts, follow_all};
use cf_office::{PreparedLines, touched_stripes};
use cf_turns::{Pass, Recorder, Turns};
use std::marker::Model;
use std::snapshot::Snapshot;

/// No entry is left to be counted of any stripe.
const NONE: [u64; 8] = [0; 8];

/// Who records, with the counts of the entries that touch each stripe. The list is a legal history.
/// Contracts see the recorder.
#[derive(Drop)]
pub struct Recording<N: City> {
    pub(crate) recorder: Recorder,
    pub(crate) counts: Counts<N>,
}

impl<N: City> Model for Recording<N> {
    ghost use Rattle.cf_turns.specs.States.{RecorderState};
    ghost use Rattle.cf_hall.specs.Recordings.{IsRecording};

    ghost Value = { RecorderState };

    ghost view = { λ r. r.recorder };

    ghost invariant = { λ r. IsRecording N.table N.plan r.recorder r.counts };
}

fn one_if(touched: bool) -> u64
    ensures { result ≡ (if touched then 1 else 0) }
{
    if touched { 1 } else { 0 }
}

/// For each stripe 1 where the act touches it, and else 0.
pub(crate) fn touched(chart: &Chart, act: &Act) -> [u64; 8]
    ensures { (k : ℕ) → k < 8
        → total_at result k ≡ (if spec.touches chart.now k act.now then 1 else 0) }
{
    let marks = touched_stripes(chart, act);
    [
        one_if(marks[0]),
        one_if(marks[1]),
        one_if(marks[2]),
        one_if(marks[3]),
        one_if(marks[4]),
        one_if(marks[5]),
        one_if(marks[6]),
        one_if(marks[7]),
    ]
}

impl<N: City> Recording<N> {
    /// A pass with the next number, which has seen nothing.
    pub(crate) fn open_pass(&mut self, turns: &Turns) -> Pass
        requires own { turns.now ≡ N.table }
        ensures table { result.table ≡ N.table }
        ensures fresh { (result.seen ≡ []) × (result.places ≡ []) × (result.faults ≡ 0)
            × (result.failed ≡ []) }
        ensures recorder { self.new ≡ record self.old { opened = self.old.opened + 1 } }
    {
        self.recorder.open_pass(turns)
    }

    /// Begins a call: the pass asks how long the list is, so that no answer is of an older one, and
    /// the stripes that were taken see the whole list. So their tables are those of the history.
    pub(crate) fn catch_up(&mut self, turns: &Turns, taken: &mut Taken<N>, pass: &mut Pass)
        requires own { (turns.now ≡ N.table) × (pass.old.table ≡ N.table) }
        requires owes { taken.old.owed ≡ None }
        ensures recorder { self.new ≡ record self.old { floor = self.new.floor } }
        ensures pass { HasAsked pass.old pass.new self.old.list }
        ensures lines { taken.new.lines ≡ taken.old.lines }
        ensures owes { taken.new.owed ≡ None }
        ensures seen { AllSeen self.old.list taken.new.ties }
        ensures tables { AreTablesOf N.plan (entries_of self.old.list) taken.new.lines }
        ensures legal { IsLegal N.plan (entries_of self.old.list) }
    {
        let ask = pass.ask(turns);
        self.recorder.hear(turns, ask);
        follow_all(
            &mut taken.ties,
            turns,
            &mut self.recorder,
            &mut self.counts,
            &NONE,
        );
    }

    /// The pass sees the whole list.
    pub(crate) fn tell(&mut self, turns: &Turns, pass: &mut Pass)
        requires own { (turns.now ≡ N.table) × (pass.old.table ≡ N.table) }
        ensures recorder { self.new ≡ self.old }
        ensures pass { pass.new ≡ record pass.old { seen = longer pass.old.seen self.old.list } }
        ensures seen { IsPrefix pass.old.seen pass.new.seen }
    {
        let note = self.recorder.note(turns);
        pass.learn(turns, note);
    }

    /// Notes that a call of the pass was answered by a fault of the disk. The pass sees the whole
    /// list.
    pub(crate) fn fail(&mut self, turns: &Turns, call: Snapshot<Call>, pass: &mut Pass)
        requires own { (turns.now ≡ N.table) × (pass.old.table ≡ N.table) }
        ensures recorder { self.new
            ≡ record self.old { failed = self.old.failed ++ (call.value, pass.old.number) ∷ [] } }
        ensures pass { pass.new ≡ record pass.old {
          seen = longer pass.old.seen self.old.list;
          faults = min (pass.old.faults + 1) (2 ^ 64 - 1);
          failed = pass.old.failed ++ call.value ∷ [];
        } }
        ensures seen { IsPrefix pass.old.seen pass.new.seen }
    {
        self.recorder.fail(turns, call, pass);
        self.tell(turns, pass);
    }

    /// Records an accepted entry for a pass, which sees it, as do the stripes that were taken: they
    /// owe its changes.
    pub(crate) fn record(
        &mut self,
        turns: &Turns,
        chart: &Chart,
        entry: &Entry,
        owed: PreparedLines,
        taken: &mut Taken<N>,
        pass: &mut Pass,
    )
        requires own { (turns.now ≡ N.table) × (pass.old.table ≡ N.table) }
        requires chart { chart.now ≡ N.plan }
        requires owes { taken.old.owed ≡ None }
        requires seen { AllSeen self.old.list taken.old.ties }
        requires owed { IsOwed N.plan (entries_of self.old.list) entry.now taken.old.lines owed }
        requires lent { LendsTouched N.plan (has_line taken.old.lines) entry.now.change.act }
        ensures list { self.new.list ≡ self.old.list ++ (entry.now, pass.old.number) ∷ [] }
        ensures recorder { SameRecorder self.old self.new }
        ensures lines { taken.new.lines ≡ taken.old.lines }
        ensures owes { taken.new.owed ≡ Some owed }
        ensures seen { AllSeen self.new.list taken.new.ties }
        ensures pass { HasNoted pass.old self.new.list pass.new }
    {
        self.recorder.record(turns, entry, pass);
        let more = touched(chart, &entry.change.act);
        follow_all(
            &mut taken.ties,
            turns,
            &mut self.recorder,
            &mut self.counts,
            &more,
        );
        taken.owed = Some(owed);
        self.tell(turns, pass);
    }
}
