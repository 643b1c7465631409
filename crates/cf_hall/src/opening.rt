//! Opening a hall over an opened book: the entries of its journal are recorded for a pass of the
//! hall's own, and every stripe sees them.

ghost use Rattle.std.specs.Prelude.{◌≡◌, ◌+◌, ◌<◌, ◌≤◌, ◌++◌, ◌∷◌, ℕ, [], length, IfOk};
ghost use Rattle.std.specs.List.{count_by};
ghost use Rattle.cf_base.specs.Common.{most_entries};
ghost use Rattle.cf_model.specs.Common.{IsLegal, entry_touches};
ghost use Rattle.cf_hall_names.specs.Closing.{HasFirst};
ghost use Rattle.cf_hall_names.specs.Lists.{entries_of, tie_at, total_at};
ghost use Rattle.cf_hall.specs.OpeningNames.{name_at, part_at, first_recorder, HasSeen};
ghost use Rattle.cf_hall.specs.Recordings.{SameRecorder};

use crate::pass::HallPass;
use crate::recording::{Recording, touched};
use cf_calls::Entry;
use cf_chart::Chart;
use cf_hall_names::{City, Counts, OfStripe, Ties, Totals, follow_all};
use cf_turns::{Recorder, Tie, Turns};
use std::alloc::{AllocError, Global};
use std::sync::ledger::{Blank, Book as Count};

/// The ledgers of the eight stripes, before they have names.
#[derive(Drop)]
pub struct Blanks {
    pub first: Blank,
    pub second: Blank,
    pub third: Blank,
    pub fourth: Blank,
    pub fifth: Blank,
    pub sixth: Blank,
    pub seventh: Blank,
    pub eighth: Blank,
}

/// What a hall is opened with: its word, and its ledgers. It is made first; the one call that
/// opens, uses and closes the hall then picks the hall's names from it.
#[derive(Drop)]
pub struct Opening {
    pub turns: Turns,
    pub recorder: Recorder,
    pub stripes: Blanks,
    pub accepted: Blank,
    pub faulted: Blank,
    ghost fresh: { recorder ≡ first_recorder turns },
    ghost ones: { (k : ℕ) → k < 8 → part_at stripes k ≡ 1 },
    ghost parts: { (accepted.parts ≡ 65536) × (faulted.parts ≡ 65536) },
}

impl Opening {
    /// The word of an empty list, and ledgers that count nothing.
    pub fn new(alloc: Global) -> Result<Opening, AllocError>
        ensures fresh { IfOk result (λ o. o.recorder ≡ first_recorder o.turns) }
        ensures ones { IfOk result (λ o. (k : ℕ) → k < 8 → part_at o.stripes k ≡ 1) }
        ensures parts { IfOk result (λ o. (o.accepted.parts ≡ 65536) × (o.faulted.parts ≡ 65536)) }
    {
        let (turns, recorder) = Turns::new(alloc)?;
        Ok(Opening {
            turns,
            recorder,
            stripes: Blanks {
                first: Blank::new(1),
                second: Blank::new(1),
                third: Blank::new(1),
                fourth: Blank::new(1),
                fifth: Blank::new(1),
                sixth: Blank::new(1),
                seventh: Blank::new(1),
                eighth: Blank::new(1),
            },
            accepted: Blank::new(65536),
            faulted: Blank::new(65536),
        })
    }
}

/// The ledger of a stripe, and a tie that has seen nothing.
fn open_tie<N: City, const K: usize>(
    turns: &Turns,
    recorder: &mut Recorder,
    blank: Blank,
) -> (Count<OfStripe<N, K>>, Tie<OfStripe<N, K>>)
    requires own { (turns.now ≡ N.table) × (recorder.old.table ≡ N.table) }
    requires blank { (blank.name ≡ N.stripes K) × (blank.parts ≡ 1) }
    ensures table { recorder.new.table ≡ N.table }
    ensures recorder { recorder.new ≡ record recorder.old { opened = recorder.old.opened + 1 } }
    ensures count { result.0.total ≡ 0 }
    ensures tie { (result.1.table ≡ N.table) × (result.1.seen ≡ []) }
{
    let (count, share) = blank.open::<OfStripe<N, K>>();
    let pass = recorder.open_pass(turns);
    (count, Tie::new(pass, share))
}

/// The ledgers of all stripes, and their ties, which have seen nothing.
pub(crate) fn open_ties<N: City>(
    turns: &Turns,
    recorder: &mut Recorder,
    blanks: Blanks,
) -> (Counts<N>, Ties<N>)
    requires own { (turns.now ≡ N.table) × (recorder.old.table ≡ N.table) }
    requires names { (k : ℕ) → k < 8 → name_at blanks k ≡ N.stripes k }
    requires parts { (k : ℕ) → k < 8 → part_at blanks k ≡ 1 }
    ensures recorder { (recorder.new.table ≡ recorder.old.table)
        × (recorder.new.list ≡ recorder.old.list) × (recorder.new.ended ≡ recorder.old.ended)
        × (recorder.new.failed ≡ recorder.old.failed) }
    ensures counts { (k : ℕ) → k < 8 → total_at result.0 k ≡ 0 }
    ensures ties { (k : ℕ) → k < 8 → HasSeen N.table [] (tie_at result.1 k) }
{
    let (first_count, first) = open_tie(turns, recorder, blanks.first);
    let (second_count, second) = open_tie(turns, recorder, blanks.second);
    let (third_count, third) = open_tie(turns, recorder, blanks.third);
    let (fourth_count, fourth) = open_tie(turns, recorder, blanks.fourth);
    let (fifth_count, fifth) = open_tie(turns, recorder, blanks.fifth);
    let (sixth_count, sixth) = open_tie(turns, recorder, blanks.sixth);
    let (seventh_count, seventh) = open_tie(turns, recorder, blanks.seventh);
    let (eighth_count, eighth) = open_tie(turns, recorder, blanks.eighth);
    let counts = Counts {
        first: first_count,
        second: second_count,
        third: third_count,
        fourth: fourth_count,
        fifth: fifth_count,
        sixth: sixth_count,
        seventh: seventh_count,
        eighth: eighth_count,
    };
    let ties = Ties {
        first: Some(first),
        second: Some(second),
        third: Some(third),
        fourth: Some(fourth),
        fifth: Some(fifth),
        sixth: Some(sixth),
        seventh: Some(seventh),
        eighth: Some(eighth),
    };
    (counts, ties)
}

/// Records an entry for a pass, as an accepted call of it.
fn record_one<N: City>(
    entry: &Entry,
    turns: &Turns,
    recorder: &mut Recorder,
    totals: &mut Totals<N>,
    pass: &mut HallPass<N>,
)
    requires own { (turns.now ≡ N.table) × (recorder.old.table ≡ N.table) }
    requires few { length recorder.old.list < most_entries }
    ensures list { recorder.new.list ≡ recorder.old.list ++ (entry.now, pass.old.number) ∷ [] }
    ensures recorder { SameRecorder recorder.old recorder.new }
    ensures totals { totals.new ≡ record totals.old { accepted = totals.old.accepted + 1 } }
    ensures places { pass.new.places ≡ pass.old.places ++ (length recorder.old.list + 1) ∷ [] }
    ensures seen { pass.new.seen ≡ pass.old.seen }
    ensures faults { (pass.new.faults ≡ pass.old.faults) × (pass.new.failed ≡ pass.old.failed) }
{
    recorder.record(turns, entry, &mut pass.pass);
    totals.accept(&mut pass.shares);
}

/// Records the entries of a journal for a pass, one after another. The pass sees them then.
pub(crate) fn record_all<N: City>(
    entries: &[Entry],
    turns: &Turns,
    recorder: &mut Recorder,
    totals: &mut Totals<N>,
    pass: &mut HallPass<N>,
)
    requires own { (turns.now ≡ N.table) × (recorder.old.table ≡ N.table) }
    requires empty { recorder.old.list ≡ [] }
    requires few { length entries.now ≤ most_entries }
    requires fresh { (pass.old.seen ≡ []) × (pass.old.places ≡ []) }
    ensures list { entries_of recorder.new.list ≡ entries.now }
    ensures recorder { SameRecorder recorder.old recorder.new }
    ensures totals { totals.new
        ≡ record totals.old { accepted = totals.old.accepted + length entries.now } }
    ensures places { HasFirst (length entries.now) pass.new.places }
    ensures seen { pass.new.seen ≡ recorder.new.list }
    ensures faults { (pass.new.faults ≡ pass.old.faults) × (pass.new.failed ≡ pass.old.failed) }
{
    for entry in entries {
        record_one(entry, turns, recorder, totals, pass);
    }
    pass.see_all(turns, recorder);
}

/// Adds counts to counts, stripe by stripe.
fn add_all(counts: &mut [u64; 8], more: &[u64; 8])
    requires { (k : ℕ) → k < 8
        → (total_at counts.old k ≤ most_entries) × (total_at more.now k ≤ 1) }
    ensures { (k : ℕ) → k < 8
        → total_at counts.new k ≡ total_at counts.old k + total_at more.now k }
{
    for k in 0..8 {
        counts[k] += more[k];
    }
}

/// How many entries touch each stripe.
fn count_touched(chart: &Chart, entries: &[Entry]) -> [u64; 8]
    requires { length entries.now ≤ most_entries }
    ensures { (k : ℕ) → k < 8
        → total_at result k ≡ count_by (entry_touches chart.now k) entries.now }
{
    let mut counts = [0; 8];
    for entry in entries {
        add_all(&mut counts, &touched(chart, &entry.change.act));
    }
    counts
}

/// All stripes see the recorder's list, whose entries these are, and it is counted.
pub(crate) fn begin<N: City>(
    turns: &Turns,
    chart: &Chart,
    entries: &[Entry],
    mut recorder: Recorder,
    mut counts: Counts<N>,
    ties: &mut Ties<N>,
) -> Recording<N>
    requires own { (turns.now ≡ N.table) × (recorder.table ≡ N.table) }
    requires chart { chart.now ≡ N.plan }
    requires few { length entries.now ≤ most_entries }
    requires list { entries_of recorder.list ≡ entries.now }
    requires legal { IsLegal N.plan entries.now }
    requires counts { (k : ℕ) → k < 8 → total_at counts k ≡ 0 }
    requires ties { (k : ℕ) → k < 8 → HasSeen N.table [] (tie_at ties.old k) }
    ensures recorder { SameRecorder recorder result }
    ensures list { result.list ≡ recorder.list }
    ensures ties { (k : ℕ) → k < 8 → HasSeen N.table recorder.list (tie_at ties.new k) }
{
    let more = count_touched(chart, entries);
    follow_all(ties, turns, &mut recorder, &mut counts, &more);
    Recording { recorder, counts }
}
