//! The ties of the stripes that a call has taken, and the counts of all stripes that they are held
//! against.

ghost use Rattle.std.specs.Prelude.{◌≡◌, ◌+◌, ◌<◌, Some, None};
ghost use Rattle.cf_turns.specs.States.{PassState};
ghost use Rattle.cf_model.specs.Common.{entry_touches};
ghost use Rattle.cf_turns.specs.Touching.{touch_count};
ghost use Rattle.cf_hall_names.specs.Following.{Follows, AllFollow, AreCounts, AreCountsWith, AreOwn, AreTaken};

use crate::names::{City, OfStripe};
use cf_turns::{Recorder, Tie, Turns};
use std::marker::Model;
use std::sync::ledger::Book;

/// The tie of each stripe, where the stripe was taken.
#[derive(Drop)]
pub struct Ties<N: City> {
    pub first: Option<Tie<OfStripe<N, 0>>>,
    pub second: Option<Tie<OfStripe<N, 1>>>,
    pub third: Option<Tie<OfStripe<N, 2>>>,
    pub fourth: Option<Tie<OfStripe<N, 3>>>,
    pub fifth: Option<Tie<OfStripe<N, 4>>>,
    pub sixth: Option<Tie<OfStripe<N, 5>>>,
    pub seventh: Option<Tie<OfStripe<N, 6>>>,
    pub eighth: Option<Tie<OfStripe<N, 7>>>,
}

impl<N: City> Model for Ties<N> {
    ghost use Rattle.std.specs.Prelude.{List, [], ◌∷◌, Option};
    ghost use Rattle.cf_turns.specs.States.{PassState};

    ghost Value = { List (Option PassState) };

    ghost view = { λ t. t.first ∷ t.second ∷ t.third ∷ t.fourth ∷ t.fifth ∷ t.sixth ∷ t.seventh
        ∷ t.eighth ∷ [] };
}

/// How many entries touch each stripe.
#[derive(Drop)]
pub struct Counts<N: City> {
    pub first: Book<OfStripe<N, 0>>,
    pub second: Book<OfStripe<N, 1>>,
    pub third: Book<OfStripe<N, 2>>,
    pub fourth: Book<OfStripe<N, 3>>,
    pub fifth: Book<OfStripe<N, 4>>,
    pub sixth: Book<OfStripe<N, 5>>,
    pub seventh: Book<OfStripe<N, 6>>,
    pub eighth: Book<OfStripe<N, 7>>,
}

impl<N: City> Model for Counts<N> {
    ghost use Rattle.std.specs.Prelude.{List, [], ◌∷◌, ℕ};

    ghost Value = { List ℕ };

    ghost view = { λ c. c.first.total ∷ c.second.total ∷ c.third.total ∷ c.fourth.total
        ∷ c.fifth.total ∷ c.sixth.total ∷ c.seventh.total ∷ c.eighth.total ∷ [] };
}

/// The tie of a stripe that was taken sees the whole list.
fn follow<N: City, const K: usize>(
    tie: &mut Option<Tie<OfStripe<N, K>>>,
    turns: &Turns,
    recorder: &mut Recorder,
    count: &mut Book<OfStripe<N, K>>,
    more: u64,
)
    requires turns { turns.now ≡ N.table }
    requires recorder { recorder.old.table ≡ N.table }
    requires tie { (p : PassState) → tie.old ≡ Some p → p.table ≡ N.table }
    requires total { count.old.total + more
        ≡ touch_count (entry_touches N.plan K) recorder.old.list }
    requires away { tie.old ≡ None → more ≡ 0 }
    ensures total { count.new.total ≡ touch_count (entry_touches N.plan K) recorder.old.list }
    ensures list { recorder.new.list ≡ recorder.old.list }
    ensures table { recorder.new.table ≡ N.table }
    ensures recorder { recorder.new ≡ record recorder.old { floor = recorder.new.floor } }
    ensures tie { Follows (entry_touches N.plan K) more tie.old recorder.old.list tie.new }
{
    if let Some(tie) = tie {
        tie.catch_up(turns, recorder, count, more);
    }
}

/// The ties of all stripes that were taken see the whole list, and the counts are those of the
/// list. So many entries of it aren't counted yet, stripe by stripe.
pub fn follow_all<N: City>(
    ties: &mut Ties<N>,
    turns: &Turns,
    recorder: &mut Recorder,
    counts: &mut Counts<N>,
    more: &[u64; 8],
)
    requires own { (turns.now ≡ N.table) × (recorder.old.table ≡ N.table) }
    requires ties { AreOwn N.table ties.old }
    requires totals { AreCountsWith N.plan recorder.old.list counts.old more.now }
    requires away { AreTaken ties.old more.now }
    ensures totals { AreCounts N.plan recorder.old.list counts.new }
    ensures recorder { recorder.new ≡ record recorder.old { floor = recorder.new.floor } }
    ensures ties { AllFollow N.plan more.now ties.old recorder.old.list ties.new }
{
    follow(&mut ties.first, turns, recorder, &mut counts.first, more[0]);
    follow(
        &mut ties.second,
        turns,
        recorder,
        &mut counts.second,
        more[1],
    );
    follow(&mut ties.third, turns, recorder, &mut counts.third, more[2]);
    follow(
        &mut ties.fourth,
        turns,
        recorder,
        &mut counts.fourth,
        more[3],
    );
    follow(&mut ties.fifth, turns, recorder, &mut counts.fifth, more[4]);
    follow(&mut ties.sixth, turns, recorder, &mut counts.sixth, more[5]);
    follow(
        &mut ties.seventh,
        turns,
        recorder,
        &mut counts.seventh,
        more[6],
    );
    follow(
        &mut ties.eighth,
        turns,
        recorder,
        &mut counts.eighth,
        more[7],
    );
}
