//! Closing: the passes are ended, one after another.

ghost use Rattle.std.specs.Prelude.{◌≡◌, ◌+◌, ◌<◌, ◌≤◌, ◌++◌, ◌∷◌, [], length, map, All};
ghost use Rattle.std.specs.List.{Contains};
ghost use Rattle.std.specs.Vec.{vec_len, vec_capacity};
ghost use Rattle.cf_model.specs.Common.{Call as CallOf};
ghost use Rattle.cf_hall_names.specs.Lists.{calls_in};
ghost use mathlib.Core.List.{IsPrefix};
ghost use Rattle.cf_hall_names.specs.Closing.{AreApart, Closes, accepted_of, failed_calls, faults_in, receipts_of};
ghost use Rattle.cf_turns.specs.Lists.{calls_of, count_of, places_of};

use crate::pass::HallPass;
use cf_hall_names::{City, Shares, Totals};
use cf_turns::{Receipts, Recorder, Turns};

/// A hall that was closed: the length of its history, and its disk.
#[derive(Drop)]
pub struct Closed<D: Drop> {
    pub length: u64,
    pub disk: D,
}

/// Ends a pass, and keeps its receipts. It takes no memory.
fn end_one<N: City>(
    turns: &Turns,
    recorder: &mut Recorder,
    shares: &mut Shares<N>,
    pass: HallPass<N>,
    receipts: &mut Vec<Receipts>,
)
    requires own { (turns.now ≡ N.table) × (recorder.old.table ≡ N.table) }
    requires room { vec_len receipts.old < vec_capacity receipts.old }
    ensures table { recorder.new.table ≡ recorder.old.table }
    ensures list { recorder.new.list ≡ recorder.old.list }
    ensures ended { recorder.new.ended ≡ recorder.old.ended ++ pass.number ∷ [] }
    ensures fresh { count_of pass.number recorder.old.ended ≡ 0 }
    ensures places { pass.places ≡ places_of pass.number recorder.old.list }
    ensures failed { pass.failed ≡ calls_of pass.number recorder.old.failed }
    ensures noted { recorder.new.failed ≡ recorder.old.failed }
    ensures seen { IsPrefix pass.seen recorder.old.list }
    ensures receipts { receipts.new.items ≡ receipts.old.items ++ receipts_of pass ∷ [] }
    ensures capacity { vec_capacity receipts.new ≡ vec_capacity receipts.old }
    ensures parts { shares.new.parts ≡ shares.old.parts + 1 }
    ensures accepted { shares.new.accepted ≡ shares.old.accepted + length pass.places }
    ensures faulted { shares.old.faulted + pass.faults ≤ shares.new.faulted }
    ensures counted { shares.new.faulted ≡ shares.old.faulted + length pass.failed }
    ensures quiet { pass.faults ≡ 0 → shares.new.faulted ≡ shares.old.faulted }
{
    let HallPass {
        pass,
        shares: theirs,
    } = pass;
    shares.merge(theirs);
    let ended = recorder.end_pass(turns, pass);
    receipts.push_reserved(ended);
}

/// Ends passes, one after another, and keeps their receipts in this order. It takes no memory.
fn end_all<N: City>(
    turns: &Turns,
    recorder: &mut Recorder,
    shares: &mut Shares<N>,
    passes: Vec<HallPass<N>>,
    receipts: &mut Vec<Receipts>,
)
    requires own { (turns.now ≡ N.table) × (recorder.old.table ≡ N.table) }
    requires room { vec_len receipts.old + length passes.items ≤ vec_capacity receipts.old }
    requires apart { AreApart recorder.old.ended }
    ensures list { recorder.new.list ≡ recorder.old.list }
    ensures ended { recorder.new.ended ≡ recorder.old.ended ++ map (λ p. p.number) passes.items }
    ensures apart { AreApart recorder.new.ended }
    ensures receipts { receipts.new.items ≡ receipts.old.items ++ map receipts_of passes.items }
    ensures places { All (λ p. p.places ≡ places_of p.number recorder.old.list) passes.items }
    ensures failed { All (λ p. p.failed ≡ calls_of p.number recorder.old.failed) passes.items }
    ensures noted { recorder.new.failed ≡ recorder.old.failed }
    ensures seen { All (λ p. IsPrefix p.seen recorder.old.list) passes.items }
    ensures parts { shares.new.parts ≡ shares.old.parts + length passes.items }
    ensures accepted { shares.new.accepted
        ≡ shares.old.accepted + accepted_of (map receipts_of passes.items) }
    ensures faulted { shares.old.faulted + faults_in (map receipts_of passes.items)
        ≤ shares.new.faulted }
    ensures counted { shares.new.faulted ≡ shares.old.faulted + length (failed_calls passes.items) }
    ensures quiet { faults_in (map receipts_of passes.items) ≡ 0
        → shares.new.faulted ≡ shares.old.faulted }
{
    for pass in passes {
        end_one(turns, recorder, shares, pass, receipts);
    }
}

/// Ends the pass that the hall kept for itself, and then all others, which have every part of the
/// ledgers but those that are spare. It takes no memory.
pub(crate) fn close_in<N: City>(
    turns: &Turns,
    mut recorder: Recorder,
    mut totals: Totals<N>,
    kept: HallPass<N>,
    mut spare: Shares<N>,
    passes: Vec<HallPass<N>>,
    receipts: &mut Vec<Receipts>,
)
    requires own { (turns.now ≡ N.table) × (recorder.table ≡ N.table) }
    requires total { totals.accepted ≡ length recorder.list }
    requires noted { totals.faulted ≡ length recorder.failed }
    requires none_ended { recorder.ended ≡ [] }
    requires parts { spare.parts + length passes.items ≡ 65535 }
    requires none { (spare.accepted ≡ 0) × (spare.faulted ≡ 0) }
    requires quiet { kept.faults ≡ 0 }
    requires empty { receipts.old.items ≡ [] }
    requires room { vec_len receipts.old + length passes.items ≤ vec_capacity receipts.old }
    ensures receipts { receipts.new.items ≡ map receipts_of passes.items }
    ensures closes { Closes recorder.list (receipts_of kept ∷ map receipts_of passes.items) }
    ensures kept_seen { IsPrefix kept.seen recorder.list }
    ensures seen { All (λ p. IsPrefix p.seen recorder.list) passes.items }
    ensures failed { (c : CallOf) → Contains (calls_in recorder.failed) c
        → Contains (failed_calls passes.items) c }
    ensures faulted { faults_in (map receipts_of passes.items) ≤ totals.faulted }
    ensures quiet { faults_in (map receipts_of passes.items) ≡ 0 → totals.faulted ≡ 0 }
{
    let HallPass {
        pass,
        shares: theirs,
    } = kept;
    spare.merge(theirs);
    let _kept = recorder.end_pass(turns, pass);
    end_all(turns, &mut recorder, &mut spare, passes, receipts);
    totals.audit(&mut spare);
}
