ghost use Rattle.std.specs.Prelude.{◌≡◌, ◌<◌, true, false, [], IfOk};

use super::*;
use cf_base::Day;
use cf_calls::{Act, Call, Change, Drawn, Entry, Key, Look, Read};
use std::alloc::{AllocError, Global};
use std::marker::Brand;
use std::snapshot::Snapshot;
use std::sync::ledger::Blank;
use std::test::*;

// An entry of this desk.
fn entry(alloc: Global, desk: u16) -> Result<Entry, AllocError>
    ensures { IfOk result (λ e. e.change.desk ≡ desk) }
{
    let key = Key::new(alloc, "k")?;
    Ok(Entry {
        change: Change {
            desk,
            key,
            on: Day {
                year: 2026,
                month: 7,
                day: 1,
            },
            after: None,
            act: Act::Withdraw(1),
        },
        drawn: Drawn {
            number: 0,
            second: 0,
        },
    })
}

fn crosses_threads<T: Send>(_: &T) {}

fn is_shared<T: Sync>(_: &T) {}

#[test]
fn two_passes_see_one_list(rt: HostRuntime) -> Result<(), Fail> {
    let (turns, mut recorder) = Turns::new(rt.alloc())?;
    let a = entry(rt.alloc(), 1)?;
    let b = entry(rt.alloc(), 2)?;
    let mut first = recorder.open_pass(&turns);
    let mut second = recorder.open_pass(&turns);
    let one = recorder.record(&turns, &a, &mut first);
    let note = recorder.note(&turns);
    let seen_one = first.learn(&turns, note);
    let two = recorder.record(&turns, &b, &mut second);
    let note = recorder.note(&turns);
    let seen_two = second.learn(&turns, note);
    let ask = first.ask(&turns);
    let read = ask.value();
    let heard = recorder.hear(&turns, ask);
    assert_eq!(rt; (one, two), (1, 2));
    assert_eq!(rt; (seen_one, seen_two), (1, 2));
    assert_eq!(rt; (first.seen(), second.seen()), (1, 2));
    assert_eq!(rt; (read, heard), (2, 2));
    let first = recorder.end_pass(&turns, first);
    let second = recorder.end_pass(&turns, second);
    assert_eq!(rt; (first.accepted(), second.accepted()), (1, 1));
    Ok(())
}

#[test]
fn a_fault_reply_counts_and_moves_nothing(rt: HostRuntime) -> Result<(), Fail> {
    let (turns, mut recorder) = Turns::new(rt.alloc())?;
    let mut pass = recorder.open_pass(&turns);
    let call = Call::Look(Look {
        after: None,
        read: Read::Order { order: 1 },
    });
    recorder.fail(&turns, Snapshot::of(&call), &mut pass);
    recorder.fail(&turns, Snapshot::of(&call), &mut pass);
    let ask = pass.ask(&turns);
    let heard = recorder.hear(&turns, ask);
    assert_eq!(rt; (pass.seen(), heard), (0, 0));
    let receipts = recorder.end_pass(&turns, pass);
    assert_eq!(rt; (receipts.accepted(), receipts.faults()), (0, 2));
    Ok(())
}

// A stripe that the first entry touches and the second doesn't.
fn follow<S: Stripe + Send>(
    turns: &Turns,
    recorder: Recorder,
    blank: Blank,
    first: &Entry,
    second: &Entry,
)
    requires own { (recorder.table ≡ turns.now) × (recorder.list ≡ []) }
    requires blank { (blank.name ≡ S.name) × (blank.parts ≡ S.parts) }
    requires ledger { (S.all ≡ S.parts) × (0 < S.all) }
    requires touches { (S.touches first.now ≡ true) × (S.touches second.now ≡ false) }
{
    let mut recorder = recorder;
    let (mut book, share) = blank.open::<S>();
    let mut caller = recorder.open_pass(turns);
    let mut tie = Tie::<S>::new(recorder.open_pass(turns), share);
    recorder.record(turns, first, &mut caller);
    tie.catch_up(turns, &mut recorder, &mut book, 1);
    recorder.record(turns, second, &mut caller);
    tie.catch_up(turns, &mut recorder, &mut book, 0);
    crosses_threads(&tie);
}

#[test]
fn a_tie_follows_the_list(rt: HostRuntime) -> Result<(), Fail> {
    let (turns, recorder) = Turns::new(rt.alloc())?;
    let a = entry(rt.alloc(), 1)?;
    let b = entry(rt.alloc(), 2)?;
    follow::<Brand>(&turns, recorder, Blank::new(1), &a, &b);
    Ok(())
}

#[test]
fn threads_share_the_word_and_hand_on_the_rest(rt: HostRuntime) -> Result<(), Fail> {
    let (turns, mut recorder) = Turns::new(rt.alloc())?;
    is_shared(&turns);
    crosses_threads(&turns);
    crosses_threads(&recorder);
    crosses_threads(&recorder.note(&turns));
    let mut pass = recorder.open_pass(&turns);
    crosses_threads(&pass);
    crosses_threads(&pass.ask(&turns));
    crosses_threads(&recorder.end_pass(&turns, pass));
    Ok(())
}
