//! What the threads of a hall share, and how a call is answered there.

ghost use Rattle.std.specs.Prelude.{◌≡◌, ◌≤◌, None, [], length};
ghost use Rattle.cf_calls.specs.Common.{IsCallInForm};
ghost use Rattle.cf_hall_names.specs.Telling.{Tells};

use crate::book::HallBook;
use crate::gate::Gate;
use crate::pass::HallPass;
use crate::places::Places;
use crate::taken::Taken;
use cf_calls::{Call, Posted};
use cf_chart::Chart;
use cf_disk::Disk;
use cf_hall_names::City;
use cf_turns::{Pass, Turns};
use std::alloc::Global;
use std::marker::Model;
use std::sync::{Mutex, Wait};

/// What threads share of a hall: the history word, a copy of the chart, the place of each stripe,
/// and the book. A call holds its stripes while it is answered, and the book only while it is
/// settled.
#[derive(Drop)]
pub struct Shared<N: City, D: Disk + Drop> {
    pub(crate) turns: Turns,
    pub(crate) chart: Chart,
    pub(crate) places: Places<N>,
    pub(crate) book: Mutex<HallBook<N, D>>,
}

impl<N: City, D: Disk + Drop> Model for Shared<N, D> {
    ghost use Rattle.std.specs.Prelude.{◌≡◌};
    ghost use Rattle.cf_hall.specs.HallState.{SharedState};

    ghost Value = { SharedState };

    ghost view = { λ s. record { turns = s.turns; chart = s.chart } };

    ghost invariant = { λ s. (s.turns ≡ N.table) × (s.chart ≡ N.plan) };
}

/// A pass of the book, while no thread has it.
fn open_pass<N: City, D: Disk + Drop>(book: &mut Mutex<HallBook<N, D>>, turns: &Turns) -> Pass
    requires { turns.now ≡ N.table }
    ensures table { result.table ≡ N.table }
    ensures seen { N.first ≤ length result.seen }
    ensures fresh { (result.places ≡ []) × (result.faults ≡ 0) × (result.failed ≡ []) }
{
    book.get_mut().open_pass(turns)
}

impl<N: City, D: Disk + Drop> Shared<N, D> {
    /// A hall that is to be shared. Nothing is owed to its stripes.
    pub(crate) fn new(
        turns: Turns,
        chart: Chart,
        stripes: Taken<N>,
        book: HallBook<N, D>,
    ) -> Shared<N, D>
        requires own { (turns ≡ N.table) × (chart ≡ N.plan) }
        requires owes { stripes.owed ≡ None }
    {
        Shared {
            turns,
            chart,
            places: Places::new(stripes),
            book: Mutex::new(book),
        }
    }

    /// A pass with the next number, which has seen the whole history, while no thread shares the
    /// hall.
    pub(crate) fn open_pass(&mut self) -> Pass
        ensures shared { self.new ≡ self.old }
        ensures table { result.table ≡ N.table }
        ensures seen { N.first ≤ length result.seen }
        ensures fresh { (result.places ≡ []) × (result.faults ≡ 0) × (result.failed ≡ []) }
    {
        open_pass(&mut self.book, &self.turns)
    }

    /// The word and the book, once no thread shares the hall.
    pub(crate) fn into_book(self) -> (Turns, HallBook<N, D>)
        ensures { result.0 ≡ N.table }
    {
        let Shared { turns, book, .. } = self;
        (turns, book.into_inner())
    }

    /// Answers a call, and tells what its pass has seen then. It waits for the stripes of the call
    /// and for the book. The book is given back before the changes of line numbers are made, and
    /// the stripes after that.
    pub fn post<R: Wait, G: Gate>(
        &self,
        rt: &R,
        alloc: Global,
        pass: &mut HallPass<N>,
        gate: &G,
        call: Call,
    ) -> Posted
        requires { IsCallInForm call }
        ensures { Tells N.plan pass.old pass.new call result }
    {
        let mut taken = self.places.take(rt, &self.chart, &call);
        gate.taken(&call);
        let answer = self
            .book
            .lock(rt)
            .settle(alloc, &self.turns, &mut taken, pass, call);
        taken.finish();
        self.places.give_back(rt, taken);
        answer
    }
}
