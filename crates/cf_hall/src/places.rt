//! The places of the stripes, each under a lock of its own.

ghost use Rattle.std.specs.Prelude.{◌≡◌, ◌<◌, ℕ, None, is_some};
ghost use Rattle.cf_budget.specs.Tables.{has_stripe};
ghost use Rattle.cf_model.specs.Common.{call_touches};

use crate::stripe::Stripe;
use crate::taken::{Stripes, Taken};
use cf_calls::Call;
use cf_chart::Chart;
use cf_hall_names::City;
use cf_office::taken_stripes;
use std::sync::{Condvar, Mutex, Wait};

/// The place of a stripe, which is empty while a call has taken the stripe.
struct Place<N: City, const K: usize> {
    stripe: Mutex<Option<Stripe<N, K>>>,
    given_back: Condvar,
}

/// Parts with what a place held for good.
fn end<N: City, const K: usize>(stripe: Option<Stripe<N, K>>) {
    if let Some(stripe) = stripe {
        stripe.end();
    }
}

/// A place goes with its stripe once no thread shares the hall.
impl<N: City, const K: usize> Drop for Place<N, K> {
    fn drop(self) {
        let Place {
            stripe,
            given_back: _,
        } = self;
        end(stripe.into_inner());
    }
}

impl<N: City, const K: usize> Place<N, K> {
    fn new(stripe: Option<Stripe<N, K>>) -> Place<N, K> {
        Place {
            stripe: Mutex::new(stripe),
            given_back: Condvar::new(),
        }
    }

    /// Takes the stripe, once it is there.
    fn take<R: Wait>(&self, rt: &R) -> Stripe<N, K> {
        let mut place = self.stripe.lock(rt);
        for _ in rt.forever() {
            if let Some(stripe) = place.take() {
                return stripe;
            }
            place = self.given_back.wait(rt, place);
        }
        unreachable!()
    }

    /// Takes the stripe, once it is there, exactly where it is wanted.
    fn take_if<R: Wait>(&self, rt: &R, wanted: bool) -> Option<Stripe<N, K>>
        ensures { is_some result ≡ wanted }
    {
        if wanted { Some(self.take(rt)) } else { None }
    }

    /// Gives the stripe back, where it was taken. The place is empty then.
    fn give_back<R: Wait>(&self, rt: &R, stripe: Option<Stripe<N, K>>) {
        if let Some(stripe) = stripe {
            let before = self.stripe.lock(rt).replace(stripe);
            end(before);
            self.given_back.notify_one();
        }
    }
}

/// The places of the eight stripes.
pub(crate) struct Places<N: City> {
    first: Place<N, 0>,
    second: Place<N, 1>,
    third: Place<N, 2>,
    fourth: Place<N, 3>,
    fifth: Place<N, 4>,
    sixth: Place<N, 5>,
    seventh: Place<N, 6>,
    eighth: Place<N, 7>,
}

/// Written out, for a derived one is written anew into each function that parts a hall.
impl<N: City> Drop for Places<N> {
    fn drop(self) {
        let Places {
            first: _,
            second: _,
            third: _,
            fourth: _,
            fifth: _,
            sixth: _,
            seventh: _,
            eighth: _,
        } = self;
    }
}

impl<N: City> Places<N> {
    /// The places of stripes that are owed nothing.
    pub(crate) fn new(stripes: Taken<N>) -> Places<N>
        requires { stripes.owed ≡ None }
    {
        let Stripes {
            first,
            second,
            third,
            fourth,
            fifth,
            sixth,
            seventh,
            eighth,
        } = stripes.into_stripes();
        Places {
            first: Place::new(first),
            second: Place::new(second),
            third: Place::new(third),
            fourth: Place::new(fourth),
            fifth: Place::new(fifth),
            sixth: Place::new(sixth),
            seventh: Place::new(seventh),
            eighth: Place::new(eighth),
        }
    }

    /// Takes the stripes that a call touches and no others, in rising number, each once it is
    /// there.
    pub(crate) fn take<R: Wait>(&self, rt: &R, chart: &Chart, call: &Call) -> Taken<N>
        ensures owes { result.owed ≡ None }
        ensures exact { (k : ℕ) → k < 8
            → has_stripe result.lines k ≡ call_touches chart.now k call.now }
    {
        let touched = taken_stripes(chart, call);
        let first = self.first.take_if(rt, touched[0]);
        let second = self.second.take_if(rt, touched[1]);
        let third = self.third.take_if(rt, touched[2]);
        let fourth = self.fourth.take_if(rt, touched[3]);
        let fifth = self.fifth.take_if(rt, touched[4]);
        let sixth = self.sixth.take_if(rt, touched[5]);
        let seventh = self.seventh.take_if(rt, touched[6]);
        let eighth = self.eighth.take_if(rt, touched[7]);
        Taken::of(Stripes {
            first,
            second,
            third,
            fourth,
            fifth,
            sixth,
            seventh,
            eighth,
        })
    }

    /// Gives the stripes back, which are owed nothing.
    pub(crate) fn give_back<R: Wait>(&self, rt: &R, taken: Taken<N>)
        requires { taken.owed ≡ None }
    {
        let Stripes {
            first,
            second,
            third,
            fourth,
            fifth,
            sixth,
            seventh,
            eighth,
        } = taken.into_stripes();
        self.first.give_back(rt, first);
        self.second.give_back(rt, second);
        self.third.give_back(rt, third);
        self.fourth.give_back(rt, fourth);
        self.fifth.give_back(rt, fifth);
        self.sixth.give_back(rt, sixth);
        self.seventh.give_back(rt, seventh);
        self.eighth.give_back(rt, eighth);
    }
}
