//! The stripes that a call has taken.

ghost use Rattle.std.specs.Prelude.{◌≡◌, ◌<◌, ℕ, None, Some, is_some};
ghost use Rattle.cf_budget.specs.Tables.{table_of, has_stripe};
ghost use Rattle.cf_hall_names.specs.Lists.{tie_at};
ghost use Rattle.cf_hall.specs.Standing.{IsStripe, PutsTable};

use crate::stripe::Stripe;
use cf_budget::Lines;
use cf_hall_names::{City, OfStripe, Ties};
use cf_office::{PreparedLines, apply_lines};
use cf_turns::Tie;
use std::marker::Model;

/// The stripes that a call has taken from their places, as they lay there. Contracts see their
/// ties.
pub struct Stripes<N: City> {
    pub(crate) first: Option<Stripe<N, 0>>,
    pub(crate) second: Option<Stripe<N, 1>>,
    pub(crate) third: Option<Stripe<N, 2>>,
    pub(crate) fourth: Option<Stripe<N, 3>>,
    pub(crate) fifth: Option<Stripe<N, 4>>,
    pub(crate) sixth: Option<Stripe<N, 5>>,
    pub(crate) seventh: Option<Stripe<N, 6>>,
    pub(crate) eighth: Option<Stripe<N, 7>>,
}

impl<N: City> Model for Stripes<N> {
    ghost use Rattle.std.specs.Prelude.{List, [], ◌∷◌, Option};
    ghost use Rattle.cf_turns.specs.States.{PassState};

    ghost Value = { List (Option PassState) };

    ghost view = { λ s. s.first ∷ s.second ∷ s.third ∷ s.fourth ∷ s.fifth ∷ s.sixth ∷ s.seventh
        ∷ s.eighth ∷ [] };
}

/// The line numbers and the ties of the stripes that a call has taken, with the changes that its
/// entry owes them. They can't be let go: a call has to give them back.
pub struct Taken<N: City> {
    pub(crate) lines: Lines,
    pub(crate) owed: Option<PreparedLines>,
    pub(crate) ties: Ties<N>,
}

impl<N: City> Model for Taken<N> {
    ghost use Rattle.cf_hall.specs.TakenState.{TakenState, AreTakenStripes};

    ghost Value = { TakenState };

    ghost view = { λ t. record { lines = t.lines; owed = t.owed; ties = t.ties } };

    ghost invariant = { λ t. AreTakenStripes N.table N.plan t.lines t.owed t.ties };
}

/// Puts the stripe's table to the lines, where the stripe was taken, and gives its tie.
fn put<N: City, const K: usize>(
    stripe: Option<Stripe<N, K>>,
    lines: &mut Lines,
) -> Option<Tie<OfStripe<N, K>>>
    requires stripe { K < 8 }
    requires away { table_of lines.old K ≡ None }
    ensures stands { IsStripe N.table N.plan K (table_of lines.new K) result }
    ensures same { result ≡ stripe }
    ensures others { PutsTable lines.old K (table_of lines.new K) lines.new }
{
    let Some(Stripe { table, tie }) = stripe else {
        return None;
    };
    lines.put_table(K, table);
    Some(tie)
}

/// Takes the stripe's table from the lines, where the stripe was taken.
fn take_out<N: City, const K: usize>(
    lines: &mut Lines,
    tie: Option<Tie<OfStripe<N, K>>>,
) -> Option<Stripe<N, K>>
    requires stripe { K < 8 }
    requires stands { IsStripe N.table N.plan K (table_of lines.old K) tie }
    ensures same { result ≡ tie }
    ensures others { PutsTable lines.old K None lines.new }
{
    match (lines.take_table(K), tie) {
        (Some(table), Some(tie)) => Some(Stripe { table, tie }),
        _ => None,
    }
}

impl<N: City> Taken<N> {
    /// What a call has of these stripes before it is settled: nothing is owed to them.
    pub(crate) fn of(stripes: Stripes<N>) -> Taken<N>
        ensures owes { result.owed ≡ None }
        ensures there { (k : ℕ) → k < 8 → has_stripe result.lines k ≡ is_some (tie_at stripes k) }
    {
        let Stripes {
            first,
            second,
            third,
            fourth,
            fifth,
            sixth,
            seventh,
            eighth,
        } = stripes;
        let mut lines = Lines::none();
        let first = put(first, &mut lines);
        let second = put(second, &mut lines);
        let third = put(third, &mut lines);
        let fourth = put(fourth, &mut lines);
        let fifth = put(fifth, &mut lines);
        let sixth = put(sixth, &mut lines);
        let seventh = put(seventh, &mut lines);
        let eighth = put(eighth, &mut lines);
        Taken {
            lines,
            owed: None,
            ties: Ties {
                first,
                second,
                third,
                fourth,
                fifth,
                sixth,
                seventh,
                eighth,
            },
        }
    }

    /// Makes the changes that are owed. It takes no memory, and needs no book.
    pub fn finish(&mut self)
        ensures owed { self.new.owed ≡ None }
        ensures ties { self.new.ties ≡ self.old.ties }
    {
        if let Some(changes) = self.owed.take() {
            apply_lines(&mut self.lines, changes);
        }
    }

    /// The stripes as they go back to their places, where nothing is owed to them.
    pub(crate) fn into_stripes(self) -> Stripes<N>
        requires { self.owed ≡ None }
        ensures { result ≡ self.ties }
    {
        let Taken {
            mut lines,
            owed: _,
            ties,
        } = self;
        let first = take_out(&mut lines, ties.first);
        let second = take_out(&mut lines, ties.second);
        let third = take_out(&mut lines, ties.third);
        let fourth = take_out(&mut lines, ties.fourth);
        let fifth = take_out(&mut lines, ties.fifth);
        let sixth = take_out(&mut lines, ties.sixth);
        let seventh = take_out(&mut lines, ties.seventh);
        let eighth = take_out(&mut lines, ties.eighth);
        Stripes {
            first,
            second,
            third,
            fourth,
            fifth,
            sixth,
            seventh,
            eighth,
        }
    }
}
