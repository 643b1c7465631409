//! What names a hall: one type stands for its table, its chart and its ledgers.

ghost use Rattle.std.specs.Prelude.{ℕ};

use cf_turns::Stripe;
use std::marker::{Brand, PhantomData};
use std::sync::ledger::Ledger;

/// Names a hall: its table, its chart, its ledgers by their numbers, and what its book and its disk
/// were at opening: how long the history, what was in doubt, the moment and the count of faults.
pub trait City {
    ghost use Rattle.atomic_table.specs.Seated.{TableId};
    ghost use Rattle.std.specs.Prelude.{Option};
    ghost use Rattle.cf_calls.specs.declared.entry.Entry.{Entry};
    ghost use Rattle.cf_chart.specs.Plan.{Plan};

    ghost table: { TableId };

    ghost plan: { Plan };

    /// The ledger of each stripe, which counts the entries that touch it.
    ghost stripes: { ℕ → ℕ };

    /// The ledger of accepted calls.
    ghost accepted: { ℕ };

    /// The ledger of fault replies.
    ghost faulted: { ℕ };

    /// How many entries the history had when the hall was opened.
    ghost first: { ℕ };

    /// The entry that was in doubt then.
    ghost doubt: { Option Entry };

    /// The moment of the disk when the hall was opened.
    ghost begun: { ℕ };

    /// How often the disk had failed when the hall was opened.
    ghost risen: { ℕ };
}

impl City for Brand {
    ghost use Rattle.std.specs.Prelude.{None};
    ghost use Rattle.cf_hall_names.specs.NoNames.{no_table};
    ghost use Rattle.cf_model.specs.State.{blank_plan};

    ghost table = { no_table };

    ghost plan = { blank_plan };

    ghost stripes = { λ _. 0 };

    ghost accepted = { 0 };

    ghost faulted = { 0 };

    ghost first = { 0 };

    ghost doubt = { None };

    ghost begun = { 0 };

    ghost risen = { 0 };
}

/// The ledger of a stripe of the hall. One share has all of it.
pub struct OfStripe<N: City, const K: usize>(PhantomData<N>);

impl<N: City, const K: usize> Ledger for OfStripe<N, K> {
    ghost name = { N.stripes K };

    ghost parts = { 1 };
}

impl<N: City, const K: usize> Stripe for OfStripe<N, K> {
    ghost use Rattle.cf_model.specs.Stripes.{entry_touches};

    ghost all = { 1 };

    ghost touches = { entry_touches N.plan K };
}

/// The ledger of the hall's accepted calls: each pass has one part of it.
pub struct Accepted<N: City>(PhantomData<N>);

impl<N: City> Ledger for Accepted<N> {
    ghost name = { N.accepted };

    ghost parts = { 65536 };
}

/// The ledger of the hall's fault replies: each pass has one part of it.
pub struct Faulted<N: City>(PhantomData<N>);

impl<N: City> Ledger for Faulted<N> {
    ghost name = { N.faulted };

    ghost parts = { 65536 };
}
