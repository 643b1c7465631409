//! The office that answers by running numbers and look-ups.

ghost use Rattle.std.specs.Prelude.{ℕ, true, ◌≡◌, ◌++◌, ◌∷◌, [], IfOk, IfSome, IsSome, OnOk, OnErr};
ghost use Rattle.std.specs.Option.{option_copied};
ghost use Rattle.cf_budget.specs.Tables.{has_line};
ghost use Rattle.cf_model.specs.Common.{Entry, act_posts, registers_of, made_of, IsSoundState, Adds};
ghost use Rattle.cf_model.proofs.Common.{IsWhole};
ghost use Rattle.cf_office.specs.BookState.{IsPrepared};
ghost use Rattle.cf_registers.specs.Moved.{AreTablesOf};

use crate::prepared::{Prepared, apply_lines, apply_rest, reserve};
use cf_budget::Lines;
use cf_calls::{Basis, Entry, Made};
use cf_chart::Chart;
use cf_ledger::Post;
use cf_office_history::{History, Rest};
use std::alloc::{AllocError, Global};
use std::marker::Model;

/// A chart, the entries accepted so far, and the line numbers that they make. No call goes over the
/// history.
#[derive(Drop)]
pub struct BookOffice {
    lines: Lines,
    rest: Rest,
}

impl Model for BookOffice {
    ghost use Rattle.cf_office.specs.BookState.{BookState};

    ghost Value = { BookState };

    ghost use Rattle.cf_office.specs.BookView.{book_state, IsTied};

    ghost view = { book_state };

    ghost invariant = { IsTied };
}

impl BookOffice {
    /// The office of the empty history. It takes no memory.
    pub fn new(alloc: Global, chart: Chart) -> BookOffice
        ensures chart { result.plan ≡ chart }
        ensures empty { result.entries ≡ [] }
    {
        BookOffice {
            lines: Lines::new(alloc),
            rest: Rest::new(alloc, chart),
        }
    }

    /// The entries. They are a legal history: at each place of it no control line is overspent in
    /// any year, no fund's cash is below zero, and fund balances reconcile with net position, and
    /// each entry balances.
    pub fn entries(&self) -> &[Entry]
        ensures value { result.now ≡ self.now.entries }
        ensures whole { IsWhole self.now.plan }
        ensures sound { IsSoundState (record { plan = self.now.plan; entries = self.now.entries }) }
    {
        self.rest.entries()
    }

    /// The history with the numbers of every line, to who reads it.
    pub fn history(&self) -> History<'_>
        ensures plan { result.plan ≡ self.now.plan }
        ensures entries { result.entries ≡ self.now.entries }
        ensures whole { (line : ℕ) → has_line result.lines line ≡ true }
    {
        History::new(&self.lines, &self.rest)
    }

    /// Takes all memory of the application of an entry that the rules accept. The history stays.
    pub fn reserve(&mut self, entry: Entry) -> Result<Prepared, AllocError>
        requires { Adds self.old.plan self.old.entries entry }
        ensures plan { self.new.plan ≡ self.old.plan }
        ensures entries { self.new.entries ≡ self.old.entries }
        ensures ok { IfOk result (λ p. IsPrepared self.new p entry) }
    {
        reserve(&mut self.lines, &mut self.rest, entry)
    }

    /// The entry that is prepared.
    pub fn ready_entry(&self) -> Option<&Entry>
        ensures { option_copied result ≡ self.now.ready }
    {
        self.rest.ready_entry()
    }

    /// What the entry that is prepared posts on a basis: its debits above zero and its credits
    /// below, in cents.
    pub fn posts(&self, basis: Basis) -> &[Post]
        requires { IsSome self.now.ready }
        ensures { IfSome self.now.ready
            (λ e. result.now ≡ act_posts basis self.now.plan
            (registers_of self.now.plan self.now.entries) e.change.on e.change.act) }
    {
        self.rest.posts(basis)
    }

    /// Adds the entry that is prepared, and says what it made. It takes no memory.
    pub fn apply(&mut self, prepared: Prepared) -> Made
        requires { (e : Entry) × IsPrepared self.old prepared e }
        ensures plan { self.new.plan ≡ self.old.plan }
        ensures entries { IfSome self.old.ready
            (λ e. self.new.entries ≡ self.old.entries ++ e ∷ []) }
        ensures made { IfSome self.old.ready
            (λ e. result ≡ made_of self.old.plan (registers_of self.old.plan self.old.entries) e) }
    {
        apply_lines(&mut self.lines, prepared.lines);
        apply_rest(&mut self.rest, prepared.rest)
    }

    /// Adds an entry that the rules accept, and says what it made. Where there is no memory nothing
    /// changes.
    pub fn accept(&mut self, entry: Entry) -> Result<Made, AllocError>
        requires { Adds self.old.plan self.old.entries entry }
        ensures plan { self.new.plan ≡ self.old.plan }
        ensures ok { OnOk result (self.new.entries ≡ self.old.entries ++ entry ∷ []) }
        ensures made { IfOk result
            (λ m. m ≡ made_of self.old.plan (registers_of self.old.plan self.old.entries) entry) }
        ensures err { OnErr result (self.new.entries ≡ self.old.entries) }
    {
        let prepared = self.reserve(entry)?;
        Ok(self.apply(prepared))
    }

    /// The line numbers, which are there for every line, and the rest.
    pub fn into_parts(self) -> (Lines, Rest)
        ensures plan { result.1.plan ≡ self.plan }
        ensures entries { result.1.entries ≡ self.entries }
        ensures tables { AreTablesOf self.plan self.entries result.0 }
        ensures whole { (line : ℕ) → has_line result.0 line ≡ true }
    {
        let BookOffice { lines, rest } = self;
        (lines, rest)
    }
}
