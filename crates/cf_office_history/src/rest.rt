//! The office's state but for line numbers: the history, and what is looked up in it.

ghost use Rattle.std.specs.Prelude.{◌≡◌, ◌<◌, ◌≤◌, ◌+◌, ◌-◌, slice_get, ◌++◌, ◌∷◌, [], true, ℕ, All, length, vec_len, vec_capacity, None, Some, IsSome, IfSome, OnOk, OnErr, unwrap_or};
ghost use Rattle.std.specs.Option.{option_copied};
ghost use Rattle.cf_calls.specs.Common.{adoption_of, IsYear};
ghost use Rattle.cf_base.specs.Common.{is_day, month_of_day, last_fiscal_year, most_entries};
ghost use Rattle.cf_model.proofs.Common.{IsWhole};
ghost use Rattle.cf_model.specs.Calendar as calendar;
ghost use Rattle.cf_model.specs.Common.{deeds_of, registers_of, act_posts, balance_of, estimate, recon_shown, adopted_at, Adds, IsLegal, known_at, is_same, entry_at};
ghost use Rattle.cf_model.specs.Results as results;
ghost use Rattle.cf_register_parts.specs.Pairs.{value_of, ReadsSame};
ghost use Rattle.cf_recon.specs.ChangeItems.{changes_shown};
ghost use Rattle.cf_office_history.specs.Keys.{place_of, has_key, SameKeys, PutsKey};
ghost use Rattle.cf_post.specs.Sizes.{IsPostable};
ghost use Rattle.cf_registers.specs.AccountsState.{AreReadyFor};
ghost use Rattle.cf_registers.specs.Numbered.{AreNumbered};
ghost use Rattle.cf_registers.specs.RegistersState.{HasRoomFor, HaveTaken};
ghost use Rattle.cf_office_history.specs.RestView.{has_budget, PutsBudget};

use crate::estimates::estimated_at;
use crate::keys::{Known, place_in, put_place, reserve_key};
use cf_base::{Day, month_of};
use cf_calls::acts::{Adoption, Period};
use cf_calls::shown::ReconShown;
use cf_calls::{Act, Basis, Change, Entry, Made, same_call};
use cf_chart::Chart;
use cf_ledger::Post;
use cf_recon::Changes;
use cf_register_parts::{NumberPair, is_month_closed, put_in, reserve_in, value_in};
use cf_registers::{Accounts, Registers, made_of, whole};
use std::alloc::{AllocError, Global};
use std::collections::BTreeMap;
use std::marker::Model;

/// A chart, and the entries accepted so far with the result of each, with their places by desk and
/// key and by adopted budget, and what they make of the registers and accounts.
pub struct Rest {
    alloc: Global,
    chart: Chart,
    entries: Vec<Entry>,
    results: Vec<Made>,
    known: Known,
    adopted: BTreeMap<NumberPair, u64>,
    registers: Registers,
    accounts: Accounts,
    open_year: u16,
    ready: Option<Entry>,
}

/// Written out, for a derived one is proved anew in each crate that lets such a value go.
impl Drop for Rest {
    fn drop(self) {
        let Rest {
            alloc: _,
            chart: _,
            entries: _,
            results: _,
            known: _,
            adopted: _,
            registers: _,
            accounts: _,
            open_year: _,
            ready: _,
        } = self;
    }
}

impl Model for Rest {
    ghost use Rattle.cf_office_history.specs.RestState.{RestState};

    ghost Value = { RestState };

    ghost use Rattle.cf_office_history.specs.RestView.{rest_state, StandsForHistory};

    ghost view = { rest_state };

    ghost invariant = { StandsForHistory };
}

impl Rest {
    /// The state of the empty history. It takes no memory.
    pub fn new(alloc: Global, chart: Chart) -> Rest
        ensures chart { result.plan ≡ chart }
        ensures empty { result.entries ≡ [] }
        ensures ready { result.ready ≡ None }
    {
        let open_year = chart.first_year();
        Rest {
            alloc,
            chart,
            entries: Vec::new(alloc),
            results: Vec::new(alloc),
            known: BTreeMap::new(alloc),
            adopted: BTreeMap::new(alloc),
            registers: Registers::new(alloc),
            accounts: Accounts::new(alloc),
            open_year,
            ready: None,
        }
    }

    /// The allocator that the state takes its memory from.
    pub fn allocator(&self) -> Global {
        self.alloc
    }

    /// The chart, under which the history is legal.
    pub fn chart(&self) -> &Chart
        ensures value { result.now ≡ self.now.plan }
        ensures legal { IsLegal self.now.plan self.now.entries }
        ensures whole { IsWhole self.now.plan }
    {
        whole(&self.chart);
        &self.chart
    }

    /// The entries, which are a legal history.
    pub fn entries(&self) -> &[Entry]
        ensures value { result.now ≡ self.now.entries }
        ensures legal { IsLegal self.now.plan self.now.entries }
        ensures whole { IsWhole self.now.plan }
        ensures few { length self.now.entries ≤ most_entries }
    {
        whole(&self.chart);
        self.entries.as_slice()
    }

    /// The place, from 1, of the entry with this change's desk and key.
    pub fn known(&self, change: &Change) -> Option<u64>
        ensures { result ≡ known_at self.now.entries change.now }
    {
        place_or_none(place_in(&self.known, change.desk, change.key.as_str()))
    }

    /// Whether the entry at a place is of the same call.
    pub fn is_repeat(&self, change: &Change, place: u64) -> bool
        ensures { result ≡ is_same change.now (entry_at self.now.entries place) }
    {
        is_repeat(self.entries.as_slice(), change, place)
    }

    /// What the entry at a place made.
    pub fn made_at(&self, place: u64) -> Made
        ensures { result ≡ results.made_at self.now.plan self.now.entries place }
    {
        made_in(self.results.as_slice(), place)
    }

    /// The place of the entry that adopted a fund's budget of a year.
    pub fn adopted(&self, fund: u16, year: u16) -> Option<u64>
        ensures { result ≡ adopted_at fund year self.now.entries }
    {
        adopted_place(&self.adopted, fund, year)
    }

    /// Reserves the memory that `apply` needs for an entry that the rules accept, and keeps the
    /// entry as the ready (pending) one; an earlier ready entry is dropped. The history stays.
    /// Where there is no memory, no entry is ready.
    pub fn reserve(&mut self, entry: Entry) -> Result<(), AllocError>
        requires { Adds self.old.plan self.old.entries entry }
        ensures plan { self.new.plan ≡ self.old.plan }
        ensures entries { self.new.entries ≡ self.old.entries }
        ensures ok { OnOk result (self.new.ready ≡ Some entry) }
        ensures err { OnErr result (self.new.ready ≡ None) }
    {
        self.ready = None;
        let change = &entry.change;
        reserve_places(self.alloc, &mut self.known, &mut self.adopted, change)?;
        reserve_books(
            self.alloc,
            &self.chart,
            &mut self.registers,
            &mut self.accounts,
            change,
        )?;
        reserve_entry(&mut self.entries, &mut self.results)?;
        self.ready = Some(entry);
        Ok(())
    }

    /// The entry that is ready.
    pub fn ready_entry(&self) -> Option<&Entry>
        ensures { option_copied result ≡ self.now.ready }
    {
        self.ready.as_ref()
    }

    /// What the entry that is ready posts on a basis: its debits above zero and its credits below,
    /// in cents.
    pub fn posts(&self, basis: Basis) -> &[Post]
        requires { IsSome self.now.ready }
        ensures { IfSome self.now.ready
            (λ e. result.now ≡ act_posts basis self.now.plan
            (registers_of self.now.plan self.now.entries) e.change.on e.change.act) }
    {
        self.accounts.ready_posts(basis)
    }

    /// Adds the entry that is ready, and says what it made. It takes no memory.
    pub fn apply(&mut self) -> Made
        requires { IsSome self.old.ready }
        ensures plan { self.new.plan ≡ self.old.plan }
        ensures entries { IfSome self.old.ready
            (λ e. self.new.entries ≡ self.old.entries ++ e ∷ []) }
        ensures made { IfSome self.old.ready
            (λ e. result ≡ results.made_of self.old.plan
            (registers_of self.old.plan self.old.entries) e) }
        ensures ready { self.new.ready ≡ None }
    {
        let Some(entry) = self.ready.take() else {
            return Made::Nothing;
        };
        let place = self.entries.len() as u64 + 1;
        note_place(&mut self.known, &entry.change, place);
        put_budget(&mut self.adopted, &entry.change.act, place);
        // So that the proof knows that each post is of a year that the books have.
        whole(&self.chart);
        self.accounts.apply();
        let made = made_of(&self.chart, &self.registers, &entry);
        self.registers.apply(&self.chart, &entry);
        self.open_year = open_year_after(&entry.change.act, self.open_year);
        self.results.push_reserved(made);
        self.entries.push_reserved(entry);
        made
    }

    /// The registers that the entries make.
    pub fn registers(&self) -> &Registers
        ensures { result.now.registers ≡ registers_of self.now.plan self.now.entries }
    {
        &self.registers
    }

    /// Whether the month of a day is closed: it is before the chart's first month, or one of the
    /// first months that are closed.
    pub fn is_closed(&self, on: Day) -> bool
        requires { is_day on ≡ true }
        ensures { result ≡ calendar.is_month_closed self.now.plan self.now.entries
            (month_of_day on) }
    {
        is_month_closed(self.chart(), month_of(on), self.registers.closed())
    }

    /// The first fiscal year that isn't closed.
    pub fn open_year(&self) -> u16
        ensures value { result ≡ calendar.open_year self.now.plan self.now.entries }
        ensures within { result ≤ last_fiscal_year }
    {
        self.open_year
    }

    /// The items between fund balances and net position through a fiscal year from 1971 to 2199, in
    /// cents.
    pub fn recon(&self, year: u16) -> ReconShown
        requires { IsYear year }
        ensures { result ≡ recon_shown self.now.plan year self.now.entries }
    {
        whole(&self.chart);
        self.accounts.recon(&self.chart, &self.registers, year)
    }

    /// The items between the changes of fund balances and of net position in a fiscal year from
    /// 1971 to 2199, in cents.
    pub fn changes(&self, year: u16) -> Changes
        requires { IsYear year }
        ensures { result ≡ changes_shown self.now.plan year self.now.entries }
    {
        self.accounts.changes(&self.chart, &self.registers, year)
    }

    /// The estimate of a revenue source for a fiscal year, in cents; 0 where none was adopted. It
    /// looks through the estimates of the adoption of the source's fund alone.
    pub fn estimate(&self, year: u16, source: u16) -> u64
        ensures { result ≡ estimate source year self.now.entries }
    {
        match self.chart.source(source) {
            Some(row) => {
                let place = self.adopted(row.fund, year);
                estimated_at(self.entries.as_slice(), place, source)
            }
            None => 0,
        }
    }

    /// The balance of an account of a fund through a fiscal year.
    pub fn balance(&self, basis: Basis, year: u16, fund: u16, account: u32) -> i128
        ensures { result ≡ balance_of basis self.now.plan year fund account self.now.entries }
    {
        self.accounts.balance(basis, year, fund, account)
    }
}

/// The open year after an act: years close one by one, in order.
fn open_year_after(act: &Act, open_year: u16) -> u16
    requires { open_year ≤ last_fiscal_year }
    ensures { result ≡ calendar.open_year_after act.now open_year }
{
    match act {
        Act::Close(Period::Year(_)) => open_year + 1,
        Act::Adopt(_)
        | Act::Amend(_)
        | Act::Transfer(_)
        | Act::Requisition(_)
        | Act::Withdraw(_)
        | Act::Order(_)
        | Act::ChangeOrder(_)
        | Act::CancelOrder(_)
        | Act::Voucher(_)
        | Act::VoidVoucher(_)
        | Act::Pay(_)
        | Act::Bill(_)
        | Act::Collect(_)
        | Act::Receive(_)
        | Act::WriteOff(_)
        | Act::Asset(_)
        | Act::Issue(_)
        | Act::PayDue(_)
        | Act::Leave(_)
        | Act::Interfund(_)
        | Act::Close(Period::Month(_))
        | Act::Lease(_) => open_year,
    }
}

/// The entry at a place, from 1.
fn at_place(entries: &[Entry], place: u64) -> Option<&Entry>
    ensures { option_copied result ≡ entry_at entries.now place }
{
    entries.get(place.saturating_sub(1) as usize)
}

/// Whether the entry at a place is of the same call.
fn is_repeat(entries: &[Entry], change: &Change, place: u64) -> bool
    ensures { result ≡ is_same change.now (entry_at entries.now place) }
{
    match at_place(entries, place) {
        Some(entry) => same_call(change, &entry.change),
        None => false,
    }
}

/// The result at a place, from 1.
fn made_in(made: &[Made], place: u64) -> Made
    ensures { result ≡ results.or_nothing (slice_get made.now (place - 1)) }
{
    match made.get(place.saturating_sub(1) as usize) {
        Some(made) => *made,
        None => Made::Nothing,
    }
}

/// Takes the memory of a change's place by its desk and key, and by the budget that it adopts.
fn reserve_places(
    alloc: Global,
    known: &mut Known,
    adopted: &mut BTreeMap<NumberPair, u64>,
    change: &Change,
) -> Result<(), AllocError>
    ensures key { OnOk result (has_key known.new change.now.desk change.now.key ≡ true) }
    ensures same_keys { SameKeys known.old known.new }
    ensures budget { OnOk result
        (has_budget adopted.new.entries (adoption_of change.now.act) ≡ true) }
    ensures same_budgets { ReadsSame 0 adopted.old.entries adopted.new.entries }
{
    reserve_key(alloc, known, change.desk, change.key.as_str())?;
    reserve_budget(adopted, &change.act)
}

/// Takes the memory of what a change enters in the registers and posts to the accounts.
fn reserve_books(
    alloc: Global,
    chart: &Chart,
    registers: &mut Registers,
    accounts: &mut Accounts,
    change: &Change,
) -> Result<(), AllocError>
    requires day { is_day change.now.on ≡ true }
    requires numbered { AreNumbered registers.old.registers }
    requires postable { All IsPostable (deeds_of chart.now registers.old.registers change.now.on change.now.act) }
    ensures room { OnOk result (HasRoomFor change.now.act registers.new) }
    ensures registers { registers.new.registers ≡ registers.old.registers }
    ensures taken { (n : ℕ) → HaveTaken n registers.old → HaveTaken n registers.new }
    ensures ready { OnOk result
        (AreReadyFor accounts.new chart.now registers.new.registers change.now.on change.now.act) }
    ensures fund { accounts.new.fund ≡ accounts.old.fund }
    ensures gov { accounts.new.gov ≡ accounts.old.gov }
{
    registers.reserve(&change.act)?;
    accounts.reserve(alloc, chart, registers, change.on, &change.act)
}

/// Takes the memory of one more entry and its result.
fn reserve_entry(entries: &mut Vec<Entry>, results: &mut Vec<Made>) -> Result<(), AllocError>
    ensures entries { entries.new.items ≡ entries.old.items }
    ensures place { OnOk result (vec_len entries.new < vec_capacity entries.new) }
    ensures results { results.new.items ≡ results.old.items }
    ensures result { OnOk result (vec_len results.new < vec_capacity results.new) }
{
    entries.reserve(1)?;
    results.reserve(1)
}

fn note_place(known: &mut Known, change: &Change, place: u64)
    requires { has_key known.old change.now.desk change.now.key ≡ true }
    ensures { PutsKey known.old known.new change.now.desk change.now.key place }
{
    put_place(known, change.desk, change.key.as_str(), place);
}

/// Reserves the budget that an act adopts.
fn reserve_budget(adopted: &mut BTreeMap<NumberPair, u64>, act: &Act) -> Result<(), AllocError>
    ensures has { OnOk result (has_budget adopted.new.entries (adoption_of act.now) ≡ true) }
    ensures same { ReadsSame 0 adopted.old.entries adopted.new.entries }
{
    match act.adoption() {
        Some(adoption) => reserve_in(adopted, budget_key(adoption), 0),
        None => Ok(()),
    }
}

/// Puts the place of the budget that an act adopts. It takes no memory.
fn put_budget(adopted: &mut BTreeMap<NumberPair, u64>, act: &Act, place: u64)
    requires { has_budget adopted.old.entries (adoption_of act.now) ≡ true }
    ensures { PutsBudget adopted.old.entries adopted.new.entries act.now place }
{
    if let Some(adoption) = act.adoption() {
        put_in(adopted, budget_key(adoption), place);
    }
}

fn budget_key(adoption: &Adoption) -> NumberPair
    ensures { result ≡ record { first = adoption.now.fund; second = adoption.now.year } }
{
    NumberPair {
        first: adoption.fund,
        second: adoption.year,
    }
}

fn place_or_none(place: u64) -> Option<u64>
    ensures { result ≡ place_of place }
{
    if place == 0 { None } else { Some(place) }
}

fn adopted_place(adopted: &BTreeMap<NumberPair, u64>, fund: u16, year: u16) -> Option<u64>
    ensures { result ≡ place_of (unwrap_or (value_of adopted.now.entries fund year) 0) }
{
    let place = value_in(
        adopted,
        NumberPair {
            first: fund,
            second: year,
        },
    );
    place_or_none(place.unwrap_or(0))
}
