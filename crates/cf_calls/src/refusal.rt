//! Refusals, each with the values that it states. Nothing changes where a call is refused.

ghost use Rattle.std.specs.Prelude.{◌≡◌, ◌≤◌, length};
ghost use Rattle.cf_calls.specs.Refusals.{name_at, name_of, number_of};

use crate::names::{DocumentKind, NameKind};
use crate::role::Role;
use cf_base::{Day, Month};

/// The state that a document is in, where another is needed.
#[derive(Clone, Copy)]
pub enum DocumentState {
    Withdrawn,
    Ordered,
    Lapsed,
    OtherYear,
    Ended,
    Finished,
    Cancelled,
    Paid,
    Void,
    Later,
}

/// Why an asset isn't in the state that is needed.
#[derive(Clone, Copy)]
pub enum AssetFault {
    Void,
    Disposed,
    Charged,
    Leased,
    Later,
}

/// A refusal: which rule is broken, with the values that it states. Amounts are in cents.
#[derive(Clone, Copy)]
pub enum Refusal {
    /// The chart has no such desk.
    DeskUnknown {
        desk: u16,
    },
    /// The caller has seen more than the history has.
    Ahead {
        after: u64,
        length: u64,
    },
    /// The desk used the key for another call.
    KeyReused {
        was: u64,
    },
    /// The desk lacks the role that the call needs.
    NotThisDesk {
        role: Role,
    },
    /// The history has as many entries as it may have.
    HistoryFull {
        limit: u64,
    },
    /// An amount is out of range; for a signed one, its size.
    AmountRange {
        amount: u64,
    },
    /// There is nothing of this name.
    UnknownName {
        kind: NameKind,
        id: u32,
    },
    /// The month of the call's day is closed.
    PeriodClosed {
        month: Month,
    },
    /// The year is too far ahead.
    YearNotOpen {
        year: u16,
    },
    /// The year that the call posts to is closed.
    YearClosed {
        year: u16,
    },
    /// The fund's budget of the year was adopted before.
    Adopted {
        was: u64,
    },
    /// The fund's budget of the year isn't adopted.
    NotAdopted {
        fund: u16,
        year: u16,
    },
    /// The document isn't in the needed state.
    DocState {
        kind: DocumentKind,
        number: u32,
        state: DocumentState,
    },
    /// The same desk made the document that is acted on.
    SameHand {
        desk: u16,
    },
    /// The order has no such item with this account.
    NotOnOrder {
        order: u32,
        item: u16,
    },
    /// More than the item's open amount is taken.
    OverOpen {
        open_cents: u64,
    },
    /// More than what is left of the bill or loan is taken.
    OverReceivable {
        left: u64,
    },
    /// The asset isn't in the needed state.
    AssetState {
        asset: u32,
        state: AssetFault,
    },
    /// The call's day is before the next due date.
    NotDue {
        next: Day,
    },
    /// More leave is taken than is left.
    LeaveShort {
        left: u64,
    },
    /// The month isn't the next one to close.
    MonthOrder {
        next: Month,
    },
    /// A payment that is due isn't paid.
    DebtDue {
        bond: u32,
        day: Day,
    },
    /// The month that ends the year's longest window isn't closed.
    WindowOpen {
        month: Month,
    },
    /// More is asked of a control line than it has room for (GASB Codification 1700: budgetary
    /// control).
    Exceeds {
        line: u16,
        asked: i128,
        room: i128,
    },
    /// The fund's cash is below what the call takes.
    CashShort {
        fund: u16,
        cash: i128,
        asked: i128,
    },
}

impl Refusal {
    /// The number of the refusal, from 1 to 25, which is its place in the order of the rules.
    pub fn number(&self) -> u8
        ensures value { result ≡ number_of self.now }
        ensures range { (1 ≤ result) × (result ≤ 25) }
    {
        match self {
            Refusal::DeskUnknown { .. } => 1,
            Refusal::Ahead { .. } => 2,
            Refusal::KeyReused { .. } => 3,
            Refusal::NotThisDesk { .. } => 4,
            Refusal::HistoryFull { .. } => 5,
            Refusal::AmountRange { .. } => 6,
            Refusal::UnknownName { .. } => 7,
            Refusal::PeriodClosed { .. } => 8,
            Refusal::YearNotOpen { .. } => 9,
            Refusal::YearClosed { .. } => 10,
            Refusal::Adopted { .. } => 11,
            Refusal::NotAdopted { .. } => 12,
            Refusal::DocState { .. } => 13,
            Refusal::SameHand { .. } => 14,
            Refusal::NotOnOrder { .. } => 15,
            Refusal::OverOpen { .. } => 16,
            Refusal::OverReceivable { .. } => 17,
            Refusal::AssetState { .. } => 18,
            Refusal::NotDue { .. } => 19,
            Refusal::LeaveShort { .. } => 20,
            Refusal::MonthOrder { .. } => 21,
            Refusal::DebtDue { .. } => 22,
            Refusal::WindowOpen { .. } => 23,
            Refusal::Exceeds { .. } => 24,
            Refusal::CashShort { .. } => 25,
        }
    }

    /// The name of the refusal, in replies and notices.
    pub fn name(&self) -> &'static str
        ensures value { result.now ≡ name_of self.now }
        ensures short { length result.now ≤ 14 }
    {
        refusal_name(self.number())
    }
}

/// The name of the refusal of a number: of one above 25, none.
pub fn refusal_name(number: u8) -> &'static str
    requires { 1 ≤ number }
    ensures value { result.now ≡ name_at number }
    ensures short { length result.now ≤ 14 }
{
    match number {
        1 => "DeskUnknown",
        2 => "Ahead",
        3 => "KeyReused",
        4 => "NotThisDesk",
        5 => "HistoryFull",
        6 => "AmountRange",
        7 => "UnknownName",
        8 => "PeriodClosed",
        9 => "YearNotOpen",
        10 => "YearClosed",
        11 => "Adopted",
        12 => "NotAdopted",
        13 => "DocState",
        14 => "SameHand",
        15 => "NotOnOrder",
        16 => "OverOpen",
        17 => "OverReceivable",
        18 => "AssetState",
        19 => "NotDue",
        20 => "LeaveShort",
        21 => "MonthOrder",
        22 => "DebtDue",
        23 => "WindowOpen",
        24 => "Exceeds",
        25 => "CashShort",
        _ => "",
    }
}
