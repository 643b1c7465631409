//! The refusals and the results whose texts are printed.

use cf_base::{Day, Month};
use cf_calls::{AssetFault, DocumentKind, DocumentState, Made, NameKind, Refusal, Role};

const DAY: Day = Day {
    year: 2026,
    month: 7,
    day: 1,
};

const MONTH: Month = Month {
    year: 2200,
    month: 12,
};

pub const REFUSALS: [Refusal; 26] = [
    Refusal::DeskUnknown { desk: 65535 },
    Refusal::Ahead {
        after: 18446744073709551615,
        length: 3,
    },
    Refusal::KeyReused { was: 12 },
    Refusal::NotThisDesk {
        role: Role::Purchasing,
    },
    Refusal::HistoryFull { limit: 1500000 },
    Refusal::AmountRange {
        amount: 10000000000001,
    },
    Refusal::UnknownName {
        kind: NameKind::Bond,
        id: 4294967295,
    },
    Refusal::PeriodClosed { month: MONTH },
    Refusal::YearNotOpen { year: 2030 },
    Refusal::YearClosed { year: 2025 },
    Refusal::Adopted { was: 1 },
    Refusal::NotAdopted {
        fund: 2,
        year: 2027,
    },
    Refusal::DocState {
        kind: DocumentKind::Item,
        number: 2,
        state: DocumentState::OtherYear,
    },
    Refusal::SameHand { desk: 4 },
    Refusal::NotOnOrder { order: 9, item: 0 },
    Refusal::OverOpen { open_cents: 40000 },
    Refusal::OverReceivable { left: 0 },
    Refusal::AssetState {
        asset: 6,
        state: AssetFault::Charged,
    },
    Refusal::AssetState {
        asset: 7,
        state: AssetFault::Leased,
    },
    Refusal::NotDue { next: DAY },
    Refusal::LeaveShort { left: 5 },
    Refusal::MonthOrder { next: MONTH },
    Refusal::DebtDue { bond: 1, day: DAY },
    Refusal::WindowOpen { month: MONTH },
    Refusal::Exceeds {
        line: 3,
        asked: 100001,
        room: -5,
    },
    Refusal::CashShort {
        fund: 1,
        cash: -170141183460469231731687303715884105728,
        asked: 170141183460469231731687303715884105727,
    },
];

pub const RESULTS: [Made; 11] = [
    Made::Nothing,
    Made::Requisition { number: 1 },
    Made::Order { number: 4294967295 },
    Made::Voucher {
        number: 3,
        first_asset: 1,
        assets: 0,
    },
    Made::Voucher {
        number: 3,
        first_asset: 4294967294,
        assets: 3,
    },
    Made::Bill { number: 2 },
    Made::Year { year: 2027 },
    Made::Asset { number: 5 },
    Made::Bond { number: 6 },
    Made::Lease { asset: 8, bond: 7 },
    Made::Paid {
        interest: 1500,
        principal: 0,
    },
];
