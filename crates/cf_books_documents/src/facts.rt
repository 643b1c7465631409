//! What is known of a document.

ghost use Rattle.std.specs.Prelude.{◌≡◌};
ghost use Rattle.cf_books_documents.specs.Facts as spec;

use crate::event::Subject;
use cf_books_words::DocumentKind;

/// How a document stands.
#[derive(Clone, Copy)]
pub enum State {
    Open,
    Withdrawn,
    Ordered,
    Lapsed,
    Live,
    Finished,
    Cancelled,
    Paid,
    Void,
    Held,
    Disposed,
    Settled,
    Repaid,
}

/// A fund, a department and an object of expenditure, each where a document has one alone.
#[derive(Clone, Copy)]
pub struct Account {
    pub fund: Option<u16>,
    pub dept: Option<u16>,
    pub object: Option<u16>,
}

/// A document as it stands. Amounts are in cents.
#[derive(Clone, Copy)]
pub struct Facts {
    pub kind: DocumentKind,
    /// 0 where it draws none.
    pub number: u64,
    /// The item of an order, from 1; 0 of every other.
    pub item: u64,
    /// The vendor or the payer; of a loan the fund that borrows; 0 where it has none.
    pub party: u32,
    pub account: Account,
    pub source: Option<u16>,
    /// The fiscal year in which an order's item was entered.
    pub first: Option<u16>,
    /// The fiscal year that it is of now.
    pub year: Option<u16>,
    pub amount: i128,
    /// What is open of it.
    pub left: i128,
    /// None where no look shows it.
    pub state: Option<State>,
}

/// Whether a state is that of what lapsed.
pub fn is_lapsed(state: Option<State>) -> bool
    ensures { result ≡ spec.is_lapsed state }
{
    matches!(state, Some(State::Lapsed))
}

/// What the numbers of a kind are of. A lease has the number of its debt.
pub fn subject_of(kind: DocumentKind) -> Subject
    ensures { result ≡ spec.subject_of kind }
{
    match kind {
        DocumentKind::Requisition => Subject::Requisition,
        DocumentKind::Order => Subject::Order,
        DocumentKind::Voucher => Subject::Voucher,
        DocumentKind::Bill => Subject::Bill,
        DocumentKind::Asset => Subject::Asset,
        DocumentKind::Bond | DocumentKind::Lease => Subject::Debt,
        DocumentKind::Loan => Subject::Loan,
    }
}

/// The word of a kind.
pub fn kind_word(kind: DocumentKind) -> &'static str
    ensures { result.now ≡ spec.kind_word kind }
{
    match kind {
        DocumentKind::Requisition => "requisition",
        DocumentKind::Order => "order",
        DocumentKind::Voucher => "voucher",
        DocumentKind::Bill => "bill",
        DocumentKind::Asset => "asset",
        DocumentKind::Bond => "bond",
        DocumentKind::Lease => "lease",
        DocumentKind::Loan => "loan",
    }
}

/// The word of a state.
pub fn state_word(state: Option<State>) -> &'static str
    ensures { result.now ≡ spec.state_word state }
{
    match state {
        None => "",
        Some(State::Open) => "open",
        Some(State::Withdrawn) => "withdrawn",
        Some(State::Ordered) => "ordered",
        Some(State::Lapsed) => "lapsed",
        Some(State::Live) => "live",
        Some(State::Finished) => "finished",
        Some(State::Cancelled) => "cancelled",
        Some(State::Paid) => "paid",
        Some(State::Void) => "void",
        Some(State::Held) => "held",
        Some(State::Disposed) => "disposed",
        Some(State::Settled) => "settled",
        Some(State::Repaid) => "repaid",
    }
}

/// Whether two kinds are one.
pub fn is_kind(a: DocumentKind, b: DocumentKind) -> bool
    ensures { result ≡ spec.is_kind a b }
{
    match a {
        DocumentKind::Requisition => matches!(b, DocumentKind::Requisition),
        DocumentKind::Order => matches!(b, DocumentKind::Order),
        DocumentKind::Voucher => matches!(b, DocumentKind::Voucher),
        DocumentKind::Bill => matches!(b, DocumentKind::Bill),
        DocumentKind::Asset => matches!(b, DocumentKind::Asset),
        DocumentKind::Bond => matches!(b, DocumentKind::Bond),
        DocumentKind::Lease => matches!(b, DocumentKind::Lease),
        DocumentKind::Loan => matches!(b, DocumentKind::Loan),
    }
}
