//! What entries do to documents.

ghost use Rattle.std.specs.Prelude.{◌≡◌};
ghost use Rattle.cf_books_documents.specs.Events as spec;

/// What has numbers of its own. A lease has those of its debt and of its asset.
#[derive(Clone, Copy)]
pub enum Subject {
    Requisition,
    Order,
    Voucher,
    Bill,
    Asset,
    Debt,
    /// A loan between funds, whose number is the place of its entry.
    Loan,
}

/// What an entry does to a document.
#[derive(Clone, Copy)]
pub enum Deed {
    Entered,
    Changed,
    Ordered,
    Charged,
    Reopened,
    Withdrawn,
    Cancelled,
    Lapsed,
    Carried,
    Voided,
    Paid,
    Collected,
    WrittenOff,
    Disposed,
    Repaid,
}

/// What an entry does to a document of a number.
#[derive(Clone, Copy)]
pub struct Event {
    pub subject: Subject,
    pub number: u64,
    /// The item of an order, from 1; 0 where it is the whole document.
    pub item: u64,
    pub deed: Deed,
    /// The place of the entry, from 1.
    pub place: u64,
}

/// Whether two subjects are one.
pub fn is_same(a: Subject, b: Subject) -> bool
    ensures { result ≡ spec.is_same a b }
{
    match a {
        Subject::Requisition => matches!(b, Subject::Requisition),
        Subject::Order => matches!(b, Subject::Order),
        Subject::Voucher => matches!(b, Subject::Voucher),
        Subject::Bill => matches!(b, Subject::Bill),
        Subject::Asset => matches!(b, Subject::Asset),
        Subject::Debt => matches!(b, Subject::Debt),
        Subject::Loan => matches!(b, Subject::Loan),
    }
}

/// The word of a deed.
pub fn deed_word(deed: Deed) -> &'static str
    ensures { result.now ≡ spec.deed_word deed }
{
    match deed {
        Deed::Entered => "entered",
        Deed::Changed => "changed",
        Deed::Ordered => "ordered",
        Deed::Charged => "charged",
        Deed::Reopened => "reopened",
        Deed::Withdrawn => "withdrawn",
        Deed::Cancelled => "cancelled",
        Deed::Lapsed => "lapsed",
        Deed::Carried => "carried",
        Deed::Voided => "voided",
        Deed::Paid => "paid",
        Deed::Collected => "collected",
        Deed::WrittenOff => "written off",
        Deed::Disposed => "disposed",
        Deed::Repaid => "repaid",
    }
}

/// Whether a deed pays or collects.
pub fn is_payment(deed: Deed) -> bool
    ensures { result ≡ spec.is_payment deed }
{
    matches!(deed, Deed::Paid | Deed::Collected | Deed::Repaid)
}
