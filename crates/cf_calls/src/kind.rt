//! The table of calls: the kinds of changing call, with what each has once.

ghost use Rattle.std.specs.Prelude.{◌≡◌, ◌==◌, find, option_copied, Some};
ghost use Rattle.std.specs.Str.{bytes_eq};
ghost use Rattle.cf_calls.specs.Kinds as spec;

use crate::acts::{Act, AssetAct};
use crate::role::Role;

/// Which of the 22 changing calls a change is.
#[derive(Clone, Copy)]
pub enum ActKind {
    Adopt,
    Amend,
    Transfer,
    Requisition,
    Withdraw,
    Order,
    ChangeOrder,
    CancelOrder,
    Voucher,
    VoidVoucher,
    Pay,
    Bill,
    Collect,
    Receive,
    WriteOff,
    Asset,
    Issue,
    PayDue,
    Leave,
    Interfund,
    Close,
    Lease,
}

/// Which numbers an entry draws.
#[derive(Clone, Copy)]
pub enum Draws {
    Nothing,
    /// A number of its own kind.
    Number,
    /// A number of its own kind, and a second one.
    Both,
    /// The number of a debt payment, at most 65,535.
    Payment,
}

/// A row of the table.
#[derive(Clone, Copy)]
pub struct CallRow {
    /// The word that names the call.
    pub word: &'static str,
    /// The number of the kind in a journal.
    pub code: u8,
    /// The role that the call's desk needs.
    pub role: Role,
    /// Which numbers an accepted call draws. Of what is done with an asset, a donation alone draws
    /// one.
    pub draws: Draws,
}

/// Every kind, in the order of the numbers.
const KINDS: [ActKind; 22] = [
    ActKind::Adopt,
    ActKind::Amend,
    ActKind::Transfer,
    ActKind::Requisition,
    ActKind::Withdraw,
    ActKind::Order,
    ActKind::ChangeOrder,
    ActKind::CancelOrder,
    ActKind::Voucher,
    ActKind::VoidVoucher,
    ActKind::Pay,
    ActKind::Bill,
    ActKind::Collect,
    ActKind::Receive,
    ActKind::WriteOff,
    ActKind::Asset,
    ActKind::Issue,
    ActKind::PayDue,
    ActKind::Leave,
    ActKind::Interfund,
    ActKind::Close,
    ActKind::Lease,
];

fn call(word: &'static str, code: u8, role: Role, draws: Draws) -> CallRow
    ensures word { result.word.now ≡ word.now }
    ensures code { result.code ≡ code }
    ensures role { result.role ≡ role }
    ensures draws { result.draws ≡ draws }
{
    CallRow {
        word,
        code,
        role,
        draws,
    }
}

impl ActKind {
    /// What the kind has.
    pub fn row(self) -> CallRow
        ensures word { result.word.now ≡ spec.word_of self }
        ensures code { result.code ≡ spec.kind_code self }
        ensures role { result.role ≡ (spec.row_of self).role }
        ensures draws { result.draws ≡ (spec.row_of self).draws }
    {
        match self {
            ActKind::Adopt => call("adopt", 1, Role::Council, Draws::Nothing),
            ActKind::Amend => call("amend", 2, Role::Council, Draws::Nothing),
            ActKind::Transfer => call("transfer", 3, Role::Council, Draws::Nothing),
            ActKind::Requisition => call("requisition", 4, Role::Dept, Draws::Number),
            ActKind::Withdraw => call("withdraw", 5, Role::Dept, Draws::Nothing),
            ActKind::Order => call("order", 6, Role::Purchasing, Draws::Number),
            ActKind::ChangeOrder => call("change_order", 7, Role::Purchasing, Draws::Nothing),
            ActKind::CancelOrder => call("cancel_order", 8, Role::Purchasing, Draws::Nothing),
            ActKind::Voucher => call("voucher", 9, Role::Payables, Draws::Both),
            ActKind::VoidVoucher => call("void_voucher", 10, Role::Payables, Draws::Nothing),
            ActKind::Pay => call("pay", 11, Role::Treasury, Draws::Nothing),
            ActKind::Bill => call("bill", 12, Role::Revenue, Draws::Number),
            ActKind::Collect => call("collect", 13, Role::Treasury, Draws::Nothing),
            ActKind::Receive => call("receive", 14, Role::Treasury, Draws::Nothing),
            ActKind::WriteOff => call("write_off", 15, Role::Revenue, Draws::Nothing),
            ActKind::Asset => call("asset", 16, Role::Assets, Draws::Number),
            ActKind::Issue => call("issue", 17, Role::Treasury, Draws::Number),
            ActKind::PayDue => call("pay_due", 18, Role::Treasury, Draws::Payment),
            ActKind::Leave => call("leave", 19, Role::Payroll, Draws::Nothing),
            ActKind::Interfund => call("interfund", 20, Role::Treasury, Draws::Nothing),
            ActKind::Close => call("close", 21, Role::Controller, Draws::Nothing),
            ActKind::Lease => call("lease", 22, Role::Treasury, Draws::Both),
        }
    }

    /// The kind of a number, if there is one.
    #[tactic(auto, unfolding(crate::specs::Kinds::kind_value))]
    pub fn of_code(code: u8) -> Option<ActKind>
        ensures value { result ≡ spec.kind_value code }
        // A kind is found by its own number.
        ensures own { (kind : ActKind) → code ≡ spec.kind_code kind → result ≡ Some kind }
    {
        find_code(&KINDS, code).copied()
    }

    /// The kind of a call's word, if there is one.
    pub fn of_word(word: &str) -> Option<ActKind>
        ensures value { result ≡ spec.kind_named word.now }
        // A kind is found by its own word.
        ensures own { (kind : ActKind) → word.now ≡ spec.word_of kind → result ≡ Some kind }
    {
        find_word(&KINDS, word).copied()
    }
}

fn has_code(kind: ActKind, code: u8) -> bool
    ensures { result ≡ (code == spec.kind_code kind) }
{
    code == kind.row().code
}

fn find_code(kinds: &[ActKind], code: u8) -> Option<&ActKind>
    ensures { option_copied result ≡ find (λ kind. code == spec.kind_code kind) kinds.now }
{
    kinds.iter().find(|kind| has_code(**kind, code))
}

fn has_word(kind: ActKind, word: &str) -> bool
    ensures { result ≡ bytes_eq word.now (spec.word_of kind) }
{
    word == kind.row().word
}

fn find_word<'a>(kinds: &'a [ActKind], word: &str) -> Option<&'a ActKind>
    ensures { option_copied result
        ≡ find (λ kind. bytes_eq word.now (spec.word_of kind)) kinds.now }
{
    kinds.iter().find(|kind| has_word(**kind, word))
}

impl Act {
    /// The kind of the act.
    pub fn kind(&self) -> ActKind
        ensures { result ≡ spec.kind_of self.now }
    {
        match self {
            Act::Adopt(_) => ActKind::Adopt,
            Act::Amend(_) => ActKind::Amend,
            Act::Transfer(_) => ActKind::Transfer,
            Act::Requisition(_) => ActKind::Requisition,
            Act::Withdraw(_) => ActKind::Withdraw,
            Act::Order(_) => ActKind::Order,
            Act::ChangeOrder(_) => ActKind::ChangeOrder,
            Act::CancelOrder(_) => ActKind::CancelOrder,
            Act::Voucher(_) => ActKind::Voucher,
            Act::VoidVoucher(_) => ActKind::VoidVoucher,
            Act::Pay(_) => ActKind::Pay,
            Act::Bill(_) => ActKind::Bill,
            Act::Collect(_) => ActKind::Collect,
            Act::Receive(_) => ActKind::Receive,
            Act::WriteOff(_) => ActKind::WriteOff,
            Act::Asset(_) => ActKind::Asset,
            Act::Issue(_) => ActKind::Issue,
            Act::PayDue(_) => ActKind::PayDue,
            Act::Leave(_) => ActKind::Leave,
            Act::Interfund(_) => ActKind::Interfund,
            Act::Close(_) => ActKind::Close,
            Act::Lease(_) => ActKind::Lease,
        }
    }

    /// Which numbers the act draws.
    pub fn draws(&self) -> Draws
        ensures { result ≡ spec.draws_of self.now }
    {
        match self {
            Act::Asset(AssetAct::Dispose(_)) => Draws::Nothing,
            act => act.kind().row().draws,
        }
    }
}
