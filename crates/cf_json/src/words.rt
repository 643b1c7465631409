//! The words of calls and of their fields, each set a table: that of changing calls is the table of
//! calls.

ghost use Rattle.std.specs.Prelude.{◌≡◌, find, option_copied};
ghost use Rattle.std.specs.Str.{bytes_eq};
ghost use Rattle.cf_json.specs.Words as spec;
ghost use Rattle.serde_json.specs.View.{view};
ghost use Rattle.cf_json_members.specs.Kinds.{as_word, word_in};
ghost use Rattle.cf_json.specs.Words.{look_words, asset_words, leave_words, move_words, period_words, basis_words, as_statement};

use cf_base::Kind;
use cf_calls::acts::FundMoveKind;
use cf_calls::{ActKind, Basis};
use cf_json_members::kinds::FieldKind;
use serde_json::Value;

/// Which look a line is.
#[derive(Clone, Copy)]
pub enum LookWord {
    Line,
    Requisition,
    Order,
    Voucher,
    Bill,
    Asset,
    Bond,
    Leave,
    Account,
    Reconcile,
    Report,
}

/// What is done with an asset.
#[derive(Clone, Copy)]
pub enum AssetWord {
    Donate,
    Dispose,
}

/// What is done with leave.
#[derive(Clone, Copy)]
pub enum LeaveWord {
    Earn,
    Use,
    Mature,
}

/// What is closed.
#[derive(Clone, Copy)]
pub enum PeriodWord {
    Month,
    Year,
}

const LOOKS: [(&str, LookWord); 11] = [
    ("line", LookWord::Line),
    ("requisition", LookWord::Requisition),
    ("order", LookWord::Order),
    ("voucher", LookWord::Voucher),
    ("bill", LookWord::Bill),
    ("asset", LookWord::Asset),
    ("bond", LookWord::Bond),
    ("leave", LookWord::Leave),
    ("account", LookWord::Account),
    ("reconcile", LookWord::Reconcile),
    ("report", LookWord::Report),
];

const ASSET_WORDS: [(&str, AssetWord); 2] = [
    ("donate", AssetWord::Donate),
    ("dispose", AssetWord::Dispose),
];

const LEAVE_WORDS: [(&str, LeaveWord); 3] = [
    ("earn", LeaveWord::Earn),
    ("use", LeaveWord::Use),
    ("mature", LeaveWord::Mature),
];

const PERIOD_WORDS: [(&str, PeriodWord); 2] = [
    ("month", PeriodWord::Month),
    ("year", PeriodWord::Year),
];

const MOVE_WORDS: [(&str, FundMoveKind); 3] = [
    ("transfer", FundMoveKind::Transfer),
    ("loan", FundMoveKind::Loan),
    ("repay", FundMoveKind::Repay),
];

const BASES: [(&str, Basis); 2] = [("fund", Basis::Fund), ("gov", Basis::Gov)];

fn entry_of<'a, W: Copy>(
    words: &'a [(&'static str, W)],
    text: &str,
) -> Option<&'a (&'static str, W)>
    ensures { option_copied result ≡ find (λ w. bytes_eq text.now (w.0).now) words.now }
{
    words.iter().find(|word| text == word.0)
}

/// What a text is in a table.
#[tactic(auto, using(crate::proofs::WordTables::plain_word))]
fn word_of<W: Copy>(words: &[(&'static str, W)], text: &str) -> Option<W>
    ensures { result ≡ word_in (spec.plain_words words.now) text.now }
{
    match entry_of(words, text) {
        Some(word) => Some(word.1),
        None => None,
    }
}

/// What a value is by the word that it is.
fn read_word<W: Copy>(words: &[(&'static str, W)], value: &Value) -> Option<W>
    ensures { result ≡ as_word (spec.plain_words words.now) (view value.now) }
{
    match value.as_str() {
        Some(text) => word_of(words, text),
        None => None,
    }
}

/// The changing call of a word.
pub fn change_word(word: &Value) -> Option<ActKind>
    ensures { result ≡ spec.as_change (view word.now) }
{
    match word.as_str() {
        Some(text) => ActKind::of_word(text),
        None => None,
    }
}

/// The look of a word.
pub fn look_word(word: &Value) -> Option<LookWord>
    ensures { result ≡ as_word look_words (view word.now) }
{
    read_word(&LOOKS, word)
}

impl FieldKind for AssetWord {
    type Out = AssetWord;

    ghost kind = { as_word asset_words };

    ghost fits = { λ _. Unit {0} };

    fn read(value: &Value) -> Option<AssetWord> {
        read_word(&ASSET_WORDS, value)
    }
}

impl FieldKind for LeaveWord {
    type Out = LeaveWord;

    ghost kind = { as_word leave_words };

    ghost fits = { λ _. Unit {0} };

    fn read(value: &Value) -> Option<LeaveWord> {
        read_word(&LEAVE_WORDS, value)
    }
}

impl FieldKind for PeriodWord {
    type Out = PeriodWord;

    ghost kind = { as_word period_words };

    ghost fits = { λ _. Unit {0} };

    fn read(value: &Value) -> Option<PeriodWord> {
        read_word(&PERIOD_WORDS, value)
    }
}

/// How cash moves between two funds.
pub struct MoveWord;

impl FieldKind for MoveWord {
    type Out = FundMoveKind;

    ghost kind = { as_word move_words };

    ghost fits = { λ _. Unit {0} };

    fn read(value: &Value) -> Option<FundMoveKind> {
        read_word(&MOVE_WORDS, value)
    }
}

/// A basis of accounting.
pub struct BasisWord;

impl FieldKind for BasisWord {
    type Out = Basis;

    ghost kind = { as_word basis_words };

    ghost fits = { λ _. Unit {0} };

    fn read(value: &Value) -> Option<Basis> {
        read_word(&BASES, value)
    }
}

/// The kind of a statement.
pub struct StatementWord;

impl FieldKind for StatementWord {
    type Out = Kind;

    ghost kind = { as_statement };

    ghost fits = { λ _. Unit {0} };

    fn read(value: &Value) -> Option<Kind> {
        Kind::named(value.as_str()?)
    }
}
