//! The kinds of entry that a version has, and the kinds of movement, each by its number.

ghost use Rattle.std.specs.Prelude.{◌≡◌};
ghost use Rattle.cf_codec_fields.specs.Kinds as spec;

use cf_calls::ActKind;
use cf_calls::acts::FundMoveKind;

/// Whether the grammar of a version has a kind: version 1 has no leases.
pub fn is_of(version: u8, kind: ActKind) -> bool
    ensures { result ≡ spec.is_of version kind }
{
    match kind {
        ActKind::Lease => version != 1,
        _ => true,
    }
}

/// The number of a kind of movement.
pub fn move_code(kind: FundMoveKind) -> u8
    ensures { result ≡ spec.move_code kind }
{
    match kind {
        FundMoveKind::Transfer => 0,
        FundMoveKind::Loan => 1,
        FundMoveKind::Repay => 2,
    }
}

/// The kind of movement of a number, if there is one.
#[tactic(auto, unfolding(crate::specs::Kinds::move_value))]
pub fn move_value(number: u8) -> Option<FundMoveKind>
    ensures { result ≡ spec.move_value number }
{
    match number {
        0 => Some(FundMoveKind::Transfer),
        1 => Some(FundMoveKind::Loan),
        2 => Some(FundMoveKind::Repay),
        _ => None,
    }
}
