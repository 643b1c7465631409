//! Budgetary control: whether more is asked of a line than it has room for.

ghost use Rattle.std.specs.Prelude.{◌≡◌};
ghost use Rattle.cf_calls.specs.Common.{overspends};

use cf_calls::Refusal;

/// The refusal of a line of which more is asked than it has room for (GASB Codification 1700:
/// budgetary control). Amounts are in cents; nothing is refused where nothing is asked, though the
/// room be below zero.
pub fn line_refusal(line: u16, asked: i128, room: i128) -> Option<Refusal>
    ensures { result ≡ overspends line asked room }
{
    if asked > 0 && asked > room {
        Some(Refusal::Exceeds { line, asked, room })
    } else {
        None
    }
}
