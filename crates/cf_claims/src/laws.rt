//! What is proved of the definitions themselves: worked rows, which the checker computes.

ghost use Rattle.cf_claims.specs.Worked.{SharesTheAward, WritesBills};

/// Claims of a small grant that were worked by hand come to what they should, and are written so.
/// So a slip that a definition and its code made alike is refused here.
pub fn worked_grants()
    ensures claims { SharesTheAward }
    ensures bills { WritesBills }
{}
