//! What is proved of the definitions themselves: worked rows, which the checker computes.

ghost use Rattle.cf_classes.specs.Worked.{ClassifiesBalances};

/// On a short history that was worked by hand the three statements have the rows that they should.
/// So a slip that a definition and its code made alike is refused here.
pub fn worked_classes()
    ensures { ClassifiesBalances }
{}
