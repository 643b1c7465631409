//! What is proved of the definitions themselves: worked rows, which the checker computes.

ghost use Rattle.cf_pool.specs.Worked.{SharesToTheCent, WeighsDailyBalances, WritesReceipts};

/// A month's interest on a small pool that was worked by hand is weighed, shared and written as it
/// should be. So a slip that a definition and its code made alike is refused here.
pub fn worked_pool()
    ensures weights { WeighsDailyBalances }
    ensures shares { SharesToTheCent }
    ensures receipts { WritesReceipts }
{}
