//! Faults are counted.

ghost use Rattle.std.specs.Prelude.{◌≤◌};
ghost use Rattle.cf_base.specs.Common.{Rose};

use cf_base::Failed;

/// Counts a fault.
pub fn fault(faults: &mut u64) -> Failed
    ensures later { faults.old ≤ faults.new }
    ensures rose { Rose faults.old faults.new }
{
    *faults = faults.saturating_add(1);
    Failed
}
