//! The order of days.

ghost use Rattle.std.specs.Prelude.{◌≡◌};
ghost use Rattle.cf_books_days.specs.Through as spec;

use cf_base::Day;
use cf_register_parts::is_before;

/// Whether a day comes no later than the one that is asked for.
pub fn is_through(day: Day, on: Day) -> bool
    ensures { result ≡ spec.is_through day on }
{
    !is_before(day, on)
}
