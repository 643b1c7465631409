//! Amounts in cents.

ghost use Rattle.std.specs.Prelude.{◌≡◌, ◌<◌, ◌^◌, ◌-ℤ◌, ℕ, pos, unsigned_abs};

/// One amount less another.
pub fn difference(a: u128, b: u128) -> i128
    requires from { a < 2 ^ 127 }
    requires to { b < 2 ^ 127 }
    ensures value { result ≡ pos a -ℤ pos b }
    ensures small { (most : ℕ) → a < most → b < most → unsigned_abs result < most }
{
    a as i128 - b as i128
}
