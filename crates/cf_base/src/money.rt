//! Amounts of money.

ghost use Rattle.std.specs.Prelude.{◌≡◌, Some, None, if◌then◌else◌};
ghost use Rattle.cf_base.specs.Money.{is_amount};

/// The largest amount of one call, in cents (own rule): 100 thousand million.
pub const MOST_CENTS: u64 = 10_000_000_000_000;

/// An amount of one call: from 1 to 10,000,000,000,000 cents (own rule).
#[derive(Clone, Copy)]
pub struct Cents {
    pub cents: u64,
}

impl Cents {
    /// The amount, or `None` exactly where `n` is 0 or above the limit.
    pub fn new(n: u64) -> Option<Cents>
        ensures { result ≡ (if is_amount n then Some (record { cents = n }) else None) }
    {
        if 1 <= n && n <= MOST_CENTS {
            Some(Cents { cents: n })
        } else {
            None
        }
    }

    /// The number of cents.
    pub fn get(self) -> u64
        ensures { result ≡ self.cents }
    {
        self.cents
    }
}
