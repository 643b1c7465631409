//! What the next call of the generator turns on.

ghost use Rattle.std.specs.Prelude.{◌≡◌, ◌+◌, ◌<◌, ◌^◌};
ghost use Rattle.cf_run_generate.specs.Turns.{amount_of, choice_of, first_turn, line_of, next_seed, turn_after};

/// What the next call turns on: the number drawn for it and what the earlier ones left.
#[derive(Clone, Copy)]
pub struct Turn {
    /// Below 2^31.
    pub seed: u64,
    /// How many orders there are.
    pub orders: u32,
    /// The control line of the last order, where no voucher has named it yet.
    pub waiting: Option<u16>,
}

/// What a call of the generator is.
#[derive(Clone, Copy)]
pub enum Choice {
    Order,
    /// A voucher on the appropriation itself.
    Direct,
    /// The final voucher on the last order, where it still waits for one, and else as `Direct`.
    Final,
    Receipt,
}

/// The next number of the linear congruential generator.
fn drawn_after(seed: u64) -> u64
    requires { seed < 2 ^ 31 }
    ensures { result ≡ next_seed seed }
{
    (1_103_515_245 * seed + 12_345) % 2_147_483_648
}

impl Turn {
    /// The first turn of a run of `n` calls.
    pub fn first(n: u32) -> Turn
        requires { n < 2 ^ 31 }
        ensures value { result ≡ first_turn n }
    {
        Turn {
            seed: drawn_after(u64::from(n)),
            orders: 0,
            waiting: None,
        }
    }

    /// What the call is.
    pub fn choice(self) -> Choice
        ensures { result ≡ choice_of self }
    {
        match self.seed / 65_536 / 40 % 4 {
            0 => Choice::Order,
            1 => Choice::Direct,
            2 => Choice::Final,
            _ => Choice::Receipt,
        }
    }

    /// The control line of the call.
    pub fn line(self) -> u16
        ensures value { result ≡ line_of self }
        ensures small { result < 40 }
    {
        (self.seed / 65_536 % 40) as u16
    }

    /// The amount of the call, in cents.
    pub fn amount(self) -> u64
        ensures { result ≡ amount_of self }
    {
        self.seed / 65_536 + 1
    }

    /// The turn after the call.
    pub fn next(self) -> Turn
        requires seed { self.seed < 2 ^ 31 }
        requires orders { self.orders + 1 < 2 ^ 32 }
        ensures { result ≡ turn_after self }
    {
        let seed = drawn_after(self.seed);
        match self.choice() {
            Choice::Order => Turn {
                seed,
                orders: self.orders + 1,
                waiting: Some(self.line()),
            },
            Choice::Final => Turn {
                seed,
                orders: self.orders,
                waiting: None,
            },
            Choice::Direct | Choice::Receipt => Turn {
                seed,
                orders: self.orders,
                waiting: self.waiting,
            },
        }
    }
}
