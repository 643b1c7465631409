//! An amount shared out by weights.
ghost use Rattle.std.specs.Prelude.{◌≡◌, ◌+◌, ◌<◌, ◌≤◌, ◌≢◌, ◌^◌, ℕ, IfSome, None, length, map, slice_index, sum};
ghost use Rattle.cf_base.specs.Shares.{AreShares, HasFloor, IsAhead, floor_of, rest_of};

/// A weight's part of the total, rounded down.
fn floor_share(total: u64, all: u64, weight: u64) -> u64
    requires some { 0 < all }
    requires part { weight ≤ all }
    ensures { result ≡ floor_of total all weight }
{
    (u128::from(total) * u128::from(weight) / u128::from(all)) as u64
}

/// What rounding down leaves of a weight's part, in parts of `all`.
fn rest_share(total: u64, all: u64, weight: u64) -> u64
    requires some { 0 < all }
    ensures { result ≡ rest_of total all weight }
{
    (u128::from(total) * u128::from(weight) % u128::from(all)) as u64
}

/// The place with no more than its floor whose remainder is the largest, the first of equal ones.
fn next_place(total: u64, all: u64, weights: &[u64], out: &[u64]) -> Option<usize>
    requires lengths { length out.now ≡ length weights.now }
    requires some { 0 < all }
    requires parts { (k : ℕ) → slice_index weights.now k ≤ all }
    ensures place { IfSome result (λ b. b < length weights.now) }
    ensures floor { IfSome result (λ b. HasFloor total all weights.now out.now b) }
    ensures first { IfSome result
        (λ b. (k : ℕ) → k < length weights.now → k ≢ b → HasFloor total all weights.now out.now k
        → IsAhead total all weights.now b k) }
    ensures none { result ≡ None → (k : ℕ) → k < length weights.now
        → HasFloor total all weights.now out.now k → ⊥ }
{
    let mut best = None;
    for i in 0..weights.len() {
        if out[i] != floor_share(total, all, weights[i]) {
            continue;
        }
        best = match best {
            Some(b) if rest_share(total, all, weights[i]) <= rest_share(total, all, weights[b]) => {
                Some(b)
            }
            _ => Some(i),
        };
    }
    best
}

/// Gives each place its floor, and answers what is left of the total.
fn put_floors(total: u64, all: u64, weights: &[u64], out: &mut [u64]) -> u64
    requires lengths { length out.old ≡ length weights.now }
    requires some { 0 < all }
    requires all { all ≡ sum weights.now }
    ensures floors { out.new ≡ map (floor_of total all) weights.now }
    ensures left { result + sum out.new ≡ total }
    ensures few { result ≤ length weights.now }
{
    let mut left = total;
    for i in 0..weights.len() {
        let share = floor_share(total, all, weights[i]);
        out[i] = share;
        left -= share;
    }
    left
}

/// Shares the total out by the weights (largest remainder): each place gets its part rounded down,
/// and what is left goes to the largest remainders, one unit each, the first of equal ones first.
/// The shares sum to the total.
pub fn share_out(total: u64, weights: &[u64], out: &mut [u64])
    requires lengths { length out.old ≡ length weights.now }
    requires some { 0 < sum weights.now }
    requires fits { sum weights.now < 2 ^ 64 }
    ensures { AreShares total weights.now out.new }
{
    let mut all = 0;
    for weight in weights {
        all += *weight;
    }
    let left = put_floors(total, all, weights, out);
    for given in 0..left {
        match next_place(total, all, weights, out) {
            Some(place) => out[place] += 1,
            None => return,
        }
    }
}
