//! What happens between a call's stripes and the book.

use cf_calls::Call;

/// What is called once for each call, after it has taken its stripes and before it takes the book.
pub trait Gate {
    fn taken(&self, call: &Call);
}

/// A gate that does nothing.
pub struct NoGate;

impl Gate for NoGate {
    fn taken(&self, _call: &Call) {}
}
