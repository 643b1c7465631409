//! A list that only proofs read. It takes no memory, and its methods do nothing at run time. Only a
//! proof by hand can set such a list, so these two methods have one. What it says is tied to what
//! the program answers by the invariant of the struct that holds it.

ghost use Rattle.std.specs.Prelude.{◌≡◌, List, [], ◌∷◌, ◌++◌};
ghost use Rattle.std.specs.Borrow.{ftrue};

use std::marker::{Model, PhantomData};

/// What was added, oldest first. A clause reads it as `items`.
#[derive(Drop)]
pub struct History<A> {
    of: PhantomData<A>,
    pub ghost items: { List A },
}

impl<A> Model for History<A> {
    ghost also_owns = { λ _. ftrue };
}

// It owns nothing.
unsafe impl<A: Send> Send for History<A> {}

impl<A> History<A> {
    /// Nothing was added.
    pub fn new() -> History<A>
        ensures { result.items ≡ [] }
    {
        History { of: PhantomData }
    }

    /// What was added, and then one item more.
    pub fn and(&self, item: &A) -> History<A>
        ensures { result.items ≡ self.now.items ++ item.now ∷ [] }
    {
        History { of: PhantomData }
    }
}
