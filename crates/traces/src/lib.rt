//! Lists that only contracts see.
//!
//! A value that sums up many others, as a tally sums up numbers, keeps beside its data a `Trace` of what it
//! was made from, so that its contract can say what it stands for. A trace takes no bytes, and its functions
//! do nothing when they run.
#![tactic(auto)]

ghost use Rattle.std.specs.Prelude.{◌≡◌, List, [], ◌∷◌, ◌++◌};
ghost use Rattle.std.specs.Borrow.{ftrue};

use std::marker::{Model, PhantomData};

/// A list of what was handed to it. A clause reads the list as `items`.
#[derive(Drop)]
pub struct Trace<T> {
    of: PhantomData<T>,
    pub ghost items: { List T },
}

impl<T> Model for Trace<T> {
    ghost also_owns = { λ _. ftrue };
}

// It owns nothing.
unsafe impl<T: Send> Send for Trace<T> {}

unsafe impl<T: Sync> Sync for Trace<T> {}

impl<T> Trace<T> {
    /// The empty list.
    pub fn new() -> Trace<T>
        ensures { result.items ≡ [] }
    {
        Trace { of: PhantomData }
    }

    /// The list with one item more at its end.
    pub fn and(&self, item: &T) -> Trace<T>
        ensures { result.items ≡ self.now.items ++ item.now ∷ [] }
    {
        Trace { of: PhantomData }
    }

    /// This list, and then the other.
    pub fn joined(&self, other: &Trace<T>) -> Trace<T>
        ensures { result.items ≡ self.now.items ++ other.now.items }
    {
        Trace { of: PhantomData }
    }
}
