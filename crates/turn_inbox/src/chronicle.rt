ghost use Rattle.std.specs.Prelude.{◌≡◌, ℕ, List, length};

/// A value that stands for a list of entries over a basis, the plain data that never changes.
pub trait Chronicle {
    type Entry;

    type Basis;

    /// The list that the value stands for.
    ghost list: { Self → List Self.Entry };

    /// What never changes, and what lawfulness depends on.
    ghost basis: { Self → Self.Basis };

    /// The number of the seat that made the entry. It is 0 for an entry of nobody.
    ghost seat_of: { Self.Entry → ℕ };

    /// Which lists are lawful on a basis.
    ghost lawful: { Self.Basis → List Self.Entry → Type 0 };

    /// The length of the list.
    fn length(&self) -> u64
        ensures length { result ≡ length (list self.now) }
        ensures lawful { lawful (basis self.now) (list self.now) };

    ghost use Rattle.std.specs.Prelude.{◌++◌};

    /// Each beginning of a lawful list is lawful.
    ghost shorter: { (g : Self.Basis) (xs ys : List Self.Entry) → lawful g (xs ++ ys) → lawful g xs };
}
