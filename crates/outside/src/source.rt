//! Where bytes come from.
ghost use Rattle.std.specs.Prelude.{◌≡◌, ◌<◌, ◌≤◌, ◌++◌, ◌∷◌, IfOk, IfSome, OnErr, ℕ, List, [], Option, length, take};
ghost use Rattle.outside.specs.Event.{Event, gave_not};
ghost use Rattle.outside.specs.Talks.{shown};
ghost use Rattle.outside.specs.Told.{TakenOff};

use thiserror::Error;

/// A call on an object outside has failed.
#[derive(Clone, Copy, Debug, PartialEq, Eq, Error)]
#[error("a call on an object outside has failed")]
pub struct Failed;

/// Where bytes come from, as the standard input.
pub trait Source {
    // All that it has given so far, its end, and its failures: known of every object.
    ghost talk: { Self → List Event };

    // The bytes that are left, where it tells them.
    ghost left: { Self → Option (List ℕ) };

    /// Moves bytes from the front of what is left to the front of a piece, which has room for some, and gives their
    /// number: 0 only at the end. A failure takes none, and a later call may go on.
    fn read(&mut self, into: &mut [u8]) -> Result<usize, Failed>
        requires room { 0 < length into.old }
        ensures size { length into.new ≡ length into.old }
        ensures within { IfOk result (λ n. n ≤ length into.old) }
        ensures gave { IfOk result (λ n. talk self.new ≡ talk self.old ++ shown n into.new) }
        ensures failed { OnErr result (talk self.new ≡ talk self.old ++ gave_not ∷ []) }
        ensures front { IfOk result
            (λ n. TakenOff (left self.old) (left self.new) (take n into.new)) }
        ensures end { IfOk result (λ n. n ≡ 0 → IfSome (left self.old) (λ bytes. bytes ≡ [])) }
        ensures untaken { OnErr result (left self.new ≡ left self.old) };
}
