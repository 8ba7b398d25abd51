//! Where bytes go.
ghost use Rattle.std.specs.Prelude.{◌≡◌, ◌≤◌, ◌++◌, ◌∷◌, [], OnOk, IfErr, List, length};
ghost use Rattle.outside.specs.Event.{Event, took};
ghost use Rattle.outside.specs.Talks.{cut};

use thiserror::Error;

/// A write has failed, and so many of its bytes were taken before.
#[derive(Clone, Copy, Debug, PartialEq, Eq, Error)]
#[error("a write has failed behind {taken} bytes")]
pub struct CutOff {
    pub taken: usize,
}

/// Where bytes go, as the standard output.
pub trait Sink {
    // All that it has taken so far, and its failures: known of every object.
    ghost talk: { Self → List Event };

    /// Takes all the bytes, or a front of them and fails.
    fn write(&mut self, bytes: &[u8]) -> Result<(), CutOff>
        ensures took { OnOk result (talk self.new ≡ talk self.old ++ took bytes.now ∷ []) }
        ensures within { IfErr result (λ e. e.taken ≤ length bytes.now) }
        ensures cut { IfErr result (λ e. talk self.new ≡ talk self.old ++ cut e.taken bytes.now) };
}
