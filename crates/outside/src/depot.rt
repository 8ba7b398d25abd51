//! Where files come from.
ghost use Rattle.std.specs.Prelude.{◌≡◌, ◌++◌, ◌∷◌, [], IfOk, IfSome, IsErrOf, Some, None, ℕ, List, Option};
ghost use Rattle.outside.specs.Fetched.{Fetched};
ghost use Rattle.outside.specs.Told.{file_named};

use olap_meaning::List;
use std::alloc::Global;
use thiserror::Error;

/// Why a file was not given.
#[derive(Clone, Copy, Debug, PartialEq, Eq, Error)]
pub enum DepotRefusal {
    /// No file has this name.
    #[error("no file has this name")]
    Missing,
    /// The file could not be read.
    #[error("the file could not be read")]
    Failed,
    #[error("out of memory")]
    OutOfMemory,
}

/// Where files come from, as a folder.
pub trait Depot {
    // Each name that it was asked for so far, with what came: known of every object.
    ghost answers: { Self → List Fetched };

    // The files, each with its name, where it tells them.
    ghost files: { Self → Option (List (List ℕ × List ℕ)) };

    /// The bytes of the file of this name.
    fn fetch(&mut self, alloc: Global, name: &str) -> Result<List<u8>, DepotRefusal>
        ensures answered { answers self.new ≡ answers self.old ++ (name.now, result) ∷ [] }
        ensures same_files { files self.new ≡ files self.old }
        ensures file { IfOk result
            (λ bytes. IfSome (files self.old) (λ all. file_named all name.now ≡ Some bytes)) }
        ensures not_there { IsErrOf result DepotRefusal.Missing
            → IfSome (files self.old) (λ all. file_named all name.now ≡ None) };
}
