//! What a depot was asked for, and what came. Only contracts see it; it takes no bytes. Who writes a depot of his own keeps
//! `Fetches` in it, and notes there what came of each name.
ghost use Rattle.std.specs.Prelude.{◌≡◌, ◌++◌, ◌∷◌, [], List};
ghost use Rattle.std.specs.Borrow.{ftrue};
ghost use Rattle.outside.specs.Fetched.{Fetched, fetched_code};
ghost use Rattle.outside.specs.Asked.{fetched_of};

use crate::depot::DepotRefusal;
use olap_meaning::List;
use std::marker::Model;

/// All that was asked for, in its order. A clause reads it as `answers`.
#[derive(Drop)]
pub struct Fetches {
    ghost answers: { List Fetched } by { fetched_code },
}

impl Model for Fetches {
    ghost also_owns = { λ _. ftrue };
}

/// A name that was asked for, and what came.
#[derive(Clone, Copy, Drop)]
pub struct Fetch<'a> {
    pub name: &'a str,
    pub came: &'a Result<List<u8>, DepotRefusal>,
}

impl Fetches {
    /// Nothing was asked for.
    pub fn new() -> Fetches
        ensures { result.answers ≡ [] }
    {
        Fetches {}
    }

    /// The same, with one fetch more.
    #[inline(always)]
    pub fn and(&self, _fetch: &Fetch<'_>) -> Fetches
        ensures { result.answers ≡ self.now.answers ++ fetched_of _fetch.now ∷ [] }
    {
        Fetches {}
    }
}

/// Notes what came of a name, and gives it back.
pub fn noted(
    fetches: &mut Fetches,
    name: &str,
    came: Result<List<u8>, DepotRefusal>,
) -> Result<List<u8>, DepotRefusal>
    ensures came { result ≡ came }
    ensures noted { fetches.new.answers ≡ fetches.old.answers ++ (name.now, came) ∷ [] }
{
    *fetches = fetches.and(&Fetch { name, came: &came });
    came
}
