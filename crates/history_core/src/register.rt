//! Things that are kept once each, by their numbers.
ghost use Rattle.std.specs.Prelude.{◌≡◌, ◌++◌, ◌∷◌, [], IfOk, IfSome, OnErr, OnOk, Some, length, option_copied, slice_get, true};
ghost use Rattle.std.specs.Fn.{FnReturnsAt};

use indexmap::IndexMap;
use olap_meaning::OutOfMemory;
use std::alloc::Global;
use std::marker::Model;

/// This many things are found by a walk, since most answers have no more; what comes after them by its digest.
const FEW: usize = 8;

/// A digest with a number more.
pub(crate) fn digested(digest: u64, number: u64) -> u64 {
    (digest ^ number).wrapping_mul(0x9e37_79b9_7f4a_7c15)
}

/// Things by their numbers, which count from 0. Few take no memory beside their own. The number of each that comes after
/// them is noted under a digest of it: of two with the same digest the later alone is found, and the other may be kept
/// once more.
#[derive(Drop)]
pub(crate) struct Register<T> {
    things: Vec<T>,
    noted: Option<Box<IndexMap<u64, u32>>>,
}

impl<T> Model for Register<T> {
    ghost use Rattle.std.specs.Prelude.{List};

    ghost Value = { List T };

    ghost view = { λ r. r.things.items };
}

impl<T> Register<T> {
    /// No thing. It takes no memory.
    pub(crate) fn new(alloc: Global) -> Register<T>
        ensures { result ≡ [] }
    {
        Register {
            things: Vec::new(alloc),
            noted: None,
        }
    }

    /// The thing of a number.
    pub(crate) fn get(&self, number: u32) -> Option<&T>
        ensures { option_copied result ≡ slice_get self.now number }
    {
        self.things.get(number as usize)
    }

    // The number that is noted under a digest.
    fn noted(&self, digest: u64) -> Option<u32> {
        self.noted.as_ref()?.get(&digest).copied()
    }

    /// The number of a thing that passes a test: one of the first, or that which is noted under a digest. It takes no
    /// memory.
    pub(crate) fn find<F: Fn(&T) -> bool>(&self, digest: u64, is: F) -> Option<u32>
        requires { F.IsAlwaysCallable is }
        ensures { IfSome result
            (λ number. (thing : T) × (slice_get self.now number ≡ Some thing)
            × FnReturnsAt F.Fn is thing true) }
    {
        for place in 0..self.things.len().min(FEW) {
            if is(&self.things[place]) {
                return Some(place as u32);
            }
        }
        let number = self.noted(digest)?;
        let found = is(self.get(number)?);
        if found { Some(number) } else { None }
    }

    // Notes a number under a digest.
    fn note(&mut self, alloc: Global, digest: u64, number: u32) -> Result<(), OutOfMemory>
        ensures { self.new ≡ self.old }
    {
        if let Some(noted) = &mut self.noted {
            noted.insert(digest, number)?;
            return Ok(());
        }
        let mut noted = IndexMap::new(alloc);
        noted.insert(digest, number)?;
        self.noted = Some(Box::new(alloc, noted)?);
        Ok(())
    }

    // Makes room for one thing more, and for the first alone, since mostly no other comes.
    fn reserve_one(&mut self) -> Result<(), OutOfMemory>
        ensures { self.new ≡ self.old }
    {
        if self.things.is_empty() {
            self.things.reserve_exact(1)?;
        }
        self.things.reserve(1)?;
        Ok(())
    }

    /// Adds a thing, which is noted under a digest where it is none of the first. It answers the thing's number.
    pub(crate) fn add(&mut self, alloc: Global, digest: u64, thing: T) -> Result<u32, OutOfMemory>
    where
        T: Drop,
        ensures number { IfOk result (λ number. number ≡ length self.old) }
        ensures ok { OnOk result (self.new ≡ self.old ++ thing ∷ []) }
        ensures err { OnErr result (self.new ≡ self.old) }
    {
        let Ok(number) = u32::try_from(self.things.len()) else {
            return Err(OutOfMemory);
        };
        if self.things.len() >= FEW {
            self.note(alloc, digest, number)?;
        }
        self.reserve_one()?;
        self.things.push(thing)?;
        Ok(number)
    }
}
