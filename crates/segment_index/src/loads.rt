//! Kept loads, by their numbers.
ghost use Rattle.std.specs.Prelude.{◌≡◌, ◌==◌, ◌<◌, ◌≤◌, ◌+◌, ◌++◌, ◌∷◌, ℕ, [], All, IfOk, IfSome, IsTrue, List, OnOk, Some, false, filter, length, map, not, option_copied, option_map, sum_by};
ghost use Rattle.std.specs.List.{find};
ghost use Rattle.std.specs.List.Sorted.{IsPermutation};
ghost use Rattle.olap_meaning.specs.declared.regions.Region.{Region};
ghost use Rattle.olap_meaning.specs.Covering.{among};
ghost use Rattle.olap_meaning.specs.Legal.{rise};
ghost use Rattle.olap_meaning.specs.Rolled.{value_count};
ghost use Rattle.cache_flush.specs.Loads.{IsGone, IsOldest, are_different, group_count, kept_in, numbers_of, shut_off};

use crate::numbers::Numbers;
use cache_flush::{Kept, Shut};
use indexmap::IndexMap;
use olap_catalog::Catalog;
use olap_meaning::{OutOfMemory, Region};
use std::alloc::Global;
use std::marker::Model;
use std::sync::Arc;

/// Kept loads, found by the hash of their numbers, under the regions that were flushed. One that is put in comes last; where
/// one is taken out, the last takes its place. Beside them stand their numbers, rising, and how many groups they hold in all.
#[derive(Drop)]
pub(crate) struct Loads {
    by_number: IndexMap<u64, Kept>,
    numbers: Numbers,
    groups: u128,
    shut: Shut,
}

impl Model for Loads {
    ghost use Rattle.std.specs.Prelude.{IsTrue, map, min};
    ghost use Rattle.indexmap.specs.IndexMap.{spare};
    ghost use Rattle.cache_flush.specs.Loads.{are_different, numbers_of};
    ghost use Rattle.segment_index.specs.Keeping.{AreNumbersOf, HoldGroups};
    ghost use Rattle.segment_index.specs.Numbered.{AreNumbered, AreWithin, NumberedOf, seen};

    ghost Value = { NumberedOf };

    ghost view = { λ a. record { loads = map (λ entry. entry.1) (seen a.shut.regions a.by_number.entries); flushed = a.shut.regions; ready = a.shut.ready; places = min (spare a.by_number) a.numbers.places } };

    ghost invariant = { λ a. AreNumbered (seen a.shut.regions a.by_number.entries)
        × IsTrue (are_different (numbers_of (map (λ entry. entry.1) (seen a.shut.regions a.by_number.entries))))
        × AreNumbersOf (map (λ entry. entry.1) (seen a.shut.regions a.by_number.entries)) a.numbers.items
        × HoldGroups (map (λ entry. entry.1) (seen a.shut.regions a.by_number.entries)) a.groups
        × AreWithin a.shut.regions a.by_number.entries };
}

impl Loads {
    /// No load. It takes no memory.
    pub(crate) fn new(alloc: Global) -> Loads
        ensures loads { result.loads ≡ [] }
        ensures flushed { result.flushed ≡ [] }
    {
        Loads {
            by_number: IndexMap::new(alloc),
            numbers: Numbers::new(alloc),
            groups: 0,
            shut: Shut::new(alloc),
        }
    }

    /// How many there are.
    pub(crate) fn len(&self) -> usize
        ensures { result ≡ length self.now.loads }
    {
        self.by_number.len()
    }

    /// No number stands twice. This costs nothing.
    pub(crate) fn numbers_differ(&self)
        ensures { IsTrue (are_different (numbers_of self.now.loads)) }
    {
        let _ = &self.by_number;
    }

    /// The load of a number. It takes no memory.
    pub(crate) fn get(&self, load: u64) -> Option<&Kept>
        ensures { option_map (kept_in self.now.flushed) (option_copied result)
            ≡ find (λ kept. kept.load == load) self.now.loads }
    {
        self.by_number.get(&load)
    }

    /// The regions that were flushed.
    pub(crate) fn shut_list(&self) -> &Shut
        ensures { result.now.regions ≡ self.now.flushed }
    {
        &self.shut
    }

    /// A load of a number that a region which was flushed last shuts off as a whole, as far as a short test tells. It takes no
    /// memory.
    pub(crate) fn gone(&self, catalog: &Catalog, load: u64, region: &Region) -> Option<&Kept>
        requires last { (before : List Region)
            × (self.now.flushed ≡ before ++ region.now ∷ []) }
        ensures there { IfSome (option_copied result)
            (λ kept. find (λ other. other.load == load) self.now.loads
            ≡ Some (kept_in self.now.flushed kept)) }
        ensures gone { IfSome (option_copied result)
            (λ kept. IsGone (value_count catalog.now) (kept_in self.now.flushed kept)) }
    {
        match self.by_number.get(&load) {
            Some(kept) if is_gone(catalog, &self.shut, kept, region) => Some(kept),
            _ => None,
        }
    }

    /// The numbers of the loads in two parts, rising. It takes no memory.
    pub(crate) fn parts(&self) -> (&[u64], &[u64])
        ensures { (load : ℕ) → among (result.0.now ++ result.1.now) load
            ≡ among (numbers_of self.now.loads) load }
    {
        self.numbers.parts()
    }

    /// The numbers of the loads, rising.
    pub(crate) fn numbers(&self, alloc: Global) -> Result<Vec<u64>, OutOfMemory>
        ensures rising { IfOk result (λ numbers. IsTrue (rise numbers.items)) }
        ensures members { IfOk result (λ numbers. (load : ℕ)
            → among numbers.items load ≡ among (numbers_of self.now.loads) load) }
    {
        self.numbers.are_rising();
        self.numbers.copied(alloc)
    }

    /// The least number of a load, None exactly where there is none. It takes no memory.
    pub(crate) fn oldest(&self) -> Option<u64>
        ensures { IsOldest self.now.loads result }
    {
        self.numbers.least()
    }

    /// How many groups the loads hold in all.
    pub(crate) fn groups(&self) -> u128
        ensures { result ≡ sum_by group_count self.now.loads }
    {
        self.groups
    }

    /// Makes room for this many more.
    pub(crate) fn reserve(&mut self, places: usize) -> Result<(), OutOfMemory>
        ensures ok { OnOk result (places ≤ self.new.places) }
        ensures loads { self.new.loads ≡ self.old.loads }
        ensures places { self.old.places ≤ self.new.places }
        ensures flushed { self.new.flushed ≡ self.old.flushed }
        ensures ready { self.new.ready ≡ self.old.ready }
    {
        self.by_number.reserve(places)?;
        self.numbers.reserve(places)
    }

    /// Puts a load in. It takes no memory: the room is there.
    pub(crate) fn insert(&mut self, kept: Kept)
        requires place { 0 < self.old.places }
        requires another { among (numbers_of self.old.loads) kept.load ≡ false }
        requires since { kept.place ≤ length self.old.flushed }
        ensures loads { self.new.loads ≡ self.old.loads ++ kept_in self.old.flushed kept ∷ [] }
        ensures places { self.old.places ≤ self.new.places + 1 }
        ensures flushed { self.new.flushed ≡ self.old.flushed }
        ensures ready { self.new.ready ≡ self.old.ready }
    {
        // As many loads as can be counted hold few enough groups.
        let _held = self.by_number.len();
        self.groups += u128::from(kept.body.groups());
        self.numbers.insert(kept.load);
        let added = self.by_number.insert(kept.load, kept);
        prove!(added.is_ok());
    }

    /// Takes a load out and hands it over, None exactly where no load has this number. It takes no memory.
    pub(crate) fn remove(&mut self, load: u64) -> Option<Kept>
        ensures taken { option_map (kept_in self.old.flushed) result
            ≡ find (λ kept. kept.load == load) self.old.loads }
        ensures left { IsPermutation
            (filter (λ kept. not (kept.load == load)) self.old.loads)
            self.new.loads }
        ensures places { self.old.places ≤ self.new.places }
        ensures flushed { self.new.flushed ≡ self.old.flushed }
        ensures ready { self.new.ready ≡ self.old.ready }
    {
        let kept = self.by_number.swap_remove(&load)?;
        self.numbers.remove(load);
        self.groups -= u128::from(kept.body.groups());
        Some(kept)
    }

    /// Makes room for a flush of a region.
    pub(crate) fn reserve_shut(&mut self, region: &Arc<Region>) -> Result<(), OutOfMemory>
        ensures ready { OnOk result (self.new.ready ≡ Some region.now.value) }
        ensures loads { self.new.loads ≡ self.old.loads }
        ensures flushed { self.new.flushed ≡ self.old.flushed }
        ensures places { self.old.places ≤ self.new.places }
    {
        self.shut.reserve(region)
    }

    /// Adds a flush of a region, which shuts off part of each load that it concerns. It takes no memory: the room is there.
    pub(crate) fn shut(&mut self, region: &Region)
        requires ready { self.old.ready ≡ Some region.now }
        ensures loads { self.new.loads ≡ map (shut_off region.now) self.old.loads }
        ensures flushed { self.new.flushed ≡ self.old.flushed ++ region.now ∷ [] }
        ensures places { self.old.places ≤ self.new.places }
    {
        self.shut.add(region);
    }
}

// Whether a region that was flushed last shuts off a load as a whole.
fn is_gone(catalog: &Catalog, shut: &Shut, kept: &Kept, region: &Region) -> bool
    requires last { (before : List Region) × (shut.now.regions ≡ before ++ region.now ∷ []) }
    ensures { IsTrue result → IsGone (value_count catalog.now) (kept_in shut.now.regions kept.now) }
{
    kept.place < shut.len() && kept.is_gone(catalog, shut, region)
}
