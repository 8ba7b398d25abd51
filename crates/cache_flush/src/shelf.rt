//! What a shelf of kept loads offers.
use crate::kept::Kept;
use crate::shut::Shut;
use olap_meaning::{Cell, Header, List, OutOfMemory, Region};
use std::sync::Arc;

/// A shelf of kept loads, as those see it who only look up loads by their numbers. Its meaning is the list of the loads.
pub trait Shelf {
    ghost use Rattle.std.specs.Prelude.{◌≡◌, ◌==◌, List, IsTrue, option_copied, option_map};
    ghost use Rattle.std.specs.List.{find};
    ghost use Rattle.olap_meaning.specs.declared.regions.Region.{Region};
    ghost use Rattle.cache_flush.specs.Loads.{KeptOf, are_different, kept_in, numbers_of};

    // the regions that were flushed, in order
    ghost flushed: { Self → List Region };

    // the kept loads: each that is put in comes last, and the order may change where one is taken out
    ghost loads: { Self → List KeptOf };

    /// The kept load of a number, None exactly where there is none. It takes no memory.
    fn kept(&self, load: u64) -> Option<&Kept>
        ensures { option_map (kept_in (flushed self.now)) (option_copied result)
            ≡ find (λ kept. kept.load == load) (loads self.now) };

    /// The regions that were flushed, which shut off part of the loads.
    fn shut_list(&self) -> &Shut
        ensures { result.now.regions ≡ flushed self.now };

    /// No number stands twice. This costs nothing.
    fn numbers_differ(&self)
        ensures { IsTrue (are_different (numbers_of (loads self.now))) };
}

/// A shelf of kept loads, as a cache uses it: loads are put in, found by the cells that they serve, shut off in part by
/// flushes, and taken out. It has the regions that were flushed. All room is made by `reserve` and `reserve_shut`.
pub trait CacheShelf: Shelf {
    ghost use Rattle.std.specs.Prelude.{ℕ, ◌≡◌, ◌≤◌, ◌==◌, ◌++◌, ◌∷◌, [], List, IfOk, IsTrue, OnOk, false, filter, length, map, not, option_copied, option_map, sum_by};
    ghost use Rattle.std.specs.List.{find};
    ghost use Rattle.std.specs.List.Sorted.{IsPermutation};
    ghost use Rattle.olap_meaning.specs.declared.cells.Header.{Header};
    ghost use Rattle.olap_meaning.specs.declared.regions.Region.{Region};
    ghost use Rattle.olap_meaning.specs.Covering.{among};
    ghost use Rattle.olap_meaning.specs.Legal.{rise};
    ghost use Rattle.cache_flush.specs.Loads.{IsGreatest, IsOldest, group_count, is_candidate, kept_in, numbers_of, shut_off};

    // there is a place for a load of each of these headers
    ghost has_places: { Self → List Header → Type 0 };

    // there is room for a flush of a region
    ghost is_ready: { Self → Region → Type 0 };

    /// Where no place is needed, all are there, and a place that is not needed hinders no other. This costs nothing.
    fn places_are_apart(&self)
        ensures none { has_places self.now [] }
        ensures apart { (before : List Header) (header : Header) (after : List Header)
            → has_places self.now (before ++ header ∷ after) → has_places self.now (before ++ after) };

    /// How many loads are kept.
    fn len(&self) -> usize
        ensures { result ≡ length (Self.loads self.now) };

    /// The numbers of the kept loads, rising.
    fn numbers(&self) -> Result<List<u64>, OutOfMemory>
        ensures rising { IfOk result (λ numbers. IsTrue (rise numbers)) }
        ensures members { IfOk result (λ numbers. (load : ℕ)
            → among numbers load ≡ among (numbers_of (Self.loads self.now)) load) };

    /// The least number of a kept load, None exactly where none is kept. It takes no memory.
    fn oldest(&self) -> Option<u64>
        ensures { IsOldest (Self.loads self.now) result };

    /// How many groups the kept loads hold in all. It takes no memory.
    fn groups(&self) -> u128
        ensures { result ≡ sum_by group_count (Self.loads self.now) };

    /// Of the kept loads that cover a cell with just the cell's columns and are live for it, the one with the greatest
    /// number, None exactly where there is none. It takes no memory.
    fn find(&self, cell: &Cell) -> Option<&Kept>
        ensures { IsGreatest (Self.loads self.now) cell.now
            (option_map (kept_in (Self.flushed self.now)) (option_copied result)) };

    /// The numbers of the kept loads with more columns than a cell that cover it and are live for it, rising.
    fn candidates(&self, cell: &Cell) -> Result<List<u64>, OutOfMemory>
        ensures rising { IfOk result (λ numbers. IsTrue (rise numbers)) }
        ensures members { IfOk result (λ numbers. (load : ℕ) → among numbers load
            ≡ among
            (numbers_of (filter (λ kept. is_candidate kept cell.now) (Self.loads self.now)))
            load) };

    /// Makes one place more for a load of a header, beside those that are there.
    fn reserve(&mut self, header: &Header) -> Result<(), OutOfMemory>
        ensures place { OnOk result ((headers : List Header)
            → has_places self.old headers → has_places self.new (headers ++ header.now ∷ [])) }
        ensures places { (headers : List Header)
            → has_places self.old headers → has_places self.new headers }
        ensures loads { Self.loads self.new ≡ Self.loads self.old }
        ensures flushed { Self.flushed self.new ≡ Self.flushed self.old };

    /// Puts a load in, where there is a place for its header and no load of its number, and its own place is one of the
    /// regions that were flushed. It takes no memory.
    fn insert(&mut self, kept: Kept)
        requires place { (before : List Header) × (after : List Header)
            × has_places self.old (before ++ kept.body.header ∷ after) }
        requires another { among (numbers_of (Self.loads self.old)) kept.load ≡ false }
        requires since { kept.place ≤ length (Self.flushed self.old) }
        ensures places { (before : List Header) (after : List Header)
            → has_places self.old (before ++ kept.body.header ∷ after)
            → has_places self.new (before ++ after) }
        ensures loads { Self.loads self.new
            ≡ Self.loads self.old ++ kept_in (Self.flushed self.old) kept ∷ [] }
        ensures flushed { Self.flushed self.new ≡ Self.flushed self.old };

    /// Gives back a place that was made for a load of a header, where none is to come any more. It takes no memory.
    fn release(&mut self, header: &Header)
        requires place { (before : List Header) × (after : List Header)
            × has_places self.old (before ++ header.now ∷ after) }
        ensures places { (before : List Header) (after : List Header)
            → has_places self.old (before ++ header.now ∷ after)
            → has_places self.new (before ++ after) }
        ensures loads { Self.loads self.new ≡ Self.loads self.old }
        ensures flushed { Self.flushed self.new ≡ Self.flushed self.old };

    /// Takes a load out and hands it over, None exactly where no load of this number is kept. The others may change their
    /// order. It takes no memory.
    fn remove(&mut self, load: u64) -> Option<Kept>
        ensures taken { option_map (kept_in (Self.flushed self.old)) result
            ≡ find (λ kept. kept.load == load) (Self.loads self.old) }
        ensures left { IsPermutation
            (filter (λ kept. not (kept.load == load)) (Self.loads self.old))
            (Self.loads self.new) }
        ensures places { (headers : List Header)
            → has_places self.old headers → has_places self.new headers }
        ensures flushed { Self.flushed self.new ≡ Self.flushed self.old };

    /// Makes room for a flush of a region. The room is there until another call changes the shelf. The loads stay as they were,
    /// also where there is no memory.
    fn reserve_shut(&mut self, region: &Arc<Region>) -> Result<(), OutOfMemory>
        ensures ready { OnOk result (is_ready self.new region.now.value) }
        ensures places { (headers : List Header)
            → has_places self.old headers → has_places self.new headers }
        ensures loads { Self.loads self.new ≡ Self.loads self.old }
        ensures flushed { Self.flushed self.new ≡ Self.flushed self.old };

    /// Adds a flush of a region: it shuts off part of each kept load that it concerns. It takes no memory.
    fn shut(&mut self, region: &Region)
        requires ready { is_ready self.old region.now }
        ensures places { (headers : List Header)
            → has_places self.old headers → has_places self.new headers }
        ensures loads { Self.loads self.new ≡ map (shut_off region.now) (Self.loads self.old) }
        ensures flushed { Self.flushed self.new ≡ Self.flushed self.old ++ region.now ∷ [] };
}
