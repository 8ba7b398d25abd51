//! The index.
ghost use Rattle.std.specs.Prelude.{◌≡◌, [], IfOk, IsTrue, Contains};
ghost use Rattle.olap_meaning.specs.Covering.{among};
ghost use Rattle.cache_flush.specs.Loads.{KeptOf, is_candidate};

use crate::groups::one_more;
use crate::keys::{cell_columns_key, cell_key};
use crate::listing::Lists;
use crate::loads::Loads;
use crate::masks::cell_list_mask;
use crate::search::{candidates, latest_serving};
use crate::spent::unlist;
use cache_flush::{CacheShelf, Kept, Shelf, Shut, is_formed};
use olap_catalog::Catalog;
use olap_meaning::{Cell, Header, List, OutOfMemory, Region};
use std::alloc::Global;
use std::marker::Model;
use std::sync::Arc;

/// The kept loads, found by the columns and values of a cell. What was reserved and is not used yet is counted, for all loads and for
/// those of each list: room that the containers have beyond it is not promised to anybody.
#[derive(Drop)]
pub struct SegmentIndex {
    alloc: Global,
    catalog: Arc<Catalog>,
    loads: Loads,
    lists: Lists,
    places: usize,
    // the loads that the region for which there is room may shut off as a whole
    touched: Vec<u64>,
}

impl Model for SegmentIndex {
    ghost use Rattle.std.specs.Prelude.{◌≤◌, map};
    ghost use Rattle.olap_meaning.specs.Rolled.{value_count};
    ghost use Rattle.segment_index.specs.Index.{IndexOf};
    ghost use Rattle.segment_index.specs.Keeping.{AreKept};

    ghost Value = { IndexOf };

    ghost view = { λ a. record { catalog = a.catalog.value; loads = a.loads.loads; flushed = a.loads.flushed; ready = a.loads.ready; places = a.places; places_by_mask = map (λ under. (under.0, under.1.1)) a.lists.masks; places_by_key = map (λ under. (under.0, under.1.1)) a.lists.cells } };

    ghost invariant = { λ a. AreKept (value_count a.catalog.value) a.lists.masks a.lists.cells a.loads.loads × (a.places ≤ a.loads.places) };
}

impl SegmentIndex {
    /// An index of no load, over a catalog. It takes no memory.
    pub fn new(alloc: Global, catalog: Arc<Catalog>) -> SegmentIndex
        ensures catalog { result.catalog ≡ catalog.value }
        ensures loads { result.loads ≡ [] }
        ensures flushed { result.flushed ≡ [] }
    {
        SegmentIndex {
            alloc,
            catalog,
            loads: Loads::new(alloc),
            lists: Lists::new(alloc),
            places: 0,
            touched: Vec::new(alloc),
        }
    }

    // Numbers of loads, with those of all candidates for a cell among them. Only a well-formed cell is looked for in the lists,
    // since a load may leave them that still serves another.
    fn searched(&self, cell: &Cell) -> Result<Vec<u64>, OutOfMemory>
        ensures { IfOk result (λ numbers. (kept : KeptOf) → Contains self.now.loads kept
            → IsTrue (is_candidate kept cell.now) → IsTrue (among numbers.items kept.load)) }
    {
        if is_formed(&self.catalog, cell) {
            self.lists.masks.above(self.alloc, cell_list_mask(cell))
        } else {
            self.loads.numbers(self.alloc)
        }
    }
}

impl Shelf for SegmentIndex {
    ghost flushed = { λ index. index.flushed };

    ghost loads = { λ index. index.loads };

    fn kept(&self, load: u64) -> Option<&Kept> {
        self.loads.get(load)
    }

    fn shut_list(&self) -> &Shut {
        self.loads.shut_list()
    }

    fn numbers_differ(&self) {
        self.loads.numbers_differ();
    }
}

impl CacheShelf for SegmentIndex {
    ghost use Rattle.segment_index.specs.Index as words;

    ghost has_places = { words.has_places };

    ghost is_ready = { words.is_ready };

    fn places_are_apart(&self) {
        let _ = &self.loads;
    }

    fn len(&self) -> usize {
        self.loads.len()
    }

    fn numbers(&self) -> Result<List<u64>, OutOfMemory> {
        let numbers = self.loads.numbers(self.alloc)?;
        Ok(List::from_vec(numbers))
    }

    fn oldest(&self) -> Option<u64> {
        self.loads.oldest()
    }

    fn groups(&self) -> u128 {
        self.loads.groups()
    }

    fn find(&self, cell: &Cell) -> Option<&Kept> {
        self.loads.numbers_differ();
        if !is_formed(&self.catalog, cell) {
            let (front, back) = self.loads.parts();
            return latest_serving(&self.loads, cell, None, front, back);
        }
        let (front, back) = self.lists.cells.at(cell_key(cell));
        let latest = latest_serving(&self.loads, cell, None, front, back);
        let (front, back) = self.lists.cells.at(cell_columns_key(cell));
        latest_serving(&self.loads, cell, latest, front, back)
    }

    fn candidates(&self, cell: &Cell) -> Result<List<u64>, OutOfMemory> {
        self.loads.numbers_differ();
        let searched = self.searched(cell)?;
        let mut found = candidates(self.alloc, &self.loads, searched.as_slice(), cell)?;
        found.sort_unstable();
        found.dedup();
        Ok(List::from_vec(found))
    }

    fn reserve(&mut self, header: &Header) -> Result<(), OutOfMemory> {
        let places = one_more(self.places)?;
        self.loads.reserve(places)?;
        self.lists.reserve(self.alloc, &self.catalog, header)?;
        self.places = places;
        Ok(())
    }

    fn insert(&mut self, kept: Kept) {
        self.lists.add(&self.catalog, kept.body.header(), kept.load);
        self.places -= 1;
        self.loads.insert(kept);
    }

    fn release(&mut self, header: &Header) {
        self.lists.release(&self.catalog, header);
        self.places -= 1;
    }

    fn remove(&mut self, load: u64) -> Option<Kept> {
        self.loads.numbers_differ();
        let kept = self.loads.remove(load)?;
        self.lists.remove(&self.catalog, kept.body.header(), load);
        Some(kept)
    }

    fn reserve_shut(&mut self, region: &Arc<Region>) -> Result<(), OutOfMemory> {
        self.loads.reserve_shut(region)?;
        self.touched = self
            .lists
            .hints
            .touched(self.alloc, &self.lists.masks, region)?;
        Ok(())
    }

    fn shut(&mut self, region: &Region) {
        self.loads.shut(region);
        unlist(
            &self.catalog,
            &self.loads,
            &mut self.lists,
            self.touched.as_slice(),
            region,
        );
        self.touched = Vec::new(self.alloc);
    }
}
