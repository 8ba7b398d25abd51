//! The records of the regions that were flushed.
ghost use Rattle.std.specs.Prelude.{◌≡◌, ◌<◌, ◌≤◌, ◌^◌, [], All, IfOk, IfSome, Some, length, max};
ghost use Rattle.std.specs.List.{list_any};
ghost use Rattle.olap_meaning.specs.Covering.{region_touches};
ghost use Rattle.cache_flush.specs.Anchors.{covers_after};
ghost use Rattle.cache_flush.specs.Records.{HasMore, HasRoom, IsKept, count_in, region_at};

use crate::anchors::{Anchors, anchor_of};
use crate::finder::{place_of, region_key};
use crate::places::Places;
use crate::record::Record;
use olap_meaning::{Cell, Header, OutOfMemory, Region};
use std::alloc::Global;
use std::marker::Model;
use std::sync::Arc;

/// How many of the regions that were flushed last are known.
const FEW_RECORDS: usize = 64;

/// The records of the regions that were flushed, and the places of those that were flushed last. The record of a region is found
/// by a key of the region, and those that can cover a cell by the anchors of their regions.
#[derive(Drop)]
pub(crate) struct Ledger {
    alloc: Global,
    records: Vec<Record>,
    anchors: Anchors,
    finder: Places,
    recent: Vec<usize>,
}

impl Model for Ledger {
    ghost use Rattle.cache_flush.specs.Anchors.{AreListed};
    ghost use Rattle.cache_flush.specs.Records.{LedgerOf};

    ghost Value = { LedgerOf };

    ghost view = { λ a. record { records = a.records.items; recent = a.recent.items } };

    ghost invariant = { λ a. AreListed a.anchors a.records.items };
}

impl Ledger {
    /// No records. It takes no memory.
    pub(crate) fn new(alloc: Global) -> Ledger
        ensures { result ≡ record { records = []; recent = [] } }
    {
        Ledger {
            alloc,
            records: Vec::new(alloc),
            anchors: Anchors::new(alloc),
            finder: Places::new(alloc),
            recent: Vec::new(alloc),
        }
    }

    /// The records, each at its place.
    pub(crate) fn as_slice(&self) -> &[Record]
        ensures { result.now ≡ self.now.records }
    {
        self.records.as_slice()
    }

    /// The places of the records that were flushed last.
    pub(crate) fn recent(&self) -> &[usize]
        ensures { result.now ≡ self.now.recent }
    {
        self.recent.as_slice()
    }

    /// Makes room for a flush of a region, and tells the place of its record, which is made where there is none.
    pub(crate) fn reserve(&mut self, region: &Arc<Region>) -> Result<usize, OutOfMemory>
        ensures records { IsKept self.old.records self.new.records }
        ensures place { IfOk result
            (λ place. region_at self.new.records place ≡ Some region.now.value) }
        ensures room { IfOk result (λ place. HasRoom self.new.records place) }
    {
        let place = self.place_for(region)?;
        self.recent.reserve(1)?;
        self.records[place].reserve()?;
        Ok(place)
    }

    // The place of the record of a region, which is made where there is none. Its place is listed before it is there: where
    // memory runs out between, a place more is listed, which changes nothing.
    fn place_for(&mut self, region: &Arc<Region>) -> Result<usize, OutOfMemory>
        ensures records { IsKept self.old.records self.new.records }
        ensures place { IfOk result
            (λ place. region_at self.new.records place ≡ Some region.now.value) }
    {
        let key = region_key(region);
        if let Some(place) = place_of(&self.finder, self.records.as_slice(), key, region) {
            return Ok(place);
        }
        let place = self.records.len();
        self.finder.add(self.alloc, key, place)?;
        self.anchors.add(self.alloc, anchor_of(region), place)?;
        self.records
            .push(Record::new(self.alloc, Arc::try_clone(region)?))?;
        Ok(place)
    }

    /// Adds a flush to the record at a place, which is later than all before. It takes no memory: the room is there.
    pub(crate) fn add(&mut self, place: usize, flush: u64)
        requires room { HasRoom self.old.records place }
        requires later { All (λ item. All (λ other. other < flush) item.flushes) self.old.records }
        ensures { HasMore place flush self.old.records self.new.records }
    {
        self.records[place].add(flush);
        note(&mut self.recent, place);
    }

    /// Whether a region that was flushed after a place covers a cell. It takes no memory.
    pub(crate) fn cover(&self, place: u64, cell: &Cell) -> bool
        ensures { result ≡ list_any (covers_after place cell.now) self.now.records }
    {
        self.anchors.cover(self.records.as_slice(), place, cell)
    }

    /// How often a region that touches a header was flushed after a place. It takes no memory.
    pub(crate) fn count(&self, place: u64, header: &Header) -> u64
        requires { count_in (λ region. region_touches region header.now) place self.now.records < 2 ^ 64 }
        ensures { result ≡ count_in (λ region. region_touches region header.now) place self.now.records }
    {
        count_touching(self.records.as_slice(), place, header)
    }
}

// Which of some places is given up where one comes: that one, or the first where they are many.
fn given_up(recent: &[usize], place: usize) -> Option<usize>
    ensures { IfSome result (λ i. i < length recent.now) }
{
    let same = recent.iter().position(|other| *other == place);
    if same.is_none() && recent.len() >= FEW_RECORDS {
        return Some(0);
    }
    same
}

// Puts a place at the end of some where there is room. They do not become more than a few.
fn note(recent: &mut Vec<usize>, place: usize)
    ensures { length recent.new.items ≤ max (length recent.old.items) FEW_RECORDS }
{
    if let Some(i) = given_up(recent.as_slice(), place) {
        recent.remove(i);
    }
    if recent.len() < recent.capacity() && recent.len() < FEW_RECORDS {
        recent.push_reserved(place);
    }
}

// How often a region that touches a header was flushed after a place.
fn count_touching(records: &[Record], place: u64, header: &Header) -> u64
    requires { count_in (λ region. region_touches region header.now) place records.now < 2 ^ 64 }
    ensures { result ≡ count_in (λ region. region_touches region header.now) place records.now }
{
    let mut count = 0;
    for record in records {
        count += record.count_touching(place, header);
    }
    count
}
