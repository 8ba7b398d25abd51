//! A region that was flushed, and when.
ghost use Rattle.std.specs.Prelude.{◌≡◌, ◌<◌, ◌≤◌, ◌+◌, ◌++◌, ◌∷◌, [], All, IsTrue, OnOk, count_by, nat_lt};
ghost use Rattle.std.specs.List.{list_any};
ghost use Rattle.olap_meaning.specs.Covering as covering;
ghost use Rattle.olap_meaning.specs.Rolled.{value_count};
ghost use Rattle.cache_flush.specs.Gone as gone;
ghost use Rattle.cache_flush.specs.Records as records;
ghost use Rattle.cache_flush.specs.Records.{count_of, is_after};

use crate::anchors::{anchor_of, meets};
use crate::gone::spans;
use crate::same::same_region;
use crate::touch::touches;
use olap_catalog::Catalog;
use olap_meaning::{Cell, ColumnId, Header, OutOfMemory, Region, ValueId};
use region_algebra::covers;
use std::alloc::Global;
use std::marker::Model;
use std::sync::Arc;

/// A region with its anchor, and its flushes: of each, how many flushes there were then, with it. They rise. The last one is
/// kept apart, 0 where there is none.
#[derive(Drop)]
pub(crate) struct Record {
    last: u64,
    anchor: Option<(ColumnId, ValueId)>,
    region: Arc<Region>,
    flushes: Vec<u64>,
}

impl Model for Record {
    ghost use Rattle.std.specs.Prelude.{◌≡◌, ◌-◌, IsTrue, get_or, length};
    ghost use Rattle.std.specs.Vec.{vec_capacity, vec_len};
    ghost use Rattle.olap_meaning.specs.Legal.{rise};
    ghost use Rattle.cache_flush.specs.Anchors.{anchor_of};
    ghost use Rattle.cache_flush.specs.Records.{RecordOf};

    ghost Value = { RecordOf };

    ghost view = { λ a. record { region = a.region.value; flushes = a.flushes.items; spare = vec_capacity a.flushes - vec_len a.flushes } };

    ghost invariant = { λ a. IsTrue (rise a.flushes.items)
        × (a.last ≡ get_or a.flushes.items (length a.flushes.items - 1) 0)
        × (a.anchor ≡ anchor_of a.region.value) };
}

impl Record {
    /// A region that was not flushed yet. It takes no memory.
    pub(crate) fn new(alloc: Global, region: Arc<Region>) -> Record
        ensures { result ≡ record { region = region.value; flushes = []; spare = 0 } }
    {
        Record {
            last: 0,
            anchor: anchor_of(&region),
            region,
            flushes: Vec::new(alloc),
        }
    }

    /// Whether it is the record of a region.
    pub(crate) fn is_of(&self, region: &Region) -> bool
        ensures { IsTrue result → self.now.region ≡ region.now }
    {
        same_region(&self.region, region)
    }

    /// Makes room for one flush more.
    pub(crate) fn reserve(&mut self) -> Result<(), OutOfMemory>
        ensures room { OnOk result (0 < self.new.spare) }
        ensures region { self.new.region ≡ self.old.region }
        ensures flushes { self.new.flushes ≡ self.old.flushes }
    {
        self.flushes.reserve(1)?;
        Ok(())
    }

    /// Adds a flush, which is later than those before. It takes no memory: the room is there.
    pub(crate) fn add(&mut self, flush: u64)
        requires room { 0 < self.old.spare }
        requires later { All (λ other. other < flush) self.old.flushes }
        ensures region { self.new.region ≡ self.old.region }
        ensures flushes { self.new.flushes ≡ self.old.flushes ++ flush ∷ [] }
    {
        self.flushes.push_reserved(flush);
        self.last = flush;
    }

    /// Whether it was flushed after this many flushes.
    pub(crate) fn is_after(&self, since: u64) -> bool
        ensures { result ≡ list_any (is_after since) self.now.flushes }
    {
        self.last > since
    }

    /// How often it was flushed after this many flushes.
    fn count_after(&self, since: u64) -> usize
        ensures { result ≡ count_by (is_after since) self.now.flushes }
    {
        match self.flushes.binary_search(&since) {
            Ok(place) => self.flushes.len() - place - 1,
            Err(place) => self.flushes.len() - place,
        }
    }

    /// Whether it covers a cell.
    pub(crate) fn covers(&self, cell: &Cell) -> bool
        ensures { result ≡ covering.region_covers self.now.region cell.now }
    {
        covers(&self.region, cell)
    }

    // Whether it touches a header. Its anchor is asked first.
    fn touches(&self, header: &Header) -> bool
        ensures { result ≡ covering.region_touches self.now.region header.now }
    {
        meets(&self.anchor, header) && touches(&self.region, header)
    }

    /// How often it was flushed after this many flushes, where it touches a header.
    pub(crate) fn count_touching(&self, since: u64, header: &Header) -> u64
        ensures { result
            ≡ count_of (λ region. covering.region_touches region header.now) since self.now }
    {
        if self.is_after(since) && self.touches(header) {
            self.count_after(since) as u64
        } else {
            0
        }
    }

    /// Whether it spans a header, which may be narrowed to one value along one column.
    pub(crate) fn spans(
        &self,
        catalog: &Catalog,
        header: &Header,
        along: &Option<(ColumnId, ValueId)>,
    ) -> bool
        ensures { result
            ≡ gone.region_spans (value_count catalog.now) along.now header.now self.now.region }
    {
        spans(catalog, &self.region, header, along)
    }
}
