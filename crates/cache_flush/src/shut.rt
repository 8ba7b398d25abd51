//! The regions that were flushed.
ghost use Rattle.std.specs.Prelude.{◌≡◌, ◌++◌, ◌∷◌, [], Contains, IsTrue, None, OnOk, Some, drop, length};
ghost use Rattle.olap_meaning.specs.Covering.{touching};
ghost use Rattle.olap_meaning.specs.Rolled.{value_count};
ghost use Rattle.segment_header.specs.Headers.{is_header};
ghost use Rattle.cache_flush.specs.Gone.{NoneIsLive};
ghost use Rattle.cache_flush.specs.Shuts.{is_live};

use crate::gone::{span_along, spans};
use crate::ledger::Ledger;
use olap_catalog::Catalog;
use olap_meaning::{Cell, Header, OutOfMemory, Region};
use std::alloc::Global;
use std::marker::Model;
use std::sync::Arc;
use traces::Trace;

/// The regions that were flushed, in order. A region that is flushed again is one record, with its flushes. A load knows its
/// place: how many regions had been flushed at its Start. The regions after its place shut off part of it.
#[derive(Drop)]
pub struct Shut {
    ledger: Ledger,
    count: u64,
    ready: Option<usize>,
    flushed: Trace<Region>,
}

impl Model for Shut {
    ghost use Rattle.std.specs.Prelude.{◌≡◌, length};
    ghost use Rattle.cache_flush.specs.Records.{AreRecordsOf, AreWithin, IsReady, region_ready};
    ghost use Rattle.cache_flush.specs.Shuts.{ShutOf};

    ghost Value = { ShutOf };

    ghost view = { λ a. record { regions = a.flushed.items; ready = region_ready a.ready a.ledger.records } };

    ghost invariant = { λ a. (a.count ≡ length a.flushed.items)
        × AreRecordsOf a.flushed.items a.ledger.records
        × AreWithin a.count a.ledger.records
        × IsReady a.count a.ready a.ledger.records };
}

impl Shut {
    /// No region was flushed, and there is room for none. It takes no memory.
    pub fn new(alloc: Global) -> Shut
        ensures { result ≡ record { regions = []; ready = None } }
    {
        Shut {
            ledger: Ledger::new(alloc),
            count: 0,
            ready: None,
            flushed: Trace::new(),
        }
    }

    /// How many regions were flushed: the place of a load that starts now.
    pub fn len(&self) -> u64
        ensures { result ≡ length self.now.regions }
    {
        self.count
    }

    /// Makes room for a flush of a region, so that adding it takes no memory.
    pub fn reserve(&mut self, region: &Arc<Region>) -> Result<(), OutOfMemory>
        ensures ok { OnOk result (self.new.ready ≡ Some region.now.value) }
        ensures regions { self.new.regions ≡ self.old.regions }
    {
        self.ready = None;
        let _next = self.count.checked_add(1).ok_or(OutOfMemory)?;
        let place = self.ledger.reserve(region)?;
        self.ready = Some(place);
        Ok(())
    }

    /// Adds a flush of a region. It takes no memory: the room is there.
    pub fn add(&mut self, region: &Region)
        requires room { self.old.ready ≡ Some region.now }
        ensures regions { self.new.regions ≡ self.old.regions ++ region.now ∷ [] }
    {
        if let Some(place) = self.ready {
            self.count += 1;
            self.ledger.add(place, self.count);
            self.ready = None;
            self.flushed = self.flushed.and(region);
        }
    }

    /// Whether no region after a place covers a cell. It takes no memory.
    pub fn is_live(&self, place: u64, cell: &Cell) -> bool
        ensures { result ≡ is_live (drop place self.now.regions) cell.now }
    {
        place >= self.count || !self.ledger.cover(place, cell)
    }

    /// How many of the regions after a place touch a header. It takes no memory.
    pub fn count(&self, place: u64, header: &Header) -> u64
        ensures { result ≡ touching header.now (drop place self.now.regions) }
    {
        if place >= self.count {
            return 0;
        }
        self.ledger.count(place, header)
    }

    /// Whether the regions after a place shut off a header as a whole, as far as a short test tells, where a region is one of
    /// them: it spans the header, or it and the regions that were flushed last do so value by value along one column of few
    /// values. It takes no memory.
    pub(crate) fn shuts_off(
        &self,
        catalog: &Catalog,
        place: u64,
        header: &Header,
        region: &Region,
    ) -> bool
        requires formed { IsTrue (is_header header.now) }
        requires since { Contains (drop place self.now.regions) region.now }
        ensures { IsTrue result → NoneIsLive (value_count catalog.now) (drop place self.now.regions)
            header.now }
    {
        spans(catalog, region, header, &None)
            || span_along(catalog, &self.ledger, place, header, region)
    }
}
