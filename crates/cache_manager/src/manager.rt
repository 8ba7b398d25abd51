//! The manager of a cache.
ghost use Rattle.std.specs.Prelude.{◌≡◌, ◌⊎◌, ◌↔◌, ◌<◌, ◌≤◌, ◌+◌, ◌++◌, ◌∷◌, [], ℕ, IfErr, IfOk, IfSome, IsTrue, None, OnErr, OnOk, Some, length, take, true};
ghost use Rattle.olap_meaning.specs.History.{Append, Done, Drop, Flush, flying, load_version, rows_of, version};
ghost use Rattle.olap_meaning.specs.Legal.{Legal, is_flushable, is_next_call};
ghost use Rattle.fact_versions.specs.Facts.{append_fault};
ghost use Rattle.history_core.specs.History.{setting_of};
ghost use Rattle.fact_reader.specs.BodyRows.{are_batches, is_batch, rows_in};
ghost use Rattle.history_core.specs.Arrivals.{arrival_in};
ghost use Rattle.cache_manager.specs.Jobs.{IsOwnBody, IsOwnLoad};
ghost use Rattle.history_core.specs.Seats.{NoneFlies, SeatIsIdle};
ghost use Rattle.cache_manager.specs.Kept.{closing};

use crate::flush::{make_room, shut_off};
use crate::jobs::{Delivery, LoadJob};
use crate::look::sum;
use cache_flush::{CacheShelf, Kept};
use fact_versions::{AppendFault, Batch, Facts, Snapshot};
use history_core::{Appended, Entry, History};
use installed_tables::Installed;
use load_sharing::Flights;
use olap_catalog::Catalog;
use olap_meaning::{CubeId, OutOfMemory, ROW_LIMIT, Region, Version, Who};
use segment_index::SegmentIndex;
use segment_load::LoadedSegment;
use std::alloc::Global;
use std::marker::Model;
use std::sync::Arc;

/// How many entries history needs room for: those that close what flies and what is kept, and this many more.
pub(crate) fn room_for(
    flights: &Flights,
    shelf: &SegmentIndex,
    more: usize,
) -> Result<usize, OutOfMemory>
    ensures { IfOk result (λ room. room ≡ closing flights.now.flights shelf.now.loads + more) }
{
    let ends = sum(flights.len(), flights.len())?;
    sum(sum(ends, shelf.len())?, more)
}

/// The manager of a cache (Cache Control): it keeps the facts, the aggregate tables that were built last, the loads that
/// were delivered and those in flight, and writes down each thing that it does as an entry of its history. A flush shuts
/// off the cells of its region in each load that was started before, whether it is kept or in flight.
#[derive(Drop)]
pub struct Manager {
    pub(crate) alloc: Global,
    pub(crate) history: History,
    pub(crate) facts: Facts,
    pub(crate) shelf: SegmentIndex,
    pub(crate) flights: Flights,
    pub(crate) installed: Installed,
}

impl Model for Manager {
    ghost use Rattle.history_core.specs.Cache.{CacheOf};
    ghost use Rattle.segment_index.specs.Index.{has_places};
    ghost use Rattle.cache_manager.specs.Kept.{IsManager};

    ghost Value = { CacheOf };

    ghost view = { λ a. record { setting = a.history.setting; entries = a.history.entries } };

    ghost invariant = { λ a. IsManager a.history.setting a.history.entries a.history.spare a.facts a.shelf.flushed a.shelf.loads (has_places a.shelf) a.flights.flights a.installed };
}

impl Manager {
    /// The manager of a cache in which nothing has happened. A limit of rows is over all cubes; the budget is the most
    /// groups that the kept loads have after an answer.
    pub fn new(
        alloc: Global,
        catalog: Arc<Catalog>,
        row_limit: u32,
        budget: u64,
    ) -> Result<Manager, OutOfMemory>
        requires { row_limit ≤ ROW_LIMIT }
        ensures { IfOk result
            (λ manager. manager
            ≡ record { setting = setting_of catalog.value row_limit budget; entries = [] }) }
    {
        let facts = Facts::new(alloc, catalog.cube_count(), row_limit)?;
        let shelf = SegmentIndex::new(alloc, Arc::try_clone(&catalog)?);
        Ok(Manager {
            alloc,
            history: History::new(alloc, catalog, row_limit, budget),
            facts,
            shelf,
            flights: Flights::new(alloc),
            installed: Installed::new(alloc),
        })
    }

    /// Adds a batch to a cube: it makes the cube's next version. A refused batch is dropped.
    pub fn append(&mut self, who: Who, cube: CubeId, batch: Batch) -> Result<Appended, AppendFault>
        requires call { IsTrue (is_next_call self.old.entries who) }
        requires known { cube < length self.old.setting.catalog.cubes }
        requires fit { IsTrue (is_batch self.old.setting.catalog cube batch) }
        ensures setting { self.new.setting ≡ self.old.setting }
        ensures entry { OnOk result (self.new.entries ≡ self.old.entries
            ++ Append who cube (version self.old.entries cube + 1) batch.rows ∷ []) }
        ensures position { IfOk result (λ appended. appended.position ≡ length self.new.entries) }
        ensures version { IfOk result
            (λ appended. appended.version ≡ version self.new.entries cube) }
        ensures admitted { OnOk result (append_fault (arrival_in self.old cube batch.rows) ≡ None) }
        ensures fault { IfErr result (λ fault. (fault ≡ AppendFault.OutOfMemory)
            ⊎ (append_fault (arrival_in self.old cube batch.rows) ≡ Some fault)) }
        ensures unchanged { OnErr result (self.new ≡ self.old) }
    {
        self.history.steps_are_legal();
        self.history
            .reserve(room_for(&self.flights, &self.shelf, 1)?)?;
        let batch = shared(self.alloc, batch)?;
        let version = match self.facts.append(cube, shared_again(&batch)?) {
            Ok(version) => version,
            Err(fault) => return Err(fault),
        };
        self.history.push(Entry::Append {
            who,
            cube,
            version,
            batch,
        });
        Ok(Appended {
            position: self.history.len(),
            version,
        })
    }

    /// The present version of a cube. Its first batches are the earlier versions.
    pub fn snapshot(&self, cube: CubeId) -> Result<Snapshot, OutOfMemory>
        requires { cube < length self.now.setting.catalog.cubes }
        ensures version { IfOk result
            (λ snapshot. length snapshot ≡ version self.now.entries cube) }
        ensures rows { IfOk result
            (λ snapshot. rows_in snapshot
            ≡ rows_of self.now.entries cube (version self.now.entries cube)) }
        ensures versions { IfOk result
            (λ snapshot. (v : ℕ) → rows_in (take v snapshot) ≡ rows_of self.now.entries cube v) }
        ensures fit { IfOk result
            (λ snapshot. IsTrue (are_batches self.now.setting.catalog cube snapshot)) }
    {
        let snapshot = self.facts.snapshot(cube, self.facts.version(cube))?;
        Ok(snapshot)
    }

    /// What happened, oldest first.
    pub fn history(&self) -> &History
        ensures setting { result.now.setting ≡ self.now.setting }
        ensures entries { result.now.entries ≡ self.now.entries }
    {
        &self.history
    }

    /// What happened, oldest first. The loads that are kept are dropped.
    pub fn into_history(self) -> History
        ensures setting { result.setting ≡ self.setting }
        ensures entries { result.entries ≡ self.entries }
    {
        self.history
    }

    /// The catalog, which never changes.
    pub fn catalog(&self) -> &Arc<Catalog>
        ensures { result.now.value ≡ self.now.setting.catalog }
    {
        self.history.catalog()
    }

    /// What happened is legal. This costs nothing.
    pub fn steps_are_legal(&self)
        ensures { Legal self.now.setting self.now.entries }
    {
        self.history.steps_are_legal();
    }

    /// Whether no load is in flight.
    pub fn is_idle(&self) -> bool
        ensures { IsTrue result ↔ NoneFlies self.now.entries }
    {
        self.flights.is_empty()
    }

    /// Whether no load of a seat is in flight. It takes no memory.
    pub fn seat_is_idle(&self, seat: u32) -> bool
        ensures { IsTrue result ↔ SeatIsIdle self.now.entries seat }
    {
        !self.flights.flies_for(seat)
    }

    /// The version of a load in flight.
    fn version_in_flight(&self, load: u64) -> Version
        requires { flying self.now.entries load ≡ true }
        ensures { load_version self.now.entries load ≡ Some result }
    {
        self.flights.version(load).unwrap()
    }

    /// Keeps what a load has come to. It takes no memory: the room was made when it was started.
    pub fn deliver(&mut self, delivery: Delivery)
        requires own { IsOwnBody self.old delivery.who delivery.load delivery.body }
        ensures setting { self.new.setting ≡ self.old.setting }
        ensures entry { self.new.entries ≡ self.old.entries ++ Done delivery.who delivery.load
            ∷ [] }
    {
        let Delivery { segment } = delivery;
        let LoadedSegment { load, who, body } = segment;
        let _header = body.header();
        self.history.steps_are_legal();
        let version = self.version_in_flight(load);
        self.history.push(Entry::Done { who, load });
        let place = self.flights.end(load);
        self.shelf.insert(Kept {
            load,
            version,
            body,
            place,
        });
    }

    /// Gives a load up. The room that was made for it is there for others. It takes no memory.
    pub fn abandon(&mut self, job: LoadJob)
        requires own { IsOwnLoad self.old job.who job.load }
        ensures setting { self.new.setting ≡ self.old.setting }
        ensures entry { self.new.entries ≡ self.old.entries ++ Drop job.who job.load ∷ [] }
    {
        let LoadJob { segment } = job;
        let load = segment.load();
        self.history.steps_are_legal();
        self.history.push(Entry::Drop {
            who: segment.who(),
            load,
        });
        self.shelf.release(self.flights.header(load).unwrap());
        let _ = self.flights.end(load);
    }

    /// Flushes the cells of a region (Cache Control): no load that was started before serves them from now on. A load of
    /// which only some cells are covered serves the others on; that is so also of the loads in flight, once they are
    /// delivered. It answers the position of its entry. All its room is made first: where there is no memory, nothing has
    /// changed. Beside its own entry it costs the loads that it may shut off as a whole.
    pub fn flush(&mut self, who: Who, region: Region) -> Result<u64, OutOfMemory>
        requires call { IsTrue (is_next_call self.old.entries who) }
        requires flushable { IsTrue (is_flushable self.old.setting.catalog region) }
        ensures setting { self.new.setting ≡ self.old.setting }
        ensures entry { OnOk result (self.new.entries ≡ self.old.entries ++ Flush who region ∷ []) }
        ensures position { IfOk result (λ position. position ≡ length self.new.entries) }
        ensures unchanged { OnErr result (self.new ≡ self.old) }
    {
        self.history.steps_are_legal();
        let region = Arc::new(self.alloc, region)?;
        make_room(&mut self.history, &mut self.shelf, &self.flights, &region)?;
        shut_off(&mut self.history, &mut self.shelf, who, region);
        Ok(self.history.len())
    }
}

fn shared(alloc: Global, batch: Batch) -> Result<Arc<Batch>, OutOfMemory>
    ensures { IfOk result (λ shared. shared.value ≡ batch) }
{
    Ok(Arc::new(alloc, batch)?)
}

fn shared_again(batch: &Arc<Batch>) -> Result<Arc<Batch>, OutOfMemory>
    ensures { IfOk result (λ shared. shared.value ≡ batch.now.value) }
{
    Ok(Arc::try_clone(batch)?)
}
