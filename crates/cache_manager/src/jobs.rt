//! Jobs of loads in flight. A job can not be let go: it is run and delivered, or abandoned.
ghost use Rattle.std.specs.Prelude.{◌≡◌, ◌≤◌, ◌+◌, IfErr, IfOk, IsTrue, OnOk, length, option_map};
ghost use Rattle.segment_header.specs.Headers.{is_header};
ghost use Rattle.fact_reader.specs.BodyRows.{HoldsRows, are_batches, is_loadable, rows_in};
ghost use Rattle.segment_load.specs.Loads.{job_cost};

use fact_versions::{Snapshot, Steps};
use olap_catalog::Catalog;
use olap_meaning::{Header, ROW_LIMIT, Who};
use segment_body::Body;
use segment_load::{LoadedSegment, SegmentLoad, load_segment};
use std::alloc::Global;
use std::marker::Model;
use std::sync::ledger::Ledger;

/// The job of a load in flight. It holds all that it needs, so that any thread may run it. It has no `Drop`: whoever has
/// it runs it (`run_load`) and delivers what that gives (`Manager::deliver`), or abandons it (`Manager::abandon`). So no load
/// that others may wait for is lost.
pub struct LoadJob {
    pub(crate) segment: SegmentLoad,
}

impl Model for LoadJob {
    ghost use Rattle.segment_load.specs.Loads.{JobOf};

    ghost Value = { JobOf };

    ghost view = { λ a. a.segment };
}

/// What a job has come to, which is to be delivered. It has no `Drop` either: `Manager::deliver` takes it.
pub struct Delivery {
    pub(crate) segment: LoadedSegment,
}

impl Model for Delivery {
    ghost use Rattle.cache_manager.specs.Jobs.{DeliveryOf};

    ghost Value = { DeliveryOf };

    ghost view = { λ a. record { load = a.segment.load; who = a.segment.who; body = a.segment.body } };
}

impl Delivery {
    /// The number of the load.
    pub fn load(&self) -> u64
        ensures { result ≡ self.now.load }
    {
        self.segment.load
    }

    /// The call that the load is for.
    pub fn who(&self) -> Who
        ensures { result ≡ self.now.who }
    {
        self.segment.who
    }

    /// The cells of the load's header.
    pub fn body(&self) -> &Body
        ensures { result.now ≡ self.now.body }
    {
        &self.segment.body
    }
}

impl LoadJob {
    /// The number of the load.
    pub fn load(&self) -> u64
        ensures { result ≡ self.now.load }
    {
        self.segment.load()
    }

    /// The call that the load is for.
    pub fn who(&self) -> Who
        ensures { result ≡ self.now.who }
    {
        self.segment.who()
    }

    /// Which cells are loaded.
    pub fn header(&self) -> &Header
        ensures value { result.now ≡ self.now.header }
        ensures well_formed { IsTrue (is_header self.now.header) }
        ensures loadable { IsTrue (is_loadable self.now.catalog self.now.header) }
    {
        self.segment.header()
    }

    /// The version that is loaded from.
    pub fn snapshot(&self) -> &Snapshot
        ensures value { result.now ≡ self.now.snapshot }
        ensures fit { IsTrue (are_batches self.now.catalog self.now.header.cube self.now.snapshot) }
    {
        self.segment.snapshot()
    }

    /// The catalog of the cache.
    pub fn catalog(&self) -> &Catalog
        ensures { result.now ≡ self.now.catalog }
    {
        self.segment.catalog()
    }

    /// How many steps the load takes: the rows that it reads, each for one, and the groups.
    pub fn cost(&self) -> u64
        ensures steps { result ≡ job_cost self.now }
        ensures least { job_cost self.now ≤ length (rows_in self.now.snapshot) }
        ensures bound { length (rows_in self.now.snapshot) ≤ ROW_LIMIT }
    {
        self.segment.cost()
    }

    /// Which of the schema's aggregate tables the load reads, by its place, if it reads one.
    pub fn table(&self) -> Option<u32>
        ensures { result ≡ option_map (λ table. table.table) self.now.read }
    {
        self.segment.table()
    }
}

/// Runs a job: the rows of its version that its header allows are summed up by their values on the header's columns, from
/// the facts, or from an aggregate table and the facts that are later than the table. Each row and each group that is handed
/// out is a step. Where there is no memory, the job comes back as it was.
pub fn run_load<L: Ledger>(
    alloc: Global,
    job: LoadJob,
    steps: &mut Steps<L>,
) -> Result<Delivery, LoadJob>
    ensures load { IfOk result (λ delivery. delivery.load ≡ job.load) }
    ensures who { IfOk result (λ delivery. delivery.who ≡ job.who) }
    ensures body { IfOk result (λ delivery.
        HoldsRows job.catalog job.header (rows_in job.snapshot) delivery.body) }
    ensures cost { OnOk result (steps.new ≡ steps.old + job_cost job) }
    ensures at_least { steps.old ≤ steps.new }
    ensures at_most { steps.new ≤ steps.old + job_cost job }
    ensures err { IfErr result (λ back. back ≡ job) }
{
    let LoadJob { segment } = job;
    match load_segment(alloc, segment, steps) {
        Ok(segment) => Ok(Delivery { segment }),
        Err(segment) => Err(LoadJob { segment }),
    }
}
