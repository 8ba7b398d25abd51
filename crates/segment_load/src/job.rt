//! Loads of a segment: what is to be read, and what it has come to.
ghost use Rattle.std.specs.Prelude.{◌≡◌, ◌≤◌, ◌+◌, All, IfErr, IfOk, IsTrue, OnOk, Some, length, map, option_map};
ghost use Rattle.segment_header.specs.Headers.{is_header};
ghost use Rattle.fact_reader.specs.BodyRows.{HoldsRows, are_batches, body_of, header_measure, is_loadable, rows_in};
ghost use Rattle.agg_tables.specs.Costs as costs;
ghost use Rattle.segment_load.specs.Loads.{IsOffered, job_cost};

use crate::choice::{cheapest, cost_of};
use agg_tables::AggTable;
use fact_reader::add_later;
use fact_versions::{Snapshot, Steps};
use olap_catalog::Catalog;
use olap_meaning::{Aggregator, Header, OutOfMemory, ROW_LIMIT, Who};
use segment_body::Body;
use segment_header::copy_header;
use std::alloc::Global;
use std::marker::Model;
use std::sync::Arc;
use std::sync::ledger::Ledger;

/// A load of a header from a version of its cube, for a call. It holds all that it needs, so that any thread may run it. It
/// reads the cheapest of the facts and the aggregate tables that it was given.
#[derive(Drop)]
pub struct SegmentLoad {
    catalog: Arc<Catalog>,
    load: u64,
    who: Who,
    header: Header,
    snapshot: Snapshot,
    table: Option<Arc<AggTable>>,
    cost: u64,
}

impl Model for SegmentLoad {
    ghost use Rattle.std.specs.Prelude.{option_map};
    ghost use Rattle.segment_load.specs.Loads.{JobOf};
    ghost use Rattle.segment_load.specs.Jobs.{IsJob};

    ghost Value = { JobOf };

    ghost view = { λ a. record { catalog = a.catalog.value; load = a.load; who = a.who; header = a.header; snapshot = a.snapshot; read = option_map (λ t. t.value) a.table } };

    ghost invariant = { λ a. IsJob a.catalog.value a.header a.snapshot (option_map (λ t. t.value) a.table) a.cost };
}

/// What a load has come to: its number, the call that it is for, and the cells of its header.
#[derive(Drop)]
pub struct LoadedSegment {
    pub load: u64,
    pub who: Who,
    pub body: Body,
}

impl SegmentLoad {
    /// A load by its number, and the call that it is for. It reads the cheapest of the facts and those of the tables that may
    /// be read: of several that cost as much the first, and the facts last.
    pub fn new(
        catalog: Arc<Catalog>,
        load: u64,
        who: Who,
        header: Header,
        snapshot: Snapshot,
        tables: &[Arc<AggTable>],
    ) -> Result<SegmentLoad, OutOfMemory>
        requires header { IsTrue (is_header header) }
        requires loadable { IsTrue (is_loadable catalog.value header) }
        requires fit { IsTrue (are_batches catalog.value header.cube snapshot) }
        requires offered { All
            (λ table. IsOffered catalog.value header snapshot table.value) tables.now }
        ensures { IfOk result
            (λ job. job
            ≡ record {
              catalog = catalog.value;
              load = load;
              who = who;
              header = header;
              snapshot = snapshot;
              read = costs.cheapest header (length snapshot) (length (rows_in snapshot))
                  (map (λ table. table.value) tables.now);
            }) }
    {
        let table = cheapest(&header, &snapshot, tables)?;
        let cost = cost_of(&snapshot, &table);
        // A snapshot has no more rows than a body has room for.
        let _rows = snapshot.rows();
        Ok(SegmentLoad {
            catalog,
            load,
            who,
            header,
            snapshot,
            table,
            cost,
        })
    }

    /// The number of the load.
    pub fn load(&self) -> u64
        ensures { result ≡ self.now.load }
    {
        self.load
    }

    /// The call that the load is for.
    pub fn who(&self) -> Who
        ensures { result ≡ self.now.who }
    {
        self.who
    }

    /// Which cells are loaded.
    pub fn header(&self) -> &Header
        ensures value { result.now ≡ self.now.header }
        ensures well_formed { IsTrue (is_header self.now.header) }
        ensures loadable { IsTrue (is_loadable self.now.catalog self.now.header) }
    {
        &self.header
    }

    /// The version that is loaded from.
    pub fn snapshot(&self) -> &Snapshot
        ensures value { result.now ≡ self.now.snapshot }
        ensures fit { IsTrue (are_batches self.now.catalog self.now.header.cube self.now.snapshot) }
    {
        &self.snapshot
    }

    pub fn catalog(&self) -> &Catalog
        ensures { result.now ≡ self.now.catalog }
    {
        &self.catalog
    }

    /// How many steps the load takes: the rows that it reads, each for one, and the groups.
    pub fn cost(&self) -> u64
        ensures steps { result ≡ job_cost self.now }
        ensures least { job_cost self.now ≤ length (rows_in self.now.snapshot) }
        ensures bound { length (rows_in self.now.snapshot) ≤ ROW_LIMIT }
    {
        self.cost
    }

    /// Which of the schema's aggregate tables the load reads, by its place, if it reads one.
    pub fn table(&self) -> Option<u32>
        ensures { result ≡ option_map (λ table. table.table) self.now.read }
    {
        match &self.table {
            Some(table) => Some(table.table()),
            None => None,
        }
    }

    /// What the measure is summed up by.
    fn aggregator(&self) -> Aggregator
        ensures { option_map
            (λ measure. measure.aggregator) (header_measure self.now.catalog self.now.header)
            ≡ Some result }
    {
        let cube = self.catalog.cube(self.header.cube);
        cube.measures.as_slice()[usize::from(self.header.measure.0)].aggregator
    }

    /// The body of the rows, from the facts.
    fn fold_rows<L: Ledger>(&self, alloc: Global, steps: &mut Steps<L>) -> Result<Body, OutOfMemory>
        ensures body { IfOk result
            (λ body. Some body
            ≡ body_of self.now.catalog self.now.header (rows_in self.now.snapshot)) }
        ensures cost { OnOk result (steps.new ≡ steps.old + length (rows_in self.now.snapshot)) }
        ensures at_least { steps.old ≤ steps.new }
        ensures at_most { steps.new ≤ steps.old + length (rows_in self.now.snapshot) }
    {
        let header = copy_header(alloc, &self.header)?;
        let mut body = Body::new(alloc, header, self.aggregator())?;
        let (catalog, own) = (self.catalog(), self.header());
        add_later(alloc, catalog, own, &self.snapshot, 0, &mut body, steps)?;
        Ok(body)
    }

    /// A body that holds the rows, from what the job reads.
    fn fold<L: Ledger>(&self, alloc: Global, steps: &mut Steps<L>) -> Result<Body, OutOfMemory>
        ensures body { IfOk result
            (HoldsRows self.now.catalog self.now.header (rows_in self.now.snapshot)) }
        ensures cost { OnOk result (steps.new ≡ steps.old + job_cost self.now) }
        ensures at_least { steps.old ≤ steps.new }
        ensures at_most { steps.new ≤ steps.old + job_cost self.now }
    {
        match &self.table {
            Some(table) => table.load(alloc, &self.catalog, &self.header, &self.snapshot, steps),
            None => self.fold_rows(alloc, steps),
        }
    }
}

/// Runs a load: the rows of its version that its header allows are summed up by their values on the header's columns, from
/// the facts, or from an aggregate table and the facts that are later than the table. Each row and each group that is handed
/// out is a step. Where there is no memory, the job comes back as it was.
pub fn load_segment<L: Ledger>(
    alloc: Global,
    job: SegmentLoad,
    steps: &mut Steps<L>,
) -> Result<LoadedSegment, SegmentLoad>
    ensures load { IfOk result (λ delivery. delivery.load ≡ job.load) }
    ensures who { IfOk result (λ delivery. delivery.who ≡ job.who) }
    ensures body { IfOk result
        (λ delivery. HoldsRows job.catalog job.header (rows_in job.snapshot) delivery.body) }
    ensures cost { OnOk result (steps.new ≡ steps.old + job_cost job) }
    ensures at_least { steps.old ≤ steps.new }
    ensures at_most { steps.new ≤ steps.old + job_cost job }
    ensures err { IfErr result (λ back. back ≡ job) }
{
    match job.fold(alloc, steps) {
        Ok(body) => Ok(LoadedSegment {
            load: job.load,
            who: job.who,
            body,
        }),
        Err(OutOfMemory) => Err(job),
    }
}
