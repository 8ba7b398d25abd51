//! What a load reads of an aggregate table in place of fact rows, and what that costs (Aggregate Tables).
ghost use Rattle.std.specs.Prelude.{◌≡◌, ◌≢◌, ◌+◌, ◌≤◌, ◌==◌, Contains, IfOk, IsTrue, OnOk, length, position};
ghost use Rattle.std.specs.List.{list_all, list_any};
ghost use Rattle.olap_meaning.specs.Rolled as rolled;
ghost use Rattle.segment_header.specs.Headers.{is_header};
ghost use Rattle.segment_body.specs.BodyOf.{different_values};
ghost use Rattle.segment_body.specs.Narrowed.{IsNarrowed};
ghost use Rattle.fact_reader.specs.BodyRows.{HoldsRows, are_batches, is_loadable, rows_in};
ghost use Rattle.agg_tables.specs.Tables.{groups_in};
ghost use Rattle.agg_tables.specs.Costs.{IsTableOver, is_usable, may_read, table_cost};
ghost use Rattle.agg_tables.specs.Costs as costs;

use crate::laws::tables_are_placed;
use crate::table::AggTable;
use fact_reader::add_later;
use fact_reader::laws::rows_are_valued;
use fact_versions::{Snapshot, Steps};
use olap_catalog::Catalog;
use olap_meaning::{Aggregator, Allowed, ColumnId, Header, OutOfMemory};
use segment_body::Body;
use segment_header::copy_header;
use std::alloc::Global;
use std::sync::ledger::Ledger;

impl AggTable {
    /// Whether a load of a header may read it: the cube is its own, each of the header's columns is one of its own, and the
    /// measure is one of its own, and adds up. It takes no memory.
    pub fn usable(&self, header: &Header) -> bool
        ensures { result ≡ is_usable header.now self.now }
    {
        self.measured() && any_serves(header, self.bodies())
    }

    /// Whether a load of a header from a version may read it: it is usable for the header, and not newer. It takes no
    /// memory.
    pub fn may_be_read(&self, header: &Header, snapshot: &Snapshot) -> bool
        ensures { result ≡ may_read header.now (length snapshot.now) self.now }
    {
        self.usable(header) && self.version() <= snapshot.version()
    }

    /// How many steps a load takes that reads it for a version of its cube that is not older: its groups, and the rows after
    /// its own. It takes no memory.
    pub fn cost(&self, snapshot: &Snapshot) -> u64
        ensures { result ≡ table_cost (length (rows_in snapshot.now)) self.now }
    {
        self.groups() + u64::from(snapshot.rows().saturating_sub(self.rows()))
    }

    // The rows by the measure of a header.
    fn body_for(&self, header: &Header) -> &Body
        requires { IsTrue (is_usable header.now self.now) }
        ensures own { Contains self.now.bodies result.now }
        ensures serves { IsTrue (costs.serves header.now result.now) }
        ensures groups { different_values result.now.rows ≡ groups_in self.now.bodies }
    {
        let bodies = self.bodies();
        &bodies[place_serving(header, bodies).unwrap()]
    }

    /// The rows of a version of its cube that a header allows, as a load from the facts holds them, in some order: those of
    /// its own version by its groups, and the later ones. A group that is handed out is a step, as a row is.
    pub fn load<L: Ledger>(
        &self,
        alloc: Global,
        catalog: &Catalog,
        header: &Header,
        snapshot: &Snapshot,
        steps: &mut Steps<L>,
    ) -> Result<Body, OutOfMemory>
        requires formed { IsTrue (is_header header.now) }
        requires loadable { IsTrue (is_loadable catalog.now header.now) }
        requires fit { IsTrue (are_batches catalog.now header.now.cube snapshot.now) }
        requires usable { IsTrue (is_usable header.now self.now) }
        requires own { IsTableOver catalog.now snapshot.now self.now }
        ensures body { IfOk result (HoldsRows catalog.now header.now (rows_in snapshot.now)) }
        ensures cost { OnOk result
            (steps.new ≡ steps.old + table_cost (length (rows_in snapshot.now)) self.now) }
        ensures at_least { steps.old ≤ steps.new }
        ensures at_most { steps.new
            ≤ steps.old + table_cost (length (rows_in snapshot.now)) self.now }
    {
        tables_are_placed(catalog);
        rows_are_valued(catalog);
        // A snapshot has no more rows than a body has room for.
        let _rows = snapshot.rows();
        let wide = self.body_for(header);
        let mut body = narrowed_to(alloc, wide, header, steps)?;
        let first = self.first_later();
        add_later(alloc, catalog, header, snapshot, first, &mut body, steps)?;
        Ok(body)
    }
}

// The rows of a body that a header allows, by its groups.
fn narrowed_to<L: Ledger>(
    alloc: Global,
    wide: &Body,
    header: &Header,
    steps: &mut Steps<L>,
) -> Result<Body, OutOfMemory>
    requires adds_up { wide.now.aggregator ≢ Aggregator.DistinctCount }
    requires formed { IsTrue (is_header header.now) }
    ensures body { IfOk result (IsNarrowed wide.now header.now) }
    ensures cost { OnOk result
        (steps.new ≡ steps.old + length (different_values wide.now.rows)) }
    ensures at_least { steps.old ≤ steps.new }
    ensures at_most { steps.new ≤ steps.old + length (different_values wide.now.rows) }
{
    wide.narrowed(copy_header(alloc, header)?, steps)
}

// Whether a body is of a header's cube and measure, adds up, and has each of the header's columns.
fn serves(header: &Header, body: &Body) -> bool
    ensures { result ≡ costs.serves header.now body.now }
{
    let own = body.header();
    own.cube == header.cube
        && own.measure == header.measure
        && adds_up(body.aggregator())
        && has_columns(own.columns.as_slice(), header.columns.as_slice())
}

fn any_serves(header: &Header, bodies: &[Body]) -> bool
    ensures { result ≡ list_any (costs.serves header.now) bodies.now }
{
    bodies.iter().any(|body| serves(header, body))
}

// The place of the first body that serves a header.
fn place_serving(header: &Header, bodies: &[Body]) -> Option<usize>
    ensures { result ≡ position (costs.serves header.now) bodies.now }
{
    bodies.iter().position(|body| serves(header, body))
}

fn adds_up(aggregator: Aggregator) -> bool
    ensures { result ≡ rolled.adds_up aggregator }
{
    match aggregator {
        Aggregator::DistinctCount => false,
        _ => true,
    }
}

fn has_column(own: &[(ColumnId, Allowed)], column: ColumnId) -> bool
    ensures { result ≡ list_any (λ mine. mine.0 == column) own.now }
{
    own.iter().any(|mine| mine.0 == column)
}

// Whether columns are among those of a body.
fn has_columns(own: &[(ColumnId, Allowed)], columns: &[(ColumnId, Allowed)]) -> bool
    ensures { result
        ≡ list_all (λ column. list_any (λ mine. mine.0 == column.0) own.now) columns.now }
{
    columns.iter().all(|column| has_column(own, column.0))
}
