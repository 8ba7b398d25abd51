//! Aggregate tables.
ghost use Rattle.std.specs.Prelude.{◌≡◌, ◌<◌, ◌+◌, ◌≤◌, IfOk, IfSome, IsTrue, OnOk, Some, length, map, nat_lt};
ghost use Rattle.olap_meaning.specs.Catalog.{table_cube};
ghost use Rattle.fact_reader.specs.BodyRows.{are_batches, rows_in};
ghost use Rattle.agg_tables.specs.Bound.{IsPlaced};
ghost use Rattle.agg_tables.specs.Tables.{IsTable, built, fold_over, groups_in};
ghost use Rattle.agg_tables.specs.Tables as meaning;

use crate::declared::Declared;
use crate::find::find_table;
use crate::folds::{folds_of, sum_up};
use fact_versions::{Snapshot, Steps};
use olap_catalog::Catalog;
use olap_meaning::{OutOfMemory, ROW_LIMIT, Version};
use segment_body::Body;
use std::alloc::Global;
use std::marker::Model;
use std::sync::ledger::Ledger;

/// A declared aggregate table over the rows of a version of its cube (Aggregate Tables). It was summed up from these rows
/// and from no file.
#[derive(Drop)]
pub struct AggTable {
    table: u32,
    version: Version,
    rows: u32,
    measured: bool,
    bodies: Vec<Body>,
}

impl Model for AggTable {
    ghost use Rattle.agg_tables.specs.Tables.{IsTable, TableOf};

    ghost Value = { TableOf };

    ghost view = { λ a. record { table = a.table; version = a.version; rows = a.rows; measured = a.measured; bodies = a.bodies.items } };

    ghost invariant = { λ a. IsTable a.bodies.items };
}

impl AggTable {
    // A declared table over the rows of a version.
    pub(crate) fn new(
        table: u32,
        declared: &Declared,
        snapshot: &Snapshot,
        bodies: Vec<Body>,
    ) -> AggTable
        requires { IsTable bodies.items }
        ensures { result
            ≡ record {
              table = table;
              version = length snapshot.now;
              rows = length (rows_in snapshot.now);
              measured = nat_lt 0 (length declared.now.measures);
              bodies = bodies.items;
            } }
    {
        AggTable {
            table,
            version: snapshot.version(),
            rows: snapshot.rows(),
            measured: !declared.measures.is_empty(),
            bodies,
        }
    }

    /// Which of the schema's tables it is, by its place.
    pub fn table(&self) -> u32
        ensures { result ≡ self.now.table }
    {
        self.table
    }

    /// The version of its cube that its rows are of.
    pub fn version(&self) -> Version
        ensures { result ≡ self.now.version }
    {
        self.version
    }

    // The first piece of a snapshot that is later.
    pub(crate) fn first_later(&self) -> u32
        ensures { result ≡ self.now.version }
    {
        self.version.0
    }

    /// How many fact rows its version has.
    pub fn rows(&self) -> u32
        ensures { result ≡ self.now.rows }
    {
        self.rows
    }

    /// Whether it has measures. Without one it has groups alone, and no load may read it.
    pub fn measured(&self) -> bool
        ensures { result ≡ self.now.measured }
    {
        self.measured
    }

    /// The rows by each of its measures, in the order of the schema, and without a measure by one, for the groups alone: the groups
    /// with their tallies. All have the same groups.
    pub fn bodies(&self) -> &[Body]
        ensures bodies { result.now ≡ self.now.bodies }
        ensures alike { IsTable self.now.bodies }
    {
        self.bodies.as_slice()
    }

    /// How many groups it has: the different lists of values of its rows.
    pub fn groups(&self) -> u64
        ensures count { result ≡ length (groups_in self.now.bodies) }
        ensures limit { result ≤ ROW_LIMIT }
    {
        self.bodies[0].groups()
    }
}

/// The declared table of this place in the schema over the rows of a snapshot of its cube, each handed out once.
pub fn build<L: Ledger>(
    alloc: Global,
    catalog: &Catalog,
    table: u32,
    snapshot: &Snapshot,
    steps: &mut Steps<L>,
) -> Result<AggTable, OutOfMemory>
    requires known { table < length catalog.now.schema.aggregates }
    requires fit { IfSome (table_cube catalog.now table)
        (λ cube. IsTrue (are_batches catalog.now cube snapshot.now)) }
    ensures table { IfOk result (λ made. built catalog.now table snapshot.now ≡ Some made) }
    ensures cost { OnOk result (steps.new ≡ steps.old + length (rows_in snapshot.now)) }
    ensures at_least { steps.old ≤ steps.new }
    ensures at_most { steps.new ≤ steps.old + length (rows_in snapshot.now) }
{
    let declared = find_table(alloc, catalog, table)?;
    let bodies = bodies_of(alloc, catalog, &declared, snapshot, steps)?;
    Ok(AggTable::new(table, &declared, snapshot, bodies))
}

// The rows of a snapshot by each measure of a declared table.
fn bodies_of<L: Ledger>(
    alloc: Global,
    catalog: &Catalog,
    declared: &Declared,
    snapshot: &Snapshot,
    steps: &mut Steps<L>,
) -> Result<Vec<Body>, OutOfMemory>
    requires placed { IsPlaced catalog.now declared.now }
    requires fit { IsTrue (are_batches catalog.now declared.now.cube snapshot.now) }
    ensures folded { IfOk result
        (λ bodies. bodies.items
        ≡ map (fold_over catalog.now declared.now (rows_in snapshot.now))
        (meaning.folds_of declared.now.measures)) }
    ensures cost { OnOk result (steps.new ≡ steps.old + length (rows_in snapshot.now)) }
    ensures at_least { steps.old ≤ steps.new }
    ensures at_most { steps.new ≤ steps.old + length (rows_in snapshot.now) }
{
    let folds = folds_of(alloc, declared.measures.as_slice())?;
    sum_up(alloc, catalog, declared, folds.as_slice(), snapshot, steps)
}
