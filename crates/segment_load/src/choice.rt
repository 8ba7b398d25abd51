//! Which of the facts and some aggregate tables a load reads.
ghost use Rattle.std.specs.Prelude.{◌≡◌, ◌&&◌, IfOk, length, map, nat_le, option_and_then, option_map, slice_get};
ghost use Rattle.fact_reader.specs.BodyRows.{rows_in};
ghost use Rattle.agg_tables.specs.Costs.{may_read, read_cost, table_cost};
ghost use Rattle.agg_tables.specs.Costs as costs;

use agg_tables::AggTable;
use fact_versions::Snapshot;
use olap_meaning::{Header, OutOfMemory};
use std::sync::Arc;

// Whether a table may be read for a load, and costs no more than something else.
fn wins(header: &Header, snapshot: &Snapshot, table: &Arc<AggTable>, least: u64) -> bool
    ensures { result
        ≡ (may_read header.now (length snapshot.now) table.now.value
        && nat_le (table_cost (length (rows_in snapshot.now)) table.now.value) least) }
{
    table.may_be_read(header, snapshot) && table.cost(snapshot) <= least
}

// The place of the cheapest table, where one costs no more than the facts.
fn cheapest_place(header: &Header, snapshot: &Snapshot, tables: &[Arc<AggTable>]) -> Option<usize>
    ensures { option_and_then (slice_get (map (λ table. table.value) tables.now)) result
        ≡ costs.cheapest header.now (length snapshot.now) (length (rows_in snapshot.now))
        (map (λ table. table.value) tables.now) }
{
    let mut best = None;
    let mut least = u64::from(snapshot.rows());
    for k in 0..tables.len() {
        let place = tables.len() - 1 - k;
        let table = &tables[place];
        if wins(header, snapshot, table, least) {
            least = table.cost(snapshot);
            best = Some(place);
        }
    }
    best
}

/// The cheapest of the facts of a version and some tables that may be read: of several that cost as much the first, and the
/// facts last.
pub(crate) fn cheapest(
    header: &Header,
    snapshot: &Snapshot,
    tables: &[Arc<AggTable>],
) -> Result<Option<Arc<AggTable>>, OutOfMemory>
    ensures { IfOk result
        (λ best. option_map (λ table. table.value) best
        ≡ costs.cheapest header.now (length snapshot.now) (length (rows_in snapshot.now))
        (map (λ table. table.value) tables.now)) }
{
    match cheapest_place(header, snapshot, tables) {
        None => Ok(None),
        Some(place) => match tables.get(place) {
            None => Ok(None),
            Some(table) => Ok(Some(Arc::try_clone(table)?)),
        },
    }
}

/// What a load costs that reads the facts of a version, or a table.
pub(crate) fn cost_of(snapshot: &Snapshot, table: &Option<Arc<AggTable>>) -> u64
    ensures { result
        ≡ read_cost (length (rows_in snapshot.now)) (option_map (λ table. table.value) table.now) }
{
    match table {
        Some(table) => table.cost(snapshot),
        None => u64::from(snapshot.rows()),
    }
}
