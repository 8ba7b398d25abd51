//! What an aggregate table sums up, in one pass over the rows.
ghost use Rattle.std.specs.Prelude.{◌≡◌, ◌+◌, ◌≤◌, IfOk, IsTrue, OnOk, [], length, map};
ghost use Rattle.fact_reader.specs.BodyRows.{are_batches, rows_in};
ghost use Rattle.agg_tables.specs.Bound.{AreFolds, IsPlaced};
ghost use Rattle.agg_tables.specs.Tables.{fold_over};
ghost use Rattle.agg_tables.specs.Tables as meaning;

use crate::columns::header_for;
use crate::declared::{Declared, Fold, TableMeasure};
use fact_reader::add_to_each;
use fact_versions::{Snapshot, Steps};
use olap_catalog::Catalog;
use olap_meaning::{Aggregator, MeasureId, OutOfMemory};
use segment_body::Body;
use std::alloc::Global;
use std::sync::ledger::Ledger;

/// What a table of some measures sums up.
pub(crate) fn folds_of(alloc: Global, measures: &[TableMeasure]) -> Result<Vec<Fold>, OutOfMemory>
    ensures { IfOk result (λ folds. folds.items ≡ meaning.folds_of measures.now) }
{
    let mut folds = Vec::new(alloc);
    for own in measures {
        folds.push(Fold {
            measure: own.measure,
            aggregator: own.aggregator,
        })?;
    }
    if measures.is_empty() {
        folds.push(Fold {
            measure: MeasureId(0),
            aggregator: Aggregator::Count,
        })?;
    }
    Ok(folds)
}

/// Some folds of a table over the rows of a version, each row handed out once.
pub(crate) fn sum_up<L: Ledger>(
    alloc: Global,
    catalog: &Catalog,
    declared: &Declared,
    folds: &[Fold],
    snapshot: &Snapshot,
    steps: &mut Steps<L>,
) -> Result<Vec<Body>, OutOfMemory>
    requires known { AreFolds catalog.now declared.now folds.now }
    requires placed { IsPlaced catalog.now declared.now }
    requires fit { IsTrue (are_batches catalog.now declared.now.cube snapshot.now) }
    ensures folded { IfOk result
        (λ bodies. bodies.items
        ≡ map (fold_over catalog.now declared.now (rows_in snapshot.now)) folds.now) }
    ensures cost { OnOk result (steps.new ≡ steps.old + length (rows_in snapshot.now)) }
    ensures at_least { steps.old ≤ steps.new }
    ensures at_most { steps.new ≤ steps.old + length (rows_in snapshot.now) }
{
    // A snapshot has no more rows than a body has room for.
    let _rows = snapshot.rows();
    let mut bodies = empty_bodies(alloc, catalog, declared, folds)?;
    add_to_each(alloc, catalog, snapshot, bodies.as_mut_slice(), steps)?;
    Ok(bodies)
}

// Some folds of a table over no row.
fn empty_bodies(
    alloc: Global,
    catalog: &Catalog,
    declared: &Declared,
    folds: &[Fold],
) -> Result<Vec<Body>, OutOfMemory>
    ensures { IfOk result
        (λ bodies. bodies.items ≡ map (fold_over catalog.now declared.now []) folds.now) }
{
    let mut bodies = Vec::with_capacity(alloc, folds.len())?;
    for fold in folds {
        let header = header_for(alloc, catalog, declared, fold.measure)?;
        bodies.push(Body::new(alloc, header, fold.aggregator)?)?;
    }
    Ok(bodies)
}
