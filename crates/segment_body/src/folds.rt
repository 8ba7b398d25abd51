//! Groups folded into one tally: those of the rows that are in a cell.
ghost use Rattle.std.specs.Prelude.{◌≡◌, ◌≢◌, ◌≤◌, ◌==◌, ◌&&◌, All, IsTrue, flat_map, length};
ghost use Rattle.std.specs.List.{list_any, zip};
ghost use Rattle.segment_header.specs.Headers.{is_set};
ghost use Rattle.segment_body.specs.Folds as folds;
ghost use Rattle.segment_body.specs.Folds.{are_at, are_at_allowed, are_at_value, picked};

use crate::group::GroupTable;
use measure_folds::Tally;
use olap_meaning::{Aggregator, Allowed, ColumnId, ROW_LIMIT, ValueId};
use segment_header::allows;
use std::alloc::Global;

/// Whether values on some columns have a value in one of them.
fn is_valued(
    columns: &[(ColumnId, Allowed)],
    values: &[ValueId],
    column: ColumnId,
    value: ValueId,
) -> bool
    ensures { result
        ≡ list_any
        (λ own. (own.0.0 == column) && (own.1 == value)) (zip columns.now values.now) }
{
    columns
        .iter()
        .zip(values)
        .any(|own| own.0.0 == column && *own.1 == value)
}

/// Whether values on some columns have in one column a value that is allowed.
pub(crate) fn has_allowed(
    columns: &[(ColumnId, Allowed)],
    values: &[ValueId],
    column: ColumnId,
    allowed: &Allowed,
) -> bool
    requires { IsTrue (is_set allowed.now) }
    ensures { result ≡ folds.has_allowed columns.now column allowed.now values.now }
{
    columns
        .iter()
        .zip(values)
        .any(|own| own.0.0 == column && allows(allowed, *own.1))
}

/// Whether values on some columns have the values of pairs.
fn is_at(columns: &[(ColumnId, Allowed)], values: &[ValueId], at: &[(ColumnId, ValueId)]) -> bool
    ensures { result ≡ are_at columns.now at.now values.now }
{
    at.iter()
        .all(|pair| is_valued(columns, values, pair.0, pair.1))
}

/// The tally of the groups whose values have those of pairs.
pub(crate) fn fold_in(
    alloc: Global,
    aggregator: Aggregator,
    columns: &[(ColumnId, Allowed)],
    groups: &GroupTable,
    at: &[(ColumnId, ValueId)],
) -> Tally
    requires adds_up { aggregator ≢ Aggregator.DistinctCount }
    requires alike { All (λ group. group.tally.aggregator ≡ aggregator) groups.now }
    requires room { length (flat_map (λ group. group.tally.values) groups.now) ≤ ROW_LIMIT }
    ensures { result
        ≡ record {
          aggregator = aggregator;
          values = picked (are_at columns.now at.now) groups.now;
        } }
{
    let mut tally = Tally::new(alloc, aggregator);
    for i in 0..groups.len() {
        let group = groups.at(i);
        if is_at(columns, group.0, at) {
            tally.merge(group.1);
        }
    }
    tally
}

/// Whether values on some columns have the values of pairs, and a value in one column.
fn is_at_value(
    columns: &[(ColumnId, Allowed)],
    values: &[ValueId],
    at: &[(ColumnId, ValueId)],
    column: ColumnId,
    value: ValueId,
) -> bool
    ensures { result ≡ are_at_value columns.now at.now column value values.now }
{
    is_at(columns, values, at) && is_valued(columns, values, column, value)
}

/// The tally of the groups whose values have those of pairs, and a value in one column.
pub(crate) fn fold_valued(
    alloc: Global,
    aggregator: Aggregator,
    columns: &[(ColumnId, Allowed)],
    groups: &GroupTable,
    at: &[(ColumnId, ValueId)],
    column: ColumnId,
    value: ValueId,
) -> Tally
    requires adds_up { aggregator ≢ Aggregator.DistinctCount }
    requires alike { All (λ group. group.tally.aggregator ≡ aggregator) groups.now }
    requires room { length (flat_map (λ group. group.tally.values) groups.now) ≤ ROW_LIMIT }
    ensures { result
        ≡ record {
          aggregator = aggregator;
          values = picked (are_at_value columns.now at.now column value) groups.now;
        } }
{
    let mut tally = Tally::new(alloc, aggregator);
    for i in 0..groups.len() {
        let group = groups.at(i);
        if is_at_value(columns, group.0, at, column, value) {
            tally.merge(group.1);
        }
    }
    tally
}

/// Whether values on some columns have the values of pairs, and in one column a value that is allowed.
fn is_at_allowed(
    columns: &[(ColumnId, Allowed)],
    values: &[ValueId],
    at: &[(ColumnId, ValueId)],
    column: ColumnId,
    allowed: &Allowed,
) -> bool
    requires { IsTrue (is_set allowed.now) }
    ensures { result ≡ are_at_allowed columns.now at.now column allowed.now values.now }
{
    is_at(columns, values, at) && has_allowed(columns, values, column, allowed)
}

/// The tally of the groups whose values have those of pairs, and in one column a value that is allowed.
pub(crate) fn fold_allowed(
    alloc: Global,
    aggregator: Aggregator,
    columns: &[(ColumnId, Allowed)],
    groups: &GroupTable,
    at: &[(ColumnId, ValueId)],
    column: ColumnId,
    allowed: &Allowed,
) -> Tally
    requires formed { IsTrue (is_set allowed.now) }
    requires adds_up { aggregator ≢ Aggregator.DistinctCount }
    requires alike { All (λ group. group.tally.aggregator ≡ aggregator) groups.now }
    requires room { length (flat_map (λ group. group.tally.values) groups.now) ≤ ROW_LIMIT }
    ensures { result
        ≡ record {
          aggregator = aggregator;
          values = picked (are_at_allowed columns.now at.now column allowed.now) groups.now;
        } }
{
    let mut tally = Tally::new(alloc, aggregator);
    for i in 0..groups.len() {
        let group = groups.at(i);
        if is_at_allowed(columns, group.0, at, column, allowed) {
            tally.merge(group.1);
        }
    }
    tally
}
