//! The measures of an aggregate table.
ghost use Rattle.std.specs.Prelude.{◌≡◌, [], Ok, Err, IfOk, IfErr, map};
ghost use Rattle.olap_meaning.specs.Whole.{measure_named};
ghost use Rattle.serde_json.specs.View.{view};
ghost use Rattle.cube_schema.specs.declared.place.SchemaKey.TheVariants.{Measures};
ghost use Rattle.cube_schema.specs.declared.place.SchemaNode.TheVariants.{Aggregate};
ghost use Rattle.cube_schema.specs.Aggregates.{aggregate_measure_of, count_column_at, known_measure};
ghost use Rattle.cube_schema.specs.Lists.{any_number, items_at, items_from};
ghost use Rattle.cube_schema.specs.Readers.{IsFaultOf};

use crate::fault::SchemaFault;
use crate::fields::{check_object, find_list, find_name, read_name};
use crate::place::{SchemaKey, SchemaNode, SchemaPlace};
use olap_meaning::schema::{AggregateMeasure, SchemaCube};
use olap_meaning::{Aggregator, List, Text};
use serde_json::Value;
use std::alloc::Global;

// The aggregator of the measure of this name in a cube, which is no distinct count.
fn find_aggregator(
    place: SchemaPlace,
    cube: &SchemaCube,
    name: &str,
) -> Result<Aggregator, SchemaFault>
    ensures ok { IfOk result (λ aggregator.
        known_measure place (measure_named cube.now name.now) ≡ Ok aggregator) }
    ensures err { IfErr result (λ fault.
        known_measure place (measure_named cube.now name.now) ≡ Err fault) }
{
    for measure in cube.measures.as_slice() {
        if name == measure.name.as_str() {
            return match measure.aggregator {
                Aggregator::DistinctCount => Err(SchemaFault::UnknownMeasure { place }),
                aggregator => Ok(aggregator),
            };
        }
    }
    Err(SchemaFault::UnknownMeasure { place })
}

// The column of counts, which an average must have.
#[tactic(auto, unfolding(crate::specs::Aggregates::count_column_at))]
fn read_count_column(
    alloc: Global,
    node: SchemaNode,
    aggregator: Aggregator,
    value: &Value,
) -> Result<Option<Text>, SchemaFault>
    ensures ok { IfOk result (λ column.
        count_column_at node aggregator (view value.now) ≡ Ok column) }
    ensures err { IfErr result (λ fault.
        IsFaultOf (count_column_at node aggregator (view value.now)) fault) }
{
    match aggregator {
        Aggregator::Avg => Ok(Some(read_name(alloc, node, SchemaKey::CountColumn, value)?)),
        _ => Ok(None),
    }
}

// A measure, after earlier ones of its table.
#[tactic(auto, unfolding(crate::specs::Aggregates::aggregate_measure_of))]
fn read_measure(
    alloc: Global,
    cube: &SchemaCube,
    table: usize,
    earlier: &[AggregateMeasure],
    value: &Value,
) -> Result<AggregateMeasure, SchemaFault>
    ensures ok { IfOk result (λ measure.
        aggregate_measure_of cube.now table earlier.now (view value.now) ≡ Ok measure) }
    ensures err { IfErr result (λ fault.
        IsFaultOf (aggregate_measure_of cube.now table earlier.now (view value.now)) fault) }
{
    let node = SchemaNode::AggregateMeasure {
        table,
        measure: earlier.len(),
    };
    check_object(node, value)?;
    let key = SchemaKey::Measure;
    let name = find_name(node, key, value)?;
    let aggregator = find_aggregator(SchemaPlace::Key { node, key }, cube, name)?;
    let column = read_name(alloc, node, SchemaKey::Column, value)?;
    let count_column = read_count_column(alloc, node, aggregator, value)?;
    let measure = Text::from_str(alloc, name)?;
    Ok(AggregateMeasure {
        measure,
        column,
        count_column,
    })
}

// The measures of a table, by their items.
#[tactic(auto, unfolding(crate::specs::Lists::items_from))]
fn measures_of(
    alloc: Global,
    cube: &SchemaCube,
    table: usize,
    items: &[Value],
) -> Result<List<AggregateMeasure>, SchemaFault>
    ensures ok { IfOk result (λ measures.
        items_from (aggregate_measure_of cube.now table) [] (map view items.now) ≡ Ok measures) }
    ensures err { IfErr result (λ fault. IsFaultOf
        (items_from (aggregate_measure_of cube.now table) [] (map view items.now)) fault) }
{
    let mut measures = List::new(alloc);
    for item in items {
        let measure = read_measure(alloc, cube, table, measures.as_slice(), item)?;
        measures.push(measure)?;
    }
    Ok(measures)
}

/// The measures of a table.
#[tactic(auto, unfolding(crate::specs::Lists::items_at))]
pub(crate) fn read_measures(
    alloc: Global,
    cube: &SchemaCube,
    table: usize,
    value: &Value,
) -> Result<List<AggregateMeasure>, SchemaFault>
    ensures ok { IfOk result (λ measures.
        items_at (Aggregate table) Measures any_number
        (aggregate_measure_of cube.now table) (view value.now) ≡ Ok measures) }
    ensures err { IfErr result (λ fault. IsFaultOf
        (items_at (Aggregate table) Measures any_number
        (aggregate_measure_of cube.now table) (view value.now)) fault) }
{
    let node = SchemaNode::Aggregate { table };
    let items = find_list(node, SchemaKey::Measures, value)?;
    measures_of(alloc, cube, table, items)
}
