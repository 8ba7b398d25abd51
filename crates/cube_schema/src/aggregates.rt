//! The aggregate tables of a schema.
ghost use Rattle.std.specs.Prelude.{◌≡◌, [], Ok, Err, IfOk, IfErr, map, option_copied};
ghost use Rattle.olap_meaning.specs.Whole.{cube_named};
ghost use Rattle.serde_json.specs.View.{view};
ghost use Rattle.cube_schema.specs.Aggregates.{aggregate_of, has_aggregate};
ghost use Rattle.cube_schema.specs.Lists.{items_from};
ghost use Rattle.cube_schema.specs.Readers.{IsFaultOf};

use crate::aggregate_levels::{first_levels, read_levels};
use crate::aggregate_measures::read_measures;
use crate::fault::SchemaFault;
use crate::fields::{check_object, find_name, read_name, read_optional_file_name};
use crate::place::{SchemaKey, SchemaNode, SchemaPlace};
use olap_meaning::schema::{SchemaAggregate, SchemaCube, SchemaDimension};
use olap_meaning::{List, Text};
use serde_json::Value;
use std::alloc::Global;

// Whether an aggregate table of this name is among some.
fn has_aggregate(name: &str, aggregates: &[SchemaAggregate]) -> bool
    ensures { result ≡ has_aggregate name.now aggregates.now }
{
    aggregates
        .iter()
        .any(|aggregate| name == aggregate.name.as_str())
}

// The cube of this name.
fn find_cube<'a>(cubes: &'a [SchemaCube], name: &str) -> Option<&'a SchemaCube>
    ensures { option_copied result ≡ cube_named cubes.now name.now }
{
    cubes.iter().find(|cube| name == cube.name.as_str())
}

// An aggregate table over some dimensions and some cubes, after earlier ones.
#[tactic(auto, unfolding(crate::specs::Aggregates::aggregate_of))]
fn read_aggregate(
    alloc: Global,
    dimensions: &[SchemaDimension],
    cubes: &[SchemaCube],
    earlier: &[SchemaAggregate],
    value: &Value,
) -> Result<SchemaAggregate, SchemaFault>
    ensures ok { IfOk result (λ aggregate.
        aggregate_of dimensions.now cubes.now earlier.now (view value.now) ≡ Ok aggregate) }
    ensures err { IfErr result (λ fault.
        IsFaultOf (aggregate_of dimensions.now cubes.now earlier.now (view value.now)) fault) }
{
    let table = earlier.len();
    let node = SchemaNode::Aggregate { table };
    check_object(node, value)?;
    let key = SchemaKey::Name;
    let name = find_name(node, key, value)?;
    if has_aggregate(name, earlier) {
        let place = SchemaPlace::Key { node, key };
        return Err(SchemaFault::TwiceNamed { place });
    }
    let key = SchemaKey::Cube;
    let cube_name = find_name(node, key, value)?;
    let Some(cube) = find_cube(cubes, cube_name) else {
        let place = SchemaPlace::Key { node, key };
        return Err(SchemaFault::UnknownDimension { place });
    };
    let file = read_optional_file_name(alloc, node, SchemaKey::File, value)?;
    let fact_count = read_name(alloc, node, SchemaKey::FactCount, value)?;
    let levels = read_levels(alloc, dimensions, cube, table, value)?;
    let measures = read_measures(alloc, cube, table, value)?;
    Ok(SchemaAggregate {
        name: Text::from_str(alloc, name)?,
        cube: Text::from_str(alloc, cube_name)?,
        file,
        fact_count,
        levels: first_levels(alloc, levels)?,
        measures,
    })
}

/// The aggregate tables of a schema, over its dimensions and its cubes, by their items.
#[tactic(auto, unfolding(crate::specs::Lists::items_from))]
pub(crate) fn read_aggregates(
    alloc: Global,
    dimensions: &[SchemaDimension],
    cubes: &[SchemaCube],
    items: &[Value],
) -> Result<List<SchemaAggregate>, SchemaFault>
    ensures ok { IfOk result (λ aggregates. items_from
        (aggregate_of dimensions.now cubes.now) [] (map view items.now) ≡ Ok aggregates) }
    ensures err { IfErr result (λ fault. IsFaultOf
        (items_from (aggregate_of dimensions.now cubes.now) [] (map view items.now)) fault) }
{
    let mut aggregates = List::new(alloc);
    for item in items {
        let aggregate = read_aggregate(alloc, dimensions, cubes, aggregates.as_slice(), item)?;
        aggregates.push(aggregate)?;
    }
    Ok(aggregates)
}
