//! A schema from the bytes of its file.
ghost use Rattle.std.specs.Prelude.{◌≡◌, Ok, Err, IfOk, IfErr};
ghost use Rattle.olap_meaning.specs.Whole.{IsWhole};
ghost use Rattle.olap_meaning.specs.declared.schema.TheConstants.{CUBE_LIMIT, DIMENSION_LIMIT};
ghost use Rattle.serde_json.specs.View.{view};
ghost use Rattle.cube_schema.specs.declared.place.SchemaKey.TheVariants.{Cubes, Dimensions};
ghost use Rattle.cube_schema.specs.declared.place.SchemaNode.TheVariants as node;
ghost use Rattle.cube_schema.specs.Cubes.{cube_of};
ghost use Rattle.cube_schema.specs.Dimensions.{dimension_of};
ghost use Rattle.cube_schema.specs.Lists.{at_most, items_at, some_at_most};
ghost use Rattle.cube_schema.specs.Readers.{IsFaultOf};
ghost use Rattle.cube_schema.specs.Schemas.{aggregates_at, schema_in, schema_of};

use crate::aggregates::read_aggregates;
use crate::cubes::read_cubes;
use crate::dimensions::read_dimensions;
use crate::fault::SchemaFault;
use crate::fields::{check_count, check_filled, check_object, find_list, read_json};
use crate::place::{SchemaKey, SchemaNode, SchemaPlace};
use olap_meaning::List;
use olap_meaning::schema::{
    AGGREGATE_LIMIT, CUBE_LIMIT, DIMENSION_LIMIT, Schema, SchemaAggregate, SchemaCube,
    SchemaDimension,
};
use serde_json::Value;
use std::alloc::Global;

// The dimensions of a schema.
#[tactic(auto, unfolding(crate::specs::Lists::items_at))]
fn top_dimensions(alloc: Global, value: &Value) -> Result<List<SchemaDimension>, SchemaFault>
    ensures ok { IfOk result (λ dimensions.
        items_at node.Schema Dimensions (at_most DIMENSION_LIMIT) dimension_of (view value.now)
        ≡ Ok dimensions) }
    ensures err { IfErr result (λ fault. IsFaultOf
        (items_at node.Schema Dimensions (at_most DIMENSION_LIMIT) dimension_of (view value.now))
        fault) }
{
    let node = SchemaNode::Schema;
    let key = SchemaKey::Dimensions;
    let items = find_list(node, key, value)?;
    check_count(SchemaPlace::Key { node, key }, items.len(), DIMENSION_LIMIT)?;
    read_dimensions(alloc, items)
}

// The cubes of a schema, over its dimensions.
#[tactic(auto, unfolding(crate::specs::Lists::items_at))]
fn top_cubes(
    alloc: Global,
    dimensions: &[SchemaDimension],
    value: &Value,
) -> Result<List<SchemaCube>, SchemaFault>
    ensures ok { IfOk result (λ cubes.
        items_at node.Schema Cubes (some_at_most (node.Cube 0) CUBE_LIMIT) (cube_of dimensions.now)
        (view value.now) ≡ Ok cubes) }
    ensures err { IfErr result (λ fault. IsFaultOf
        (items_at node.Schema Cubes (some_at_most (node.Cube 0) CUBE_LIMIT) (cube_of dimensions.now)
        (view value.now)) fault) }
{
    let node = SchemaNode::Schema;
    let key = SchemaKey::Cubes;
    let items = find_list(node, key, value)?;
    check_count(SchemaPlace::Key { node, key }, items.len(), CUBE_LIMIT)?;
    check_filled(SchemaNode::Cube { cube: 0 }, items)?;
    read_cubes(alloc, dimensions, items)
}

// The aggregate tables of a schema, over its dimensions and its cubes.
#[tactic(auto, unfolding(crate::specs::Schemas::aggregates_at, crate::specs::Lists::items_at))]
fn top_aggregates(
    alloc: Global,
    dimensions: &[SchemaDimension],
    cubes: &[SchemaCube],
    value: &Value,
) -> Result<List<SchemaAggregate>, SchemaFault>
    ensures ok { IfOk result (λ aggregates.
        aggregates_at dimensions.now cubes.now (view value.now) ≡ Ok aggregates) }
    ensures err { IfErr result (λ fault.
        IsFaultOf (aggregates_at dimensions.now cubes.now (view value.now)) fault) }
{
    let node = SchemaNode::Schema;
    let key = SchemaKey::Aggregates;
    if value.get(key.text()).is_none() {
        return Ok(List::new(alloc));
    }
    let items = find_list(node, key, value)?;
    check_count(SchemaPlace::Key { node, key }, items.len(), AGGREGATE_LIMIT)?;
    read_aggregates(alloc, dimensions, cubes, items)
}

// The schema that a JSON value is.
#[tactic(auto, unfolding(crate::specs::Schemas::schema_in))]
fn read_value(alloc: Global, value: &Value) -> Result<Schema, SchemaFault>
    ensures ok { IfOk result (λ schema. schema_in (view value.now) ≡ Ok schema) }
    ensures err { IfErr result (λ fault. IsFaultOf (schema_in (view value.now)) fault) }
{
    check_object(SchemaNode::Schema, value)?;
    let dimensions = top_dimensions(alloc, value)?;
    let cubes = top_cubes(alloc, dimensions.as_slice(), value)?;
    let aggregates = top_aggregates(alloc, dimensions.as_slice(), cubes.as_slice(), value)?;
    Ok(Schema {
        dimensions,
        cubes,
        aggregates,
    })
}

/// The schema of a file's bytes, or its first fault.
#[tactic(auto, unfolding(crate::specs::Schemas::schema_of))]
pub fn read_schema(alloc: Global, bytes: &[u8]) -> Result<Schema, SchemaFault>
    ensures ok { IfOk result (λ schema. schema_of bytes.now ≡ Ok schema) }
    ensures err { IfErr result (λ fault. IsFaultOf (schema_of bytes.now) fault) }
    ensures whole { IfOk result (λ schema. IsWhole schema) }
{
    let value = read_json(alloc, bytes)?;
    read_value(alloc, &value)
}
