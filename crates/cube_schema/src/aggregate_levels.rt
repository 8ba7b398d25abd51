//! The levels of an aggregate table.
ghost use Rattle.std.specs.Prelude.{◌≡◌, [], Ok, Err, IfOk, IfErr, map, option_copied};
ghost use Rattle.std.specs.List.{list_any};
ghost use Rattle.olap_meaning.specs.Whole.{hierarchy_in, hierarchy_named};
ghost use Rattle.serde_json.specs.View.{view};
ghost use Rattle.cube_schema.specs.declared.place.SchemaKey.TheVariants.{Levels};
ghost use Rattle.cube_schema.specs.declared.place.SchemaNode.TheVariants.{Aggregate};
ghost use Rattle.cube_schema.specs.Aggregates.{aggregate_level_of, first_levels, is_same_level};
ghost use Rattle.cube_schema.specs.Lists.{any_number, items_at, items_from};
ghost use Rattle.cube_schema.specs.Readers.{IsFaultOf};

use crate::cubes::has_use;
use crate::fault::SchemaFault;
use crate::fields::{check_object, find_list, find_name, read_name};
use crate::hierarchies::{full_name, has_level};
use crate::place::{SchemaKey, SchemaNode, SchemaPlace};
use olap_meaning::schema::{AggregateLevel, SchemaCube, SchemaDimension, SchemaHierarchy};
use olap_meaning::{List, OutOfMemory, Text};
use serde_json::Value;
use std::alloc::Global;

// The hierarchy of a dimension with this full name.
fn find_in<'a>(
    alloc: Global,
    dimension: &'a SchemaDimension,
    name: &str,
) -> Result<Option<&'a SchemaHierarchy>, OutOfMemory>
    ensures { IfOk result (λ found. option_copied found ≡ hierarchy_in dimension.now name.now) }
{
    for hierarchy in dimension.hierarchies.as_slice() {
        let full = full_name(alloc, dimension.name.as_str(), hierarchy.name.as_str())?;
        if name == full.as_str() {
            return Ok(Some(hierarchy));
        }
    }
    Ok(None)
}

// The hierarchy with this full name among those of the dimensions that a cube uses.
fn find_hierarchy<'a>(
    alloc: Global,
    dimensions: &'a [SchemaDimension],
    cube: &SchemaCube,
    name: &str,
) -> Result<Option<&'a SchemaHierarchy>, OutOfMemory>
    ensures { IfOk result (λ found.
        option_copied found ≡ hierarchy_named dimensions.now cube.now name.now) }
{
    for dimension in dimensions {
        if has_use(dimension.name.as_str(), cube.dimensions.as_slice()) {
            let found = find_in(alloc, dimension, name)?;
            if found.is_some() {
                return Ok(found);
            }
        }
    }
    Ok(None)
}

// A level, after earlier ones of its table.
#[tactic(auto, unfolding(crate::specs::Aggregates::aggregate_level_of))]
fn read_level(
    alloc: Global,
    dimensions: &[SchemaDimension],
    cube: &SchemaCube,
    table: usize,
    earlier: &[AggregateLevel],
    value: &Value,
) -> Result<AggregateLevel, SchemaFault>
    ensures ok { IfOk result (λ level. aggregate_level_of
        dimensions.now cube.now table earlier.now (view value.now) ≡ Ok level) }
    ensures err { IfErr result (λ fault. IsFaultOf (aggregate_level_of
        dimensions.now cube.now table earlier.now (view value.now)) fault) }
{
    let node = SchemaNode::AggregateLevel {
        table,
        level: earlier.len(),
    };
    check_object(node, value)?;
    let key = SchemaKey::Hierarchy;
    let name = find_name(node, key, value)?;
    let Some(hierarchy) = find_hierarchy(alloc, dimensions, cube, name)? else {
        let place = SchemaPlace::Key { node, key };
        return Err(SchemaFault::UnknownDimension { place });
    };
    let key = SchemaKey::Level;
    let level = find_name(node, key, value)?;
    if !has_level(level, hierarchy.levels.as_slice()) {
        let place = SchemaPlace::Key { node, key };
        return Err(SchemaFault::UnknownLevel { place });
    }
    let column = read_name(alloc, node, SchemaKey::Column, value)?;
    Ok(AggregateLevel {
        hierarchy: Text::from_str(alloc, name)?,
        level: Text::from_str(alloc, level)?,
        column,
    })
}

// The levels of a table, by their items.
#[tactic(auto, unfolding(crate::specs::Lists::items_from))]
fn levels_of(
    alloc: Global,
    dimensions: &[SchemaDimension],
    cube: &SchemaCube,
    table: usize,
    items: &[Value],
) -> Result<List<AggregateLevel>, SchemaFault>
    ensures ok { IfOk result (λ levels. items_from
        (aggregate_level_of dimensions.now cube.now table) [] (map view items.now) ≡ Ok levels) }
    ensures err { IfErr result (λ fault. IsFaultOf (items_from
        (aggregate_level_of dimensions.now cube.now table) [] (map view items.now)) fault) }
{
    let mut levels = List::new(alloc);
    for item in items {
        let level = read_level(alloc, dimensions, cube, table, levels.as_slice(), item)?;
        levels.push(level)?;
    }
    Ok(levels)
}

/// The levels of a table, all that stand there.
#[tactic(auto, unfolding(crate::specs::Lists::items_at))]
pub(crate) fn read_levels(
    alloc: Global,
    dimensions: &[SchemaDimension],
    cube: &SchemaCube,
    table: usize,
    value: &Value,
) -> Result<List<AggregateLevel>, SchemaFault>
    ensures ok { IfOk result (λ levels.
        items_at (Aggregate table) Levels any_number
        (aggregate_level_of dimensions.now cube.now table) (view value.now) ≡ Ok levels) }
    ensures err { IfErr result (λ fault. IsFaultOf
        (items_at (Aggregate table) Levels any_number
        (aggregate_level_of dimensions.now cube.now table) (view value.now)) fault) }
{
    let node = SchemaNode::Aggregate { table };
    let items = find_list(node, SchemaKey::Levels, value)?;
    levels_of(alloc, dimensions, cube, table, items)
}

// Whether a level of the same hierarchy and the same name is among some.
fn has_same(level: &AggregateLevel, levels: &[AggregateLevel]) -> bool
    ensures { result ≡ list_any (is_same_level level.now) levels.now }
{
    levels.iter().any(|other| {
        level.hierarchy.as_str() == other.hierarchy.as_str()
            && level.level.as_str() == other.level.as_str()
    })
}

/// Each of some levels once, as it stands first.
#[tactic(auto, using(crate::proofs::FirstFacts::first_levels_more))]
pub(crate) fn first_levels(
    alloc: Global,
    levels: List<AggregateLevel>,
) -> Result<List<AggregateLevel>, OutOfMemory>
    ensures { IfOk result (λ kept. kept ≡ first_levels [] levels) }
{
    let mut kept = List::new(alloc);
    for level in levels.into_vec() {
        if !has_same(&level, kept.as_slice()) {
            kept.push(level)?;
        }
    }
    Ok(kept)
}
