//! The cubes of a schema, their uses of dimensions, and their measures.
ghost use Rattle.std.specs.Prelude.{◌≡◌, [], Ok, Err, IfOk, IfErr, map};
ghost use Rattle.olap_meaning.specs.Whole.{has_use};
ghost use Rattle.olap_meaning.specs.declared.schema.TheConstants.{MEASURE_LIMIT, USE_LIMIT};
ghost use Rattle.serde_json.specs.View.{view};
ghost use Rattle.cube_schema.specs.declared.place.SchemaKey.TheVariants.{Dimensions, Measures};
ghost use Rattle.cube_schema.specs.declared.place.SchemaNode.TheVariants.{Cube, Measure as MeasureNode};
ghost use Rattle.cube_schema.specs.Cubes.{aggregator_at, cube_of, has_cube, has_measure, measure_of, use_of};
ghost use Rattle.cube_schema.specs.Lists.{at_most, items_at, items_from, some_at_most};
ghost use Rattle.cube_schema.specs.Readers.{IsFaultOf};

use crate::dimensions::has_dimension;
use crate::fault::SchemaFault;
use crate::fields::{
    check_count, check_filled, check_object, find, find_list, find_name, read_file_name, read_name,
};
use crate::place::{SchemaKey, SchemaNode, SchemaPlace};
use olap_meaning::schema::{MEASURE_LIMIT, SchemaCube, SchemaDimension, SchemaUse, USE_LIMIT};
use olap_meaning::tables::Measure;
use olap_meaning::{Aggregator, List, Text};
use serde_json::Value;
use std::alloc::Global;

/// Whether a use of this source is among some.
pub(crate) fn has_use(source: &str, uses: &[SchemaUse]) -> bool
    ensures { result ≡ has_use source.now uses.now }
{
    uses.iter().any(|used| source == used.source.as_str())
}

// A use of one of some dimensions, after earlier ones of its cube.
#[tactic(auto, unfolding(crate::specs::Cubes::use_of))]
fn read_use(
    alloc: Global,
    dimensions: &[SchemaDimension],
    cube: usize,
    earlier: &[SchemaUse],
    value: &Value,
) -> Result<SchemaUse, SchemaFault>
    ensures ok { IfOk result (λ used.
        use_of dimensions.now cube earlier.now (view value.now) ≡ Ok used) }
    ensures err { IfErr result (λ fault.
        IsFaultOf (use_of dimensions.now cube earlier.now (view value.now)) fault) }
{
    let node = SchemaNode::Use {
        cube,
        used: earlier.len(),
    };
    check_object(node, value)?;
    let source = find_name(node, SchemaKey::Source, value)?;
    let place = SchemaPlace::Key {
        node,
        key: SchemaKey::Source,
    };
    if !has_dimension(source, dimensions) {
        return Err(SchemaFault::UnknownDimension { place });
    }
    if has_use(source, earlier) {
        return Err(SchemaFault::TwiceNamed { place });
    }
    let foreign_key = read_name(alloc, node, SchemaKey::ForeignKey, value)?;
    let source = Text::from_str(alloc, source)?;
    Ok(SchemaUse {
        source,
        foreign_key,
    })
}

// The uses of a cube, by their items.
#[tactic(auto, unfolding(crate::specs::Lists::items_from))]
fn uses_of(
    alloc: Global,
    dimensions: &[SchemaDimension],
    cube: usize,
    items: &[Value],
) -> Result<List<SchemaUse>, SchemaFault>
    ensures ok { IfOk result (λ uses.
        items_from (use_of dimensions.now cube) [] (map view items.now) ≡ Ok uses) }
    ensures err { IfErr result (λ fault.
        IsFaultOf (items_from (use_of dimensions.now cube) [] (map view items.now)) fault) }
{
    let mut uses = List::new(alloc);
    for item in items {
        let used = read_use(alloc, dimensions, cube, uses.as_slice(), item)?;
        uses.push(used)?;
    }
    Ok(uses)
}

// The uses of a cube.
#[tactic(auto, unfolding(crate::specs::Lists::items_at))]
fn read_uses(
    alloc: Global,
    dimensions: &[SchemaDimension],
    cube: usize,
    value: &Value,
) -> Result<List<SchemaUse>, SchemaFault>
    ensures ok { IfOk result (λ uses.
        items_at (Cube cube) Dimensions (at_most USE_LIMIT) (use_of dimensions.now cube)
        (view value.now) ≡ Ok uses) }
    ensures err { IfErr result (λ fault. IsFaultOf
        (items_at (Cube cube) Dimensions (at_most USE_LIMIT) (use_of dimensions.now cube)
        (view value.now)) fault) }
{
    let node = SchemaNode::Cube { cube };
    let key = SchemaKey::Dimensions;
    let items = find_list(node, key, value)?;
    check_count(SchemaPlace::Key { node, key }, items.len(), USE_LIMIT)?;
    uses_of(alloc, dimensions, cube, items)
}

// The aggregator of a measure.
#[tactic(auto, unfolding(crate::specs::Cubes::aggregator_at))]
fn read_aggregator(node: SchemaNode, value: &Value) -> Result<Aggregator, SchemaFault>
    ensures ok { IfOk result (λ aggregator. aggregator_at node (view value.now) ≡ Ok aggregator) }
    ensures err { IfErr result (λ fault. aggregator_at node (view value.now) ≡ Err fault) }
{
    let key = SchemaKey::Aggregator;
    let place = SchemaPlace::Key { node, key };
    let Some(name) = find(node, key, value)?.as_str() else {
        return Err(SchemaFault::WrongKind { place });
    };
    Aggregator::named(name).ok_or(SchemaFault::UnknownAggregator { place })
}

// Whether a measure of this name is among some.
fn has_measure(name: &str, measures: &[Measure]) -> bool
    ensures { result ≡ has_measure name.now measures.now }
{
    measures.iter().any(|measure| name == measure.name.as_str())
}

// A measure, after earlier ones of its cube.
#[tactic(auto, unfolding(crate::specs::Cubes::measure_of))]
fn read_measure(
    alloc: Global,
    cube: usize,
    earlier: &[Measure],
    value: &Value,
) -> Result<Measure, SchemaFault>
    ensures ok { IfOk result (λ measure.
        measure_of cube earlier.now (view value.now) ≡ Ok measure) }
    ensures err { IfErr result (λ fault.
        IsFaultOf (measure_of cube earlier.now (view value.now)) fault) }
{
    let node = SchemaNode::Measure {
        cube,
        measure: earlier.len(),
    };
    check_object(node, value)?;
    let name = find_name(node, SchemaKey::Name, value)?;
    if has_measure(name, earlier) {
        return Err(SchemaFault::TwiceNamed {
            place: SchemaPlace::Key {
                node,
                key: SchemaKey::Name,
            },
        });
    }
    let column = read_name(alloc, node, SchemaKey::Column, value)?;
    let aggregator = read_aggregator(node, value)?;
    let name = Text::from_str(alloc, name)?;
    Ok(Measure {
        name,
        column,
        aggregator,
    })
}

// The measures of a cube, by their items.
#[tactic(auto, unfolding(crate::specs::Lists::items_from))]
fn measures_of(alloc: Global, cube: usize, items: &[Value]) -> Result<List<Measure>, SchemaFault>
    ensures ok { IfOk result (λ measures.
        items_from (measure_of cube) [] (map view items.now) ≡ Ok measures) }
    ensures err { IfErr result (λ fault.
        IsFaultOf (items_from (measure_of cube) [] (map view items.now)) fault) }
{
    let mut measures = List::new(alloc);
    for item in items {
        let measure = read_measure(alloc, cube, measures.as_slice(), item)?;
        measures.push(measure)?;
    }
    Ok(measures)
}

// The measures of a cube.
#[tactic(auto, unfolding(crate::specs::Lists::items_at))]
fn read_measures(alloc: Global, cube: usize, value: &Value) -> Result<List<Measure>, SchemaFault>
    ensures ok { IfOk result (λ measures.
        items_at (Cube cube) Measures
        (some_at_most (MeasureNode cube 0) MEASURE_LIMIT) (measure_of cube)
        (view value.now) ≡ Ok measures) }
    ensures err { IfErr result (λ fault. IsFaultOf
        (items_at (Cube cube) Measures
        (some_at_most (MeasureNode cube 0) MEASURE_LIMIT) (measure_of cube) (view value.now)) fault) }
{
    let node = SchemaNode::Cube { cube };
    let key = SchemaKey::Measures;
    let items = find_list(node, key, value)?;
    check_count(SchemaPlace::Key { node, key }, items.len(), MEASURE_LIMIT)?;
    check_filled(SchemaNode::Measure { cube, measure: 0 }, items)?;
    measures_of(alloc, cube, items)
}

// Whether a cube of this name is among some.
fn has_cube(name: &str, cubes: &[SchemaCube]) -> bool
    ensures { result ≡ has_cube name.now cubes.now }
{
    cubes.iter().any(|cube| name == cube.name.as_str())
}

// A cube over some dimensions, after earlier ones.
#[tactic(auto, unfolding(crate::specs::Cubes::cube_of))]
fn read_cube(
    alloc: Global,
    dimensions: &[SchemaDimension],
    earlier: &[SchemaCube],
    value: &Value,
) -> Result<SchemaCube, SchemaFault>
    ensures ok { IfOk result (λ cube.
        cube_of dimensions.now earlier.now (view value.now) ≡ Ok cube) }
    ensures err { IfErr result (λ fault.
        IsFaultOf (cube_of dimensions.now earlier.now (view value.now)) fault) }
{
    let place = earlier.len();
    let node = SchemaNode::Cube { cube: place };
    check_object(node, value)?;
    let name = find_name(node, SchemaKey::Name, value)?;
    if has_cube(name, earlier) {
        return Err(SchemaFault::TwiceNamed {
            place: SchemaPlace::Key {
                node,
                key: SchemaKey::Name,
            },
        });
    }
    let fact = read_file_name(alloc, node, SchemaKey::Fact, value)?;
    let uses = read_uses(alloc, dimensions, place, value)?;
    let measures = read_measures(alloc, place, value)?;
    let name = Text::from_str(alloc, name)?;
    Ok(SchemaCube {
        name,
        fact,
        dimensions: uses,
        measures,
    })
}

/// The cubes of a schema, over its dimensions, by their items.
#[tactic(auto, unfolding(crate::specs::Lists::items_from))]
pub(crate) fn read_cubes(
    alloc: Global,
    dimensions: &[SchemaDimension],
    items: &[Value],
) -> Result<List<SchemaCube>, SchemaFault>
    ensures ok { IfOk result (λ cubes.
        items_from (cube_of dimensions.now) [] (map view items.now) ≡ Ok cubes) }
    ensures err { IfErr result (λ fault.
        IsFaultOf (items_from (cube_of dimensions.now) [] (map view items.now)) fault) }
{
    let mut cubes = List::new(alloc);
    for item in items {
        let cube = read_cube(alloc, dimensions, cubes.as_slice(), item)?;
        cubes.push(cube)?;
    }
    Ok(cubes)
}
