//! The cubes of a schema over its dimensions, and which hierarchies each of them has.
ghost use Rattle.std.specs.Prelude.{◌≡◌, ◌≤◌, ◌++◌, length, map, flat_map, filter_map, IfOk, OnOk};
ghost use Rattle.olap_meaning.specs.FullNames.{joined_name};
ghost use Rattle.olap_meaning.specs.Schema.{cube_over, dimension_place};
ghost use Rattle.olap_catalog.specs.Roots.{hierarchies_among, full_name_in, measure_names, root_names_in, name_at};

use olap_meaning::schema::{
    DIMENSION_LIMIT, LEVEL_LIMIT, SchemaAggregate, SchemaCube, SchemaDimension, SchemaUse,
};
use olap_meaning::tables::{Cube, Hierarchy, Measure};
use olap_meaning::{HierarchyId, List, OutOfMemory, Text};
use std::alloc::Global;

/// Some cubes over some dimensions.
pub(crate) fn cubes_of(
    alloc: Global,
    dimensions: &[SchemaDimension],
    cubes: &[SchemaCube],
) -> Result<List<Cube>, OutOfMemory>
    requires { length dimensions.now ≤ DIMENSION_LIMIT }
    ensures { IfOk result (λ built. built ≡ map (cube_over dimensions.now) cubes.now) }
{
    let mut built = List::new(alloc);
    for cube in cubes {
        built.push(Cube {
            name: cube.name.copy()?,
            dimensions: places_of(alloc, dimensions, cube.dimensions.as_slice())?,
            measures: measures_of(alloc, cube.measures.as_slice())?,
        })?;
    }
    Ok(built)
}

// The places of the dimensions that a cube uses.
fn places_of(
    alloc: Global,
    dimensions: &[SchemaDimension],
    uses: &[SchemaUse],
) -> Result<List<u32>, OutOfMemory>
    requires { length dimensions.now ≤ DIMENSION_LIMIT }
    ensures { IfOk result
        (λ places. places
        ≡ filter_map (λ used. dimension_place dimensions.now used.source) uses.now) }
{
    let mut places = List::new(alloc);
    for used in uses {
        if let Some(place) = place_of(dimensions, used.source.as_str()) {
            places.push(place)?;
        }
    }
    Ok(places)
}

// The place of a dimension, by its name.
fn place_of(dimensions: &[SchemaDimension], source: &str) -> Option<u32>
    requires { length dimensions.now ≤ DIMENSION_LIMIT }
    ensures { result ≡ dimension_place dimensions.now source.now }
{
    match position_of(dimensions, source) {
        None => None,
        Some(place) => Some(place as u32),
    }
}

fn position_of(dimensions: &[SchemaDimension], source: &str) -> Option<usize>
    ensures { result ≡ dimension_place dimensions.now source.now }
{
    dimensions.iter().position(|d| source == d.name.as_str())
}

// Copies of some measures.
fn measures_of(alloc: Global, measures: &[Measure]) -> Result<List<Measure>, OutOfMemory>
    ensures { IfOk result (λ copies. copies ≡ measures.now) }
{
    let mut copies = List::new(alloc);
    for measure in measures {
        copies.push(Measure {
            name: measure.name.copy()?,
            column: measure.column.copy()?,
            aggregator: measure.aggregator,
        })?;
    }
    Ok(copies)
}

/// The hierarchies of each of some cubes.
pub(crate) fn roots_of(
    alloc: Global,
    hierarchies: &[Hierarchy],
    cubes: &[Cube],
) -> Result<List<List<HierarchyId>>, OutOfMemory>
    requires { length hierarchies.now ≤ LEVEL_LIMIT }
    ensures { IfOk result
        (λ roots. roots
        ≡ map (λ cube. flat_map (hierarchies_among hierarchies.now) cube.dimensions) cubes.now) }
{
    let mut roots = List::new(alloc);
    for cube in cubes {
        roots.push(hierarchies_over(alloc, hierarchies, cube.dimensions.as_slice())?)?;
    }
    Ok(roots)
}

// The hierarchies of some dimensions, in their order.
fn hierarchies_over(
    alloc: Global,
    hierarchies: &[Hierarchy],
    dimensions: &[u32],
) -> Result<List<HierarchyId>, OutOfMemory>
    requires { length hierarchies.now ≤ LEVEL_LIMIT }
    ensures { IfOk result
        (λ found. found ≡ flat_map (hierarchies_among hierarchies.now) dimensions.now) }
{
    let mut found = List::new(alloc);
    for dimension in dimensions {
        add_hierarchies(&mut found, hierarchies, *dimension)?;
    }
    Ok(found)
}

// Adds the hierarchies of one dimension.
fn add_hierarchies(
    found: &mut List<HierarchyId>,
    hierarchies: &[Hierarchy],
    dimension: u32,
) -> Result<(), OutOfMemory>
    requires { length hierarchies.now ≤ LEVEL_LIMIT }
    ensures { OnOk result (found.new ≡ found.old ++ hierarchies_among hierarchies.now dimension) }
{
    for (h, hierarchy) in hierarchies.iter().enumerate() {
        if hierarchy.dimension == dimension {
            found.push(HierarchyId(h as u16))?;
        }
    }
    Ok(())
}

/// The full names of some hierarchies.
pub(crate) fn full_names_of(
    alloc: Global,
    dimensions: &[SchemaDimension],
    hierarchies: &[Hierarchy],
) -> Result<List<Text>, OutOfMemory>
    ensures { IfOk result (λ names. names ≡ map (full_name_in dimensions.now) hierarchies.now) }
{
    let mut names = List::new(alloc);
    for hierarchy in hierarchies {
        names.push(full_name(alloc, dimensions, hierarchy)?)?;
    }
    Ok(names)
}

// The full name of a hierarchy.
fn full_name(
    alloc: Global,
    dimensions: &[SchemaDimension],
    hierarchy: &Hierarchy,
) -> Result<Text, OutOfMemory>
    ensures { IfOk result (λ name. name ≡ full_name_in dimensions.now hierarchy.now) }
{
    let dimension = match dimensions.get(hierarchy.dimension as usize) {
        None => "",
        Some(d) => d.name.as_str(),
    };
    joined_name(alloc, dimension, hierarchy.name.as_str())
}

// A dimension's name, a dot and a hierarchy's name, or the one name where they have the same.
fn joined_name(alloc: Global, dimension: &str, hierarchy: &str) -> Result<Text, OutOfMemory>
    ensures { IfOk result (λ name. name ≡ joined_name dimension.now hierarchy.now) }
{
    if hierarchy == dimension {
        return Text::from_str(alloc, hierarchy);
    }
    let mut name = String::new(alloc);
    name.push_str(dimension)?;
    name.push_str(".")?;
    name.push_str(hierarchy)?;
    Ok(Text::from_string(name))
}

/// The names of some cubes.
pub(crate) fn cube_names_of(alloc: Global, cubes: &[Cube]) -> Result<List<Text>, OutOfMemory>
    ensures { IfOk result (λ names. names ≡ map (λ cube. cube.name) cubes.now) }
{
    let mut names = List::new(alloc);
    for cube in cubes {
        names.push(cube.name.copy()?)?;
    }
    Ok(names)
}

/// The names of some aggregate tables.
pub(crate) fn table_names_of(
    alloc: Global,
    tables: &[SchemaAggregate],
) -> Result<List<Text>, OutOfMemory>
    ensures { IfOk result (λ names. names ≡ map (λ table. table.name) tables.now) }
{
    let mut names = List::new(alloc);
    for table in tables {
        names.push(table.name.copy()?)?;
    }
    Ok(names)
}

/// The names of the measures of each of some cubes.
pub(crate) fn measure_names_of(
    alloc: Global,
    cubes: &[Cube],
) -> Result<List<List<Text>>, OutOfMemory>
    ensures { IfOk result (λ names. names ≡ map measure_names cubes.now) }
{
    let mut names = List::new(alloc);
    for cube in cubes {
        names.push(names_of_measures(alloc, cube.measures.as_slice())?)?;
    }
    Ok(names)
}

fn names_of_measures(alloc: Global, measures: &[Measure]) -> Result<List<Text>, OutOfMemory>
    ensures { IfOk result (λ names. names ≡ map (λ measure. measure.name) measures.now) }
{
    let mut names = List::new(alloc);
    for measure in measures {
        names.push(measure.name.copy()?)?;
    }
    Ok(names)
}

/// What the first name of a path may be, in each of some cubes: `Measures`, or the full name of a hierarchy.
pub(crate) fn root_names_of(
    alloc: Global,
    full_names: &[Text],
    roots: &[List<HierarchyId>],
) -> Result<List<List<Text>>, OutOfMemory>
    ensures { IfOk result (λ names. names ≡ map (root_names_in full_names.now) roots.now) }
{
    let mut names = List::new(alloc);
    for ids in roots {
        names.push(names_of_roots(alloc, full_names, ids.as_slice())?)?;
    }
    Ok(names)
}

fn names_of_roots(
    alloc: Global,
    full_names: &[Text],
    ids: &[HierarchyId],
) -> Result<List<Text>, OutOfMemory>
    ensures { IfOk result (λ names. names ≡ root_names_in full_names.now ids.now) }
{
    let mut names = List::new(alloc);
    names.push(Text::from_str(alloc, "Measures")?)?;
    for id in ids {
        names.push(name_at(alloc, full_names, *id)?)?;
    }
    Ok(names)
}

fn name_at(alloc: Global, full_names: &[Text], id: HierarchyId) -> Result<Text, OutOfMemory>
    ensures { IfOk result (λ name. name ≡ name_at full_names.now id) }
{
    match full_names.get(id.0 as usize) {
        None => Text::from_str(alloc, ""),
        Some(name) => name.copy(),
    }
}
