//! Finding what a schema's aggregate table is in its catalog.
ghost use Rattle.std.specs.Prelude.{◌≡◌, ◌<◌, ◌≤◌, IfOk, IsTrue, OnOk, Some, bytes_eq, find, length, option_map, position, slice_get};
ghost use Rattle.olap_meaning.specs.Covering.{among};
ghost use Rattle.olap_catalog.specs.Parts.{has_levels};
ghost use Rattle.agg_tables.specs.Bound.{IsPlaced, with_level};
ghost use Rattle.agg_tables.specs.Declarations.{declared_table, measure_with};
ghost use Rattle.agg_tables.specs.Declarations as meaning;

use crate::cube::cube_of;
use crate::declared::{Declared, TableLevel, TableMeasure};
use olap_catalog::Catalog;
use olap_meaning::schema::{AggregateLevel, AggregateMeasure, MEASURE_LIMIT};
use olap_meaning::tables::{Cube, Hierarchy, Measure};
use olap_meaning::{ColumnId, CubeId, HierarchyId, List, MeasureId, OutOfMemory};
use std::alloc::Global;

/// The table that a schema declares at a place.
pub(crate) fn find_table(
    alloc: Global,
    catalog: &Catalog,
    table: u32,
) -> Result<Declared, OutOfMemory>
    requires known { table < length catalog.now.schema.aggregates }
    ensures found { IfOk result (λ found. declared_table catalog.now table ≡ Some found) }
    ensures placed { IfOk result (IsPlaced catalog.now) }
{
    catalog.is_whole();
    catalog.layout_holds();
    let cube = cube_of(catalog, table);
    let parts = catalog.cube(cube);
    let own = &catalog.schema().aggregates.as_slice()[table as usize];
    Ok(Declared {
        cube,
        fact_count: own.fact_count.copy()?,
        levels: levels_of(alloc, catalog, parts, own.levels.as_slice())?,
        measures: measures_of(alloc, parts, own.measures.as_slice())?,
    })
}

// The levels of a cube's table, each column of the catalog once.
fn levels_of(
    alloc: Global,
    catalog: &Catalog,
    cube: &Cube,
    levels: &[AggregateLevel],
) -> Result<List<TableLevel>, OutOfMemory>
    ensures { IfOk result (λ found. found ≡ meaning.levels_of catalog.now cube.now levels.now) }
{
    let mut found = List::new(alloc);
    for level in levels {
        if let Some(column) = level_column(catalog, cube, level) {
            add_level(&mut found, column, level)?;
        }
    }
    Ok(found)
}

// Adds a level, where none so far has its column.
fn add_level(
    found: &mut List<TableLevel>,
    column: ColumnId,
    level: &AggregateLevel,
) -> Result<(), OutOfMemory>
    ensures { OnOk result
        (found.new
        ≡ with_level found.old (record { column = column; name = level.now.column })) }
{
    if has_column(found.as_slice(), column) {
        return Ok(());
    }
    found.push(TableLevel {
        column,
        name: level.column.copy()?,
    })
}

/// Whether some levels have a column of the catalog.
pub(crate) fn has_column(levels: &[TableLevel], column: ColumnId) -> bool
    ensures { result ≡ meaning.has_column levels.now column }
{
    levels.iter().any(|level| level.column == column)
}

// The column of the catalog that a level of a cube's table has the values of.
fn level_column(catalog: &Catalog, cube: &Cube, level: &AggregateLevel) -> Option<ColumnId>
    ensures { result ≡ meaning.level_column catalog.now cube.now level.now }
{
    catalog.layout_holds();
    for h in 0..catalog.hierarchy_count() {
        let id = HierarchyId(h as u16);
        if is_hierarchy(catalog, cube, level.hierarchy.as_str(), id) {
            return column_named(catalog, catalog.hierarchy(id), level.level.as_str());
        }
    }
    None
}

// Whether a hierarchy is the one of a cube with this full name.
fn is_hierarchy(catalog: &Catalog, cube: &Cube, name: &str, h: HierarchyId) -> bool
    requires { h < length catalog.now.hierarchies }
    ensures { option_map (meaning.is_hierarchy catalog.now cube.now name.now)
        (slice_get catalog.now.hierarchies h) ≡ Some result }
{
    let uses = uses(cube.dimensions.as_slice(), catalog.hierarchy(h).dimension);
    uses && name == catalog.full_name(h)
}

fn uses(dimensions: &[u32], dimension: u32) -> bool
    ensures { result ≡ among dimensions.now dimension }
{
    dimensions.iter().any(|d| *d == dimension)
}

// The column of a hierarchy's level of this name.
fn column_named(catalog: &Catalog, hierarchy: &Hierarchy, name: &str) -> Option<ColumnId>
    requires { IsTrue (has_levels catalog.now.columns hierarchy.now) }
    ensures { result ≡ find (meaning.is_named catalog.now name.now) hierarchy.now.levels }
{
    for column in hierarchy.levels.as_slice() {
        if name == catalog.column(*column).name.as_str() {
            return Some(*column);
        }
    }
    None
}

// The measures of a cube's table.
fn measures_of(
    alloc: Global,
    cube: &Cube,
    measures: &[AggregateMeasure],
) -> Result<List<TableMeasure>, OutOfMemory>
    requires { length cube.now.measures ≤ MEASURE_LIMIT }
    ensures { IfOk result (λ found. found ≡ meaning.measures_of cube.now measures.now) }
{
    let mut found = List::new(alloc);
    for declared in measures {
        if let Some(place) = measure_place(cube.measures.as_slice(), declared.measure.as_str()) {
            found.push(measure_at(cube, place, declared)?)?;
        }
    }
    Ok(found)
}

fn measure_place(measures: &[Measure], name: &str) -> Option<usize>
    ensures { result ≡ position (λ measure. bytes_eq name.now measure.name) measures.now }
{
    measures
        .iter()
        .position(|measure| name == measure.name.as_str())
}

// A measure of a cube as a table has it.
fn measure_at(
    cube: &Cube,
    place: usize,
    declared: &AggregateMeasure,
) -> Result<TableMeasure, OutOfMemory>
    requires few { length cube.now.measures ≤ MEASURE_LIMIT }
    requires there { place < length cube.now.measures }
    ensures { IfOk result
        (λ own. option_map (measure_with place declared.now) (slice_get cube.now.measures place)
        ≡ Some own) }
{
    let count_column = match &declared.count_column {
        None => None,
        Some(name) => Some(name.copy()?),
    };
    Ok(TableMeasure {
        measure: MeasureId(place as u16),
        aggregator: cube.measures.as_slice()[place].aggregator,
        column: declared.column.copy()?,
        count_column,
    })
}
