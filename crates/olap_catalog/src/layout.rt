//! The columns and hierarchies of a schema, numbered in the schema's order, and the names of the hierarchies' levels.
ghost use Rattle.std.specs.Prelude.{◌≡◌, ◌≤◌, ◌<◌, ◌+◌, ◌++◌, length, map, flat_map, IfOk, OnOk};
ghost use Rattle.olap_meaning.specs.Schema.{all_columns, columns_from, all_hierarchies, hierarchies_from, numbers_from, levels_of, all_name};
ghost use Rattle.olap_catalog.specs.Roots.{column_name, level_names_in};

use olap_meaning::schema::{
    DIMENSION_LIMIT, LEVEL_LIMIT, SchemaDimension, SchemaHierarchy, SchemaLevel,
};
use olap_meaning::tables::{Column, Hierarchy};
use olap_meaning::{ColumnId, List, OutOfMemory, Text};
use std::alloc::Global;

/// The columns of some dimensions: one for each level.
pub(crate) fn columns_of(
    alloc: Global,
    dimensions: &[SchemaDimension],
) -> Result<List<Column>, OutOfMemory>
    requires few { length dimensions.now ≤ DIMENSION_LIMIT }
    requires levels { length (flat_map levels_of dimensions.now) ≤ LEVEL_LIMIT }
    ensures { IfOk result (λ columns. columns ≡ all_columns 0 dimensions.now) }
{
    let mut columns = List::new(alloc);
    for (place, dimension) in dimensions.iter().enumerate() {
        add_dimension(&mut columns, place as u32, dimension.hierarchies.as_slice())?;
    }
    Ok(columns)
}

// Adds the columns of one dimension's hierarchies.
fn add_dimension(
    columns: &mut List<Column>,
    dimension: u32,
    hierarchies: &[SchemaHierarchy],
) -> Result<(), OutOfMemory>
    requires { length (flat_map (λ h. h.levels) hierarchies.now) ≤ LEVEL_LIMIT }
    ensures { OnOk result
        (columns.new
        ≡ columns.old ++ columns_from dimension 0 (flat_map (λ h. h.levels) hierarchies.now)) }
{
    let mut field = 0u32;
    for hierarchy in hierarchies {
        let count = hierarchy.levels.len() as u32;
        add_levels(columns, dimension, field, hierarchy.levels.as_slice())?;
        field += count;
    }
    Ok(())
}

// Adds the columns of some levels, from one field on.
fn add_levels(
    columns: &mut List<Column>,
    dimension: u32,
    first: u32,
    levels: &[SchemaLevel],
) -> Result<(), OutOfMemory>
    requires { first + length levels.now ≤ LEVEL_LIMIT }
    ensures { OnOk result (columns.new ≡ columns.old ++ columns_from dimension first levels.now) }
{
    let mut field = first;
    for level in levels {
        columns.push(Column {
            name: level.name.copy()?,
            dimension,
            field,
        })?;
        field += 1;
    }
    Ok(())
}

/// The hierarchies of some dimensions. The columns of their levels are numbered as `columns_of` gives them.
pub(crate) fn hierarchies_of(
    alloc: Global,
    dimensions: &[SchemaDimension],
) -> Result<List<Hierarchy>, OutOfMemory>
    requires few { length dimensions.now ≤ DIMENSION_LIMIT }
    requires levels { length (flat_map levels_of dimensions.now) ≤ LEVEL_LIMIT }
    ensures { IfOk result (λ hierarchies. hierarchies ≡ all_hierarchies 0 0 dimensions.now) }
{
    let mut hierarchies = List::new(alloc);
    let mut column = 0u32;
    for (place, dimension) in dimensions.iter().enumerate() {
        column = add_hierarchies(
            &mut hierarchies,
            alloc,
            place as u32,
            column,
            dimension.hierarchies.as_slice(),
        )?;
    }
    Ok(hierarchies)
}

// Adds a dimension's hierarchies, whose columns begin with one, and says which comes after them.
fn add_hierarchies(
    built: &mut List<Hierarchy>,
    alloc: Global,
    dimension: u32,
    first: u32,
    hierarchies: &[SchemaHierarchy],
) -> Result<u32, OutOfMemory>
    requires { first + length (flat_map (λ h. h.levels) hierarchies.now) ≤ LEVEL_LIMIT }
    ensures ok { OnOk result
        (built.new ≡ built.old ++ hierarchies_from dimension first hierarchies.now) }
    ensures next { IfOk result
        (λ next. next ≡ first + length (flat_map (λ h. h.levels) hierarchies.now)) }
{
    let mut column = first;
    for hierarchy in hierarchies {
        let count = hierarchy.levels.len() as u32;
        built.push(Hierarchy {
            name: hierarchy.name.copy()?,
            dimension,
            all_member: all_member(hierarchy)?,
            levels: numbers(alloc, column, hierarchy.levels.as_slice())?,
        })?;
        column += count;
    }
    Ok(column)
}

// The name of a hierarchy's all member, where it has one.
fn all_member(hierarchy: &SchemaHierarchy) -> Result<Option<Text>, OutOfMemory>
    ensures { IfOk result (λ name. name ≡ all_name hierarchy.now) }
{
    if hierarchy.has_all {
        let name = hierarchy.all_member_name.copy()?;
        return Ok(Some(name));
    }
    Ok(None)
}

// The numbers of some levels' columns, from one on.
fn numbers(alloc: Global, first: u32, levels: &[SchemaLevel]) -> Result<List<ColumnId>, OutOfMemory>
    requires { first + length levels.now ≤ LEVEL_LIMIT }
    ensures { IfOk result (λ columns. columns ≡ numbers_from first levels.now) }
{
    let mut columns = List::new(alloc);
    let mut column = first;
    for _level in levels {
        columns.push(ColumnId(column as u16))?;
        column += 1;
    }
    Ok(columns)
}

/// The names of the levels of each of some hierarchies.
pub(crate) fn level_names_of(
    alloc: Global,
    columns: &[Column],
    hierarchies: &[Hierarchy],
) -> Result<List<List<Text>>, OutOfMemory>
    ensures { IfOk result (λ names. names ≡ map (level_names_in columns.now) hierarchies.now) }
{
    let mut names = List::new(alloc);
    for hierarchy in hierarchies {
        names.push(column_names(alloc, columns, hierarchy.levels.as_slice())?)?;
    }
    Ok(names)
}

// The names of some columns.
fn column_names(
    alloc: Global,
    columns: &[Column],
    ids: &[ColumnId],
) -> Result<List<Text>, OutOfMemory>
    ensures { IfOk result (λ names. names ≡ map (column_name columns.now) ids.now) }
{
    let mut names = List::new(alloc);
    for id in ids {
        names.push(column_name(alloc, columns, *id)?)?;
    }
    Ok(names)
}

fn column_name(alloc: Global, columns: &[Column], id: ColumnId) -> Result<Text, OutOfMemory>
    ensures { IfOk result (λ name. name ≡ column_name columns.now id) }
{
    match columns.get(id.0 as usize) {
        None => Text::from_str(alloc, ""),
        Some(column) => column.name.copy(),
    }
}
