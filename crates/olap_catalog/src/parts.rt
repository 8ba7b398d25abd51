//! What a catalog keeps of its schema, made once: its columns, hierarchies and cubes, and the names to look among.
ghost use Rattle.std.specs.Prelude.{◌≡◌, length, map, flat_map, IfOk, OnOk, true};
ghost use Rattle.std.specs.List.{list_all};
ghost use Rattle.catalog_tables.specs.Tables.{have_fields, are_filled};
ghost use Rattle.olap_meaning.specs.Schema.{all_columns, all_hierarchies, catalog_of, cube_over, levels_of};
ghost use Rattle.olap_meaning.specs.Whole.{IsWhole};
ghost use Rattle.olap_catalog.specs.Parts.{AreParts, plain, records_in};
ghost use Rattle.olap_catalog.specs.Roots.{full_name_in, hierarchies_among, level_names_in, measure_names, root_names_in};

use crate::cubes::{
    cube_names_of, cubes_of, full_names_of, measure_names_of, root_names_of, roots_of,
    table_names_of,
};
use crate::layout::{columns_of, hierarchies_of, level_names_of};
use crate::trees::trees_of;
use catalog_tables::{DimensionTable, Table};
use member_trees::MemberTree;
use olap_meaning::schema::Schema;
use olap_meaning::tables::{Column, Cube, Hierarchy};
use olap_meaning::{HierarchyId, List, OutOfMemory, Text};
use std::alloc::Global;

/// What a schema lays out: its columns, hierarchies and cubes, and the hierarchies of each cube with their full names.
#[derive(Drop)]
pub(crate) struct Layout {
    pub(crate) columns: List<Column>,
    pub(crate) hierarchies: List<Hierarchy>,
    pub(crate) cubes: List<Cube>,
    pub(crate) full_names: List<Text>,
    pub(crate) roots: List<List<HierarchyId>>,
}

/// The names that a catalog looks among: of its cubes and aggregate tables, in each cube of its measures and of what a
/// path may begin with, and of each hierarchy's levels.
#[derive(Drop)]
pub(crate) struct NameLists {
    pub(crate) cubes: List<Text>,
    pub(crate) tables: List<Text>,
    pub(crate) measures: List<List<Text>>,
    pub(crate) roots: List<List<Text>>,
    pub(crate) levels: List<List<Text>>,
}

/// The parts of a catalog beside its schema: the numbered tables, what the schema lays out, the trees of the
/// hierarchies' members and the names to look among.
#[derive(Drop)]
pub(crate) struct Parts {
    pub(crate) tables: List<DimensionTable>,
    pub(crate) layout: Layout,
    pub(crate) trees: List<MemberTree>,
    pub(crate) names: NameLists,
}

/// The parts of the catalog of a schema and its dimensions' tables.
pub(crate) fn parts_of(
    alloc: Global,
    schema: &Schema,
    tables: List<Table>,
) -> Result<Parts, OutOfMemory>
    requires whole { IsWhole schema.now }
    requires levels { map (λ t. t.levels) tables
        ≡ map (λ d. length (levels_of d)) schema.now.dimensions }
    ensures are { IfOk result
        (λ p. AreParts
        schema.now p.tables p.layout.columns p.layout.hierarchies p.layout.cubes p.trees
        p.layout.full_names p.layout.roots
        (record {
          cubes = p.names.cubes;
          tables = p.names.tables;
          measures = p.names.measures;
          roots = p.names.roots;
          levels = p.names.levels;
        })) }
    ensures plain { IfOk result
        (λ p. plain schema.now p.tables p.layout.columns p.layout.hierarchies p.layout.cubes
        ≡ catalog_of schema.now (records_in tables)) }
{
    let tables = numbered(alloc, tables)?;
    let layout = layout_of(alloc, schema)?;
    let hierarchies = layout.hierarchies.as_slice();
    let trees = trees_of(alloc, schema, &tables, &layout.columns, hierarchies)?;
    let names = names_of(alloc, schema, &layout)?;
    Ok(Parts {
        tables,
        layout,
        trees,
        names,
    })
}

// The same tables with their texts numbered.
fn numbered(alloc: Global, tables: List<Table>) -> Result<List<DimensionTable>, OutOfMemory>
    ensures same { IfOk result (λ numbered. numbered ≡ tables) }
    ensures even { OnOk result (list_all (λ t. have_fields t.levels t.records) tables ≡ true) }
    ensures filled { OnOk result (list_all (λ t. are_filled t.records) tables ≡ true) }
{
    let mut numbered = List::new(alloc);
    for table in tables.into_vec() {
        numbered.push(DimensionTable::from_table(alloc, table)?)?;
    }
    Ok(numbered)
}

// What a schema lays out.
fn layout_of(alloc: Global, schema: &Schema) -> Result<Layout, OutOfMemory>
    requires { IsWhole schema.now }
    ensures columns { IfOk result
        (λ layout. layout.columns ≡ all_columns 0 schema.now.dimensions) }
    ensures hierarchies { IfOk result
        (λ layout. layout.hierarchies ≡ all_hierarchies 0 0 schema.now.dimensions) }
    ensures cubes { IfOk result
        (λ layout. layout.cubes ≡ map (cube_over schema.now.dimensions) schema.now.cubes) }
    ensures full_names { IfOk result
        (λ layout. layout.full_names
        ≡ map (full_name_in schema.now.dimensions) layout.hierarchies) }
    ensures roots { IfOk result
        (λ layout. layout.roots
        ≡ map (λ cube. flat_map (hierarchies_among layout.hierarchies) cube.dimensions)
        layout.cubes) }
{
    let dimensions = schema.dimensions.as_slice();
    let columns = columns_of(alloc, dimensions)?;
    let hierarchies = hierarchies_of(alloc, dimensions)?;
    let cubes = cubes_of(alloc, dimensions, schema.cubes.as_slice())?;
    let full_names = full_names_of(alloc, dimensions, hierarchies.as_slice())?;
    let roots = roots_of(alloc, hierarchies.as_slice(), cubes.as_slice())?;
    Ok(Layout {
        columns,
        hierarchies,
        cubes,
        full_names,
        roots,
    })
}

// The names to look among in what a schema lays out.
fn names_of(alloc: Global, schema: &Schema, layout: &Layout) -> Result<NameLists, OutOfMemory>
    ensures cubes { IfOk result
        (λ names. names.cubes ≡ map (λ cube. cube.name) layout.now.cubes) }
    ensures tables { IfOk result
        (λ names. names.tables ≡ map (λ table. table.name) schema.now.aggregates) }
    ensures measures { IfOk result
        (λ names. names.measures ≡ map measure_names layout.now.cubes) }
    ensures roots { IfOk result
        (λ names. names.roots ≡ map (root_names_in layout.now.full_names) layout.now.roots) }
    ensures levels { IfOk result
        (λ names. names.levels
        ≡ map (level_names_in layout.now.columns) layout.now.hierarchies) }
{
    let cubes = layout.cubes.as_slice();
    let hierarchies = layout.hierarchies.as_slice();
    Ok(NameLists {
        cubes: cube_names_of(alloc, cubes)?,
        tables: table_names_of(alloc, schema.aggregates.as_slice())?,
        measures: measure_names_of(alloc, cubes)?,
        roots: root_names_of(alloc, layout.full_names.as_slice(), layout.roots.as_slice())?,
        levels: level_names_of(alloc, layout.columns.as_slice(), hierarchies)?,
    })
}
