//! Catalogs: a schema with its dimensions' tables.
ghost use Rattle.std.specs.Prelude.{◌≡◌, length, map, IfOk};
ghost use Rattle.olap_meaning.specs.Schema.{catalog_of, levels_of};
ghost use Rattle.olap_meaning.specs.Whole.{IsWhole};
ghost use Rattle.olap_catalog.specs.Parts.{records_in};

use crate::parts::{Parts, parts_of};
use catalog_tables::{DimensionTable, Table};
use member_trees::MemberTree;
use olap_meaning::schema::Schema;
use olap_meaning::tables::{Column, Cube, Hierarchy};
use olap_meaning::{HierarchyId, List, OutOfMemory, Text};
use std::alloc::Global;
use std::marker::Model;

/// A schema with the tables of its dimensions (Schema Guide). It never changes; sessions share it.
#[derive(Drop)]
pub struct Catalog {
    pub(crate) schema: Schema,
    pub(crate) tables: List<DimensionTable>,
    pub(crate) columns: List<Column>,
    pub(crate) hierarchies: List<Hierarchy>,
    pub(crate) cubes: List<Cube>,
    pub(crate) trees: List<MemberTree>,
    pub(crate) full_names: List<Text>,
    pub(crate) roots: List<List<HierarchyId>>,
    pub(crate) cube_names: List<Text>,
    pub(crate) table_names: List<Text>,
    pub(crate) measure_names: List<List<Text>>,
    pub(crate) root_names: List<List<Text>>,
    pub(crate) level_names: List<List<Text>>,
}

impl Model for Catalog {
    ghost use Rattle.olap_meaning.specs.declared.tables.Catalog.{Catalog as Plain};
    ghost use Rattle.olap_catalog.specs.Parts.{plain, AreParts};

    ghost Value = { Plain };

    ghost view = { λ a. plain a.schema a.tables a.columns a.hierarchies a.cubes };

    ghost invariant = { λ a. AreParts a.schema a.tables a.columns a.hierarchies a.cubes a.trees a.full_names a.roots (record { cubes = a.cube_names; tables = a.table_names; measures = a.measure_names; roots = a.root_names; levels = a.level_names }) };
}

/// The catalog of a schema and its dimensions' tables, in the schema's order. The schema is one that the reader of
/// schemas accepts, and each table is made for the levels of its dimension.
pub fn build_catalog(
    alloc: Global,
    schema: Schema,
    tables: List<Table>,
) -> Result<Catalog, OutOfMemory>
    requires whole { IsWhole schema }
    requires levels { map (λ t. t.levels) tables
        ≡ map (λ d. length (levels_of d)) schema.dimensions }
    ensures { IfOk result (λ catalog. catalog ≡ catalog_of schema (records_in tables)) }
{
    let parts = parts_of(alloc, &schema, tables)?;
    let Parts {
        tables,
        layout,
        trees,
        names,
    } = parts;
    Ok(Catalog {
        schema,
        tables,
        columns: layout.columns,
        hierarchies: layout.hierarchies,
        cubes: layout.cubes,
        trees,
        full_names: layout.full_names,
        roots: layout.roots,
        cube_names: names.cubes,
        table_names: names.tables,
        measure_names: names.measures,
        root_names: names.roots,
        level_names: names.levels,
    })
}
