//! The trees of the members of hierarchies, built from the numbered tables.
//!
//! The schema is passed along for what the contracts say of it: no code reads it.
ghost use Rattle.std.specs.Prelude.{◌≡◌, ◌≤◌, true, All, length, map, filter_map, IfOk};
ghost use Rattle.olap_meaning.specs.Catalog as meaning;
ghost use Rattle.olap_catalog.specs.Members.{is_there};
ghost use Rattle.olap_catalog.specs.Parts.{has_levels, tree_of};
ghost use Rattle.olap_catalog.specs.Tables.{AreTables, over};

use crate::leaves::{leaf_count, leaf_value};
use catalog_tables::DimensionTable;
use member_trees::{MemberTree, TreeBuilder};
use olap_meaning::schema::{LEVEL_LIMIT, Schema};
use olap_meaning::tables::{Column, Hierarchy};
use olap_meaning::{ColumnId, LeafId, List, OutOfMemory, ValueId};
use std::alloc::Global;

/// The trees of some hierarchies' members.
pub(crate) fn trees_of(
    alloc: Global,
    schema: &Schema,
    tables: &List<DimensionTable>,
    columns: &List<Column>,
    hierarchies: &[Hierarchy],
) -> Result<List<MemberTree>, OutOfMemory>
    requires tables { AreTables schema.now tables.now columns.now }
    requires leveled { All (λ h. has_levels columns.now h ≡ true) hierarchies.now }
    requires few { All (λ h. length h.levels ≤ LEVEL_LIMIT) hierarchies.now }
    ensures { IfOk result
        (λ trees. trees
        ≡ map (tree_of (over schema.now tables.now columns.now)) hierarchies.now) }
{
    let mut trees = List::new(alloc);
    for hierarchy in hierarchies {
        trees.push(tree_of(alloc, schema, tables, columns, hierarchy)?)?;
    }
    Ok(trees)
}

// The tree of a hierarchy's members: one leaf for each record of its dimension's table.
fn tree_of(
    alloc: Global,
    schema: &Schema,
    tables: &List<DimensionTable>,
    columns: &List<Column>,
    hierarchy: &Hierarchy,
) -> Result<MemberTree, OutOfMemory>
    requires tables { AreTables schema.now tables.now columns.now }
    requires leveled { has_levels columns.now hierarchy.now ≡ true }
    requires few { length hierarchy.now.levels ≤ LEVEL_LIMIT }
    ensures { IfOk result
        (λ tree. tree ≡ tree_of (over schema.now tables.now columns.now) hierarchy.now) }
{
    let levels = hierarchy.levels.as_slice();
    let mut builder = TreeBuilder::new(alloc, levels.len() as u32)?;
    for leaf in 0..leaf_count(schema, tables, columns, hierarchy.dimension) {
        let path = leaf_path(alloc, schema, tables, columns, levels, LeafId(leaf))?;
        builder = builder.push(path.as_slice())?;
    }
    builder.finish()
}

// The path of a leaf: its values in some levels.
fn leaf_path(
    alloc: Global,
    schema: &Schema,
    tables: &List<DimensionTable>,
    columns: &List<Column>,
    levels: &[ColumnId],
    leaf: LeafId,
) -> Result<Vec<ValueId>, OutOfMemory>
    requires tables { AreTables schema.now tables.now columns.now }
    requires there { let catalog = over schema.now tables.now columns.now in
        All (λ column. is_there catalog leaf column ≡ true) levels.now }
    ensures values { let catalog = over schema.now tables.now columns.now in IfOk result
        (λ path. path.items
        ≡ filter_map (λ column. meaning.leaf_value catalog column leaf) levels.now) }
    ensures whole { IfOk result (λ path. length path.items ≡ length levels.now) }
{
    let mut path = Vec::with_capacity(alloc, levels.len())?;
    for column in levels {
        path.push(leaf_value(schema, tables, columns, *column, leaf))?;
    }
    Ok(path)
}
