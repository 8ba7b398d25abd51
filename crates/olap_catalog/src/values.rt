//! Looking up what a catalog holds. No look-up takes memory.
ghost use Rattle.std.specs.Prelude.{ℕ, ◌≡◌, ◌<◌, ◌≤◌, flat_map, length, map, nat_lt, option_and_then, slice_get, true, Some, IfSome, IsTrue};
ghost use Rattle.std.specs.List.{list_all};
ghost use Rattle.olap_meaning.specs.History.{is_some_and};
ghost use Rattle.olap_meaning.specs.Legal.{rise};
ghost use Rattle.olap_meaning.specs.Schema.{cube_over};
ghost use Rattle.olap_meaning.specs.Whole.{IsWhole};
ghost use Rattle.olap_meaning.specs.Catalog as meaning;
ghost use Rattle.catalog_tables.specs.Tables.{number_of};
ghost use Rattle.olap_catalog.specs.Columns.{column_texts, column_leaves};
ghost use Rattle.olap_catalog.specs.Named.{HasNames};
ghost use Rattle.olap_catalog.specs.Parts.{has_levels};

use crate::catalog::Catalog;
use crate::leaves::{field_of, leaf_count};
use catalog_tables::FieldColumn;
use olap_meaning::schema::{CUBE_LIMIT, LEVEL_LIMIT, RECORD_LIMIT, Schema};
use olap_meaning::tables::{Column, Cube, Hierarchy};
use olap_meaning::{ColumnId, CubeId, HierarchyId, LeafId, LevelRef, ValueId};

impl Catalog {
    /// The schema that it was built from.
    pub fn schema(&self) -> &Schema
        ensures { result.now ≡ self.now.schema }
    {
        &self.schema
    }

    /// How many cubes there are.
    pub fn cube_count(&self) -> u32
        ensures count { result ≡ length self.now.cubes }
        ensures limit { length self.now.cubes ≤ CUBE_LIMIT }
    {
        self.cubes.len() as u32
    }

    /// How many columns there are: one for each level of the schema.
    pub fn column_count(&self) -> u32
        ensures count { result ≡ length self.now.columns }
        ensures limit { length self.now.columns ≤ LEVEL_LIMIT }
    {
        self.columns.len() as u32
    }

    /// How many hierarchies there are.
    pub fn hierarchy_count(&self) -> u32
        ensures count { result ≡ length self.now.hierarchies }
        ensures limit { length self.now.hierarchies ≤ LEVEL_LIMIT }
    {
        self.hierarchies.len() as u32
    }

    /// How the columns of its levels stand: those of a hierarchy are of its dimension, and they rise, one hierarchy after
    /// another. This costs nothing.
    pub fn layout_holds(&self)
        ensures levels { list_all (has_levels self.now.columns) self.now.hierarchies ≡ true }
        ensures rising { rise (flat_map (λ hierarchy. hierarchy.levels) self.now.hierarchies)
            ≡ true }
    {
        let _ = &self.hierarchies;
    }

    /// That its schema is whole, and its cubes are those of the schema over its dimensions. This costs nothing.
    pub fn is_whole(&self)
        ensures schema { IsWhole self.now.schema }
        ensures cubes { self.now.cubes
            ≡ map (cube_over self.now.schema.dimensions) self.now.schema.cubes }
    {
        let _ = &self.schema;
    }

    /// That no name in it is empty. This costs nothing.
    pub fn has_names(&self)
        ensures { HasNames self.now }
    {
        let _ = &self.schema;
    }

    /// How many values a column has.
    pub fn value_count(&self, column: ColumnId) -> u32
        requires { column < length self.now.columns }
        ensures count { result ≡ length (meaning.values self.now column) }
        ensures limit { result ≤ RECORD_LIMIT }
    {
        self.field_of(column).count()
    }

    /// The number of a value, by exactly its text, None where the column has no such value.
    pub fn find_value(&self, column: ColumnId, text: &str) -> Option<ValueId>
        requires { column < length self.now.columns }
        ensures found { result ≡ meaning.value_number self.now column text.now }
        ensures known { IfSome result (λ value. value < length (meaning.values self.now column)) }
    {
        self.field_of(column).number(text)
    }

    /// The text of a value.
    pub fn value_name(&self, column: ColumnId, value: ValueId) -> &str
        requires known { column < length self.now.columns }
        requires there { value < length (meaning.values self.now column) }
        ensures { Some result.now ≡ slice_get (meaning.values self.now column) value }
    {
        self.field_of(column).name(value)
    }

    /// The value of a leaf in a column of its dimension.
    pub fn leaf_value(&self, column: ColumnId, leaf: LeafId) -> ValueId
        requires known { column < length self.now.columns }
        requires there { leaf < column_leaves self.now column }
        ensures { Some result ≡ meaning.leaf_value self.now column leaf }
    {
        let _ = &self.columns;
        self.field_of(column).value_at(leaf)
    }

    /// That each leaf has one of a column's values in each column of its dimension. This costs nothing.
    pub fn leaves_have_values(&self)
        ensures { (column : ℕ) (leaf : ℕ) → leaf < column_leaves self.now column
            → IsTrue
            (is_some_and
            (λ value. nat_lt value (length (meaning.values self.now column)))
            (meaning.leaf_value self.now column leaf)) }
    {
        let _ = &self.columns;
    }

    /// That a column has a text for each leaf of its dimension, whose number is the leaf's value. This costs nothing.
    pub fn texts_have_values(&self)
        ensures { (column : ℕ) (leaf : ℕ) → leaf < column_leaves self.now column
            → (leaf < length (column_texts self.now column))
            × (option_and_then (number_of (column_texts self.now column))
            (slice_get (column_texts self.now column) leaf)
            ≡ meaning.leaf_value self.now column leaf) }
    {
        let _ = &self.columns;
    }

    /// How many leaves a dimension has: one for each record of its table, and none where the schema has no such dimension.
    pub fn leaf_count(&self, dimension: u32) -> u32
        ensures { result ≡ length (meaning.records self.now dimension) }
    {
        leaf_count(&self.schema, &self.tables, &self.columns, dimension)
    }

    /// The leaf with exactly this primary key, None where there is none.
    pub fn find_leaf(&self, dimension: u32, key: &str) -> Option<LeafId>
        ensures found { result ≡ meaning.find_leaf self.now dimension key.now }
        ensures known { IfSome result (λ leaf. leaf < length (meaning.records self.now dimension)) }
    {
        match self.tables.get(dimension as usize) {
            None => None,
            Some(table) => table.find_key(key),
        }
    }

    /// A cube: its name, the dimensions that it uses, and its measures.
    pub fn cube(&self, cube: CubeId) -> &Cube
        requires { cube < length self.now.cubes }
        ensures { slice_get self.now.cubes cube ≡ Some result.now }
    {
        &self.cubes.as_slice()[cube.0 as usize]
    }

    /// A column of the schema: its level's name, and which field of which dimension's records it is.
    pub fn column(&self, column: ColumnId) -> &Column
        requires { column < length self.now.columns }
        ensures { slice_get self.now.columns column ≡ Some result.now }
    {
        &self.columns.as_slice()[column.0 as usize]
    }

    /// A hierarchy: its name, its dimension, the name of its all member where it has one, and its levels.
    pub fn hierarchy(&self, h: HierarchyId) -> &Hierarchy
        requires { h < length self.now.hierarchies }
        ensures { slice_get self.now.hierarchies h ≡ Some result.now }
    {
        &self.hierarchies.as_slice()[h.0 as usize]
    }

    /// The full name of a hierarchy, which a path of names begins with.
    pub fn full_name(&self, h: HierarchyId) -> &str
        requires { h < length self.now.hierarchies }
        ensures { result.now ≡ meaning.root_name self.now (LevelRef.Whole h) }
    {
        self.full_names.as_slice()[h.0 as usize].as_str()
    }

    /// The texts of a column, one for each leaf of its dimension, and the number of each: for one who asks for the values of many
    /// leaves (`texts_have_values`).
    pub fn field_of(&self, column: ColumnId) -> &FieldColumn
        requires { column < length self.now.columns }
        ensures { result.now ≡ column_texts self.now column }
    {
        field_of(&self.schema, &self.tables, &self.columns, column)
    }
}
