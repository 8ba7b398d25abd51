//! A catalog as plain data: a schema, and the table of each of its dimensions as a list of records.
ghost use Rattle.std.specs.Prelude.{◌≡◌};

use crate::schema::Schema;
use crate::{Aggregator, ColumnId, LeafId, List, Text};

/// A record of a dimension's table: its primary key, and its fields.
#[derive(Drop)]
pub struct Record {
    pub key: Text,
    pub fields: List<Text>,
}

/// A dimension: its name, and the records of its table.
#[derive(Drop)]
pub struct Dimension {
    pub name: Text,
    pub records: List<Record>,
}

/// A column: the name of its level, its dimension, and the place of its field in the dimension's records.
#[derive(Drop)]
pub struct Column {
    pub name: Text,
    pub dimension: u32,
    pub field: u32,
}

/// A hierarchy: its name, its dimension, the name of its all member where it has one, and its levels' columns from the top.
#[derive(Drop)]
pub struct Hierarchy {
    pub name: Text,
    pub dimension: u32,
    pub all_member: Option<Text>,
    pub levels: List<ColumnId>,
}

/// A measure: its name, its fact column, and how the column's values are summed up.
#[derive(Drop)]
pub struct Measure {
    pub name: Text,
    pub column: Text,
    pub aggregator: Aggregator,
}

/// A cube: its name, its dimensions in the order of its uses, and its measures.
#[derive(Drop)]
pub struct Cube {
    pub name: Text,
    pub dimensions: List<u32>,
    pub measures: List<Measure>,
}

/// A fact row: one leaf for each dimension of its cube, and one number or NULL for each of the cube's fact columns.
#[derive(Drop)]
pub struct Row {
    pub leaves: List<LeafId>,
    pub values: List<Option<i64>>,
}

/// A catalog: its schema, and what the schema and the tables of its dimensions give.
#[derive(Drop)]
pub struct Catalog {
    pub schema: Schema,
    pub dimensions: List<Dimension>,
    pub columns: List<Column>,
    pub hierarchies: List<Hierarchy>,
    pub cubes: List<Cube>,
}

/// What never changes in a cache's life: its catalog, the most fact rows over all cubes, and the most groups that
/// the kept loads have after an answer.
#[derive(Drop)]
pub struct Setting {
    pub catalog: Catalog,
    pub row_limit: u32,
    pub budget: u64,
}
