//! A schema as plain data: what a cube is made of, before any record or fact row is read (Schema Guide).
ghost use Rattle.std.specs.Prelude.{◌≡◌};

use crate::tables::Measure;
use crate::{List, Text};

/// The greatest number of dimensions of a schema.
pub const DIMENSION_LIMIT: u32 = 32;

/// The greatest number of cubes of a schema.
pub const CUBE_LIMIT: u32 = 16;

/// The greatest number of aggregate tables of a schema.
pub const AGGREGATE_LIMIT: u32 = 16;

/// The greatest number of levels of a schema, over all hierarchies.
pub const LEVEL_LIMIT: u32 = 64;

/// The greatest number of dimensions that a cube uses.
pub const USE_LIMIT: u32 = 16;

/// The greatest number of measures of a cube.
pub const MEASURE_LIMIT: u32 = 16;

/// The greatest number of records of a dimension's table.
pub const RECORD_LIMIT: u32 = 1_000_000;

/// A schema. Names in it are compared byte by byte.
#[derive(Drop)]
pub struct Schema {
    pub dimensions: List<SchemaDimension>,
    pub cubes: List<SchemaCube>,
    pub aggregates: List<SchemaAggregate>,
}

/// A dimension: its name, the file of its table, the table's key column, and its hierarchies.
#[derive(Drop)]
pub struct SchemaDimension {
    pub name: Text,
    pub table: Text,
    pub primary_key: Text,
    pub hierarchies: List<SchemaHierarchy>,
}

/// A hierarchy: its name, whether it has an all member, the all member's name, and its levels from the top.
#[derive(Drop)]
pub struct SchemaHierarchy {
    pub name: Text,
    pub has_all: bool,
    pub all_member_name: Text,
    pub levels: List<SchemaLevel>,
}

/// A level: its name, and the column of the dimension's table that holds its values.
#[derive(Drop)]
pub struct SchemaLevel {
    pub name: Text,
    pub column: Text,
}

/// A cube: its name, the file of its base batch, the dimensions that it uses, and its measures.
#[derive(Drop)]
pub struct SchemaCube {
    pub name: Text,
    pub fact: Text,
    pub dimensions: List<SchemaUse>,
    pub measures: List<Measure>,
}

/// A use of a dimension by a cube: the dimension's name, and the batches' column with its keys.
#[derive(Drop)]
pub struct SchemaUse {
    pub source: Text,
    pub foreign_key: Text,
}

/// An aggregate table: its name, its cube's name, its file where it has one, the column with the number of fact
/// rows, its levels and its measures (Aggregate Tables).
#[derive(Drop)]
pub struct SchemaAggregate {
    pub name: Text,
    pub cube: Text,
    pub file: Option<Text>,
    pub fact_count: Text,
    pub levels: List<AggregateLevel>,
    pub measures: List<AggregateMeasure>,
}

/// A level of an aggregate table: its hierarchy's full name, its own name, and the table's column.
#[derive(Drop)]
pub struct AggregateLevel {
    pub hierarchy: Text,
    pub level: Text,
    pub column: Text,
}

/// A measure of an aggregate table: its name, its column, and for an average the column with the number of known
/// values.
#[derive(Drop)]
pub struct AggregateMeasure {
    pub measure: Text,
    pub column: Text,
    pub count_column: Option<Text>,
}
