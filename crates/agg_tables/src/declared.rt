//! A declared aggregate table, as a catalog has it.
use olap_meaning::{Aggregator, ColumnId, CubeId, List, MeasureId, Text};

/// A level of a table: the catalog's column whose values it has, and the name of its column in the table's file.
#[derive(Drop)]
pub struct TableLevel {
    pub column: ColumnId,
    pub name: Text,
}

/// A measure of a table: the cube's measure, what it is summed up by, and its columns in the table's file. An average has
/// one more, with the number of values that are not NULL.
#[derive(Drop)]
pub struct TableMeasure {
    pub measure: MeasureId,
    pub aggregator: Aggregator,
    pub column: Text,
    pub count_column: Option<Text>,
}

/// What is summed up of a measure.
#[derive(Clone, Copy, Debug, PartialEq, Eq)]
pub struct Fold {
    pub measure: MeasureId,
    pub aggregator: Aggregator,
}

/// A declared table: its cube, the file's column with the number of fact rows, its levels and its measures.
#[derive(Drop)]
pub struct Declared {
    pub cube: CubeId,
    pub fact_count: Text,
    pub levels: List<TableLevel>,
    pub measures: List<TableMeasure>,
}

/// A column of numbers in a table's file: its name, and what is summed up in it.
#[derive(Drop)]
pub struct FileColumn {
    pub name: Text,
    pub fold: Fold,
}
