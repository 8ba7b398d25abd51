//! Grids as plain data.

use olap_meaning::{CellValue, List, Text};

/// A row of a grid: its title, and a value for each column.
#[derive(PartialEq, Drop)]
pub struct GridRow {
    pub title: Text,
    pub values: List<CellValue>,
}

/// A grid: the position of the answer that it shows, the titles of its columns, and its rows.
#[derive(PartialEq, Drop)]
pub struct Grid {
    pub position: u64,
    pub columns: List<Text>,
    pub rows: List<GridRow>,
}
