//! Which columns and rows of a grid are shown.
ghost use Rattle.std.specs.Prelude.{◌≡◌, ◌<◌, ◌≤◌, ◌*◌, length, IfOk, map};
ghost use Rattle.std.specs.List.{list_any, range_with_len};
ghost use Rattle.olap_meaning.specs.Texts.{CanBeShown};
ghost use Rattle.query_meaning.specs.Grids.{are_rows_non_empty, is_column_filled, is_filled, is_row_filled, row_tuples, shown_columns, shown_rows, value_at};
ghost use Rattle.result_layout.specs.Axes.{IsAnswerTo, values_of};

use history_core::Answered;
use olap_meaning::{CellValue, OutOfMemory};
use query_meaning::Axes;
use std::alloc::Global;

// How many rows there are: one, without a rows axis.
pub(crate) fn row_count(axes: &Axes) -> usize
    ensures { result ≡ length (row_tuples axes.now) }
{
    match &axes.rows {
        None => 1,
        Some(rows) => rows.tuples.len(),
    }
}

// Whether rows are dropped that are wholly empty.
fn are_rows_non_empty(axes: &Axes) -> bool
    ensures { result ≡ are_rows_non_empty axes.now }
{
    match &axes.rows {
        None => false,
        Some(rows) => rows.non_empty,
    }
}

fn is_filled(value: &CellValue) -> bool
    ensures { result ≡ is_filled value.now }
{
    match value {
        CellValue::Empty => false,
        CellValue::Whole(_) | CellValue::Hundredths(_) => true,
    }
}

// The value of the cell in a row and a column.
pub(crate) fn value_at(axes: &Axes, cells: &[Answered], row: usize, column: usize) -> CellValue
    requires whole { IsAnswerTo axes.now cells.now }
    requires row { row < length (row_tuples axes.now) }
    requires column { column < length axes.now.columns.tuples }
    ensures value { result
        ≡ value_at (length axes.now.columns.tuples) (values_of cells.now) row column }
    ensures shown { CanBeShown result }
{
    cells[row * axes.columns.tuples.len() + column].value
}

// Whether a column has a cell that is not empty.
fn is_column_filled(axes: &Axes, cells: &[Answered], column: usize) -> bool
    requires whole { IsAnswerTo axes.now cells.now }
    requires column { column < length axes.now.columns.tuples }
    ensures { result ≡ is_column_filled axes.now (values_of cells.now) column }
{
    for row in 0..row_count(axes) {
        if is_filled(&value_at(axes, cells, row, column)) {
            return true;
        }
    }
    false
}

// Whether a row has a cell that is not empty.
fn is_row_filled(axes: &Axes, cells: &[Answered], row: usize) -> bool
    requires whole { IsAnswerTo axes.now cells.now }
    requires row { row < length (row_tuples axes.now) }
    ensures { result ≡ is_row_filled axes.now (values_of cells.now) row }
{
    for column in 0..axes.columns.tuples.len() {
        if is_filled(&value_at(axes, cells, row, column)) {
            return true;
        }
    }
    false
}

/// The places of the columns that are shown.
pub(crate) fn shown_columns(
    alloc: Global,
    axes: &Axes,
    cells: &[Answered],
) -> Result<Vec<usize>, OutOfMemory>
    requires { IsAnswerTo axes.now cells.now }
    ensures { IfOk result
        (λ places. places.items ≡ shown_columns axes.now (values_of cells.now)) }
{
    let mut places = Vec::new(alloc);
    for column in 0..axes.columns.tuples.len() {
        if !axes.columns.non_empty || is_column_filled(axes, cells, column) {
            places.push(column)?;
        }
    }
    Ok(places)
}

/// The places of the rows that are shown.
pub(crate) fn shown_rows(
    alloc: Global,
    axes: &Axes,
    cells: &[Answered],
) -> Result<Vec<usize>, OutOfMemory>
    requires { IsAnswerTo axes.now cells.now }
    ensures { IfOk result (λ places. places.items ≡ shown_rows axes.now (values_of cells.now)) }
{
    let mut places = Vec::new(alloc);
    let non_empty = are_rows_non_empty(axes);
    for row in 0..row_count(axes) {
        if !non_empty || is_row_filled(axes, cells, row) {
            places.push(row)?;
        }
    }
    Ok(places)
}
