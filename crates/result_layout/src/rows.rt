//! The lines of a grid's columns and rows.
ghost use Rattle.std.specs.Prelude.{◌≡◌, ◌<◌, ◌++◌, ◌∷◌, [], All, flat_map, length, map, IfOk, OnOk, string_bytes};
ghost use Rattle.olap_meaning.specs.Texts.{line};
ghost use Rattle.query_meaning.specs.GridForm.{column_text};
ghost use Rattle.query_meaning.specs.Grids.{grid_row, row_tuples, title_at, value_at};
ghost use Rattle.query_meaning.specs.Titles.{IsTitle};
ghost use Rattle.query_meaning.specs.OwnAxes.{AreAxesOf};
ghost use Rattle.result_layout.specs.Axes.{IsAnswerTo, values_of};
ghost use Rattle.result_layout.specs.Lines.{AreRowsBehind, AreShownBehind};
ghost use Rattle.shown_values.specs.Given.{Given};

use crate::places::value_at;
use crate::titles::tuple_title;
use history_core::Answered;
use olap_catalog::Catalog;
use olap_meaning::{OutOfMemory, Text};
use query_meaning::Axes;
use shown_values::{Formatter, GivesTexts};
use std::alloc::Global;

/// What a grid is laid out from.
#[derive(Clone, Copy)]
pub(crate) struct Sheet<'a> {
    pub(crate) catalog: &'a Catalog,
    pub(crate) axes: &'a Axes,
    pub(crate) cells: &'a [Answered],
    pub(crate) formatter: &'a Formatter,
}

// The title of a column.
fn column_title(alloc: Global, sheet: &Sheet<'_>, column: usize) -> Result<Text, OutOfMemory>
    requires members { AreAxesOf sheet.now.catalog.now sheet.now.axes.now }
    requires column { column < length sheet.now.axes.now.columns.tuples }
    ensures title { IfOk result (λ text. text ≡ title_at
        sheet.now.catalog.now sheet.now.axes.now.cube sheet.now.axes.now.columns.tuples column) }
    ensures form { IfOk result IsTitle }
{
    let tuple = &sheet.axes.columns.tuples.as_slice()[column];
    tuple_title(alloc, sheet.catalog, sheet.axes.cube, tuple.as_slice())
}

// The title of a row, which is empty without a rows axis.
fn row_title(alloc: Global, sheet: &Sheet<'_>, row: usize) -> Result<Text, OutOfMemory>
    requires members { AreAxesOf sheet.now.catalog.now sheet.now.axes.now }
    requires row { row < length (row_tuples sheet.now.axes.now) }
    ensures title { IfOk result (λ text. text ≡ title_at
        sheet.now.catalog.now sheet.now.axes.now.cube (row_tuples sheet.now.axes.now) row) }
    ensures form { IfOk result IsTitle }
{
    match &sheet.axes.rows {
        None => tuple_title(alloc, sheet.catalog, sheet.axes.cube, &[]),
        Some(rows) => {
            let tuple = &rows.tuples.as_slice()[row];
            tuple_title(alloc, sheet.catalog, sheet.axes.cube, tuple.as_slice())
        }
    }
}

/// Adds the lines of columns.
pub(crate) fn push_columns(
    alloc: Global,
    sheet: &Sheet<'_>,
    columns: &[usize],
    text: &mut String,
) -> Result<(), OutOfMemory>
    requires members { AreAxesOf sheet.now.catalog.now sheet.now.axes.now }
    requires columns { All (λ c. c < length sheet.now.axes.now.columns.tuples) columns.now }
    ensures lines { OnOk result (string_bytes text.new
        ≡ string_bytes text.old
        ++ flat_map line (map column_text (map (title_at
        sheet.now.catalog.now sheet.now.axes.now.cube sheet.now.axes.now.columns.tuples)
        columns.now))) }
    ensures titles { OnOk result (All IsTitle (map (title_at
        sheet.now.catalog.now sheet.now.axes.now.cube sheet.now.axes.now.columns.tuples)
        columns.now)) }
{
    for column in columns {
        let title = column_title(alloc, sheet, *column)?;
        text.push_str("C\t")?;
        text.push_str(title.as_str())?;
        text.push_str("\n")?;
    }
    Ok(())
}

// Adds the shown texts of a row.
fn push_shown(
    sheet: &Sheet<'_>,
    row: usize,
    columns: &[usize],
    text: &mut String,
) -> Result<(), OutOfMemory>
    requires whole { IsAnswerTo sheet.now.axes.now sheet.now.cells.now }
    requires row { row < length (row_tuples sheet.now.axes.now) }
    requires columns { All (λ c. c < length sheet.now.axes.now.columns.tuples) columns.now }
    ensures { OnOk result (AreShownBehind
        (Given (⟦<Formatter as GivesTexts>⟧.answers sheet.now.formatter.now))
        (map (value_at (length sheet.now.axes.now.columns.tuples)
        (values_of sheet.now.cells.now) row) columns.now)
        (string_bytes text.old) (string_bytes text.new)) }
{
    for column in columns {
        let value = value_at(sheet.axes, sheet.cells, row, *column);
        let shown = sheet.formatter.show(&value)?;
        text.push_str("\t")?;
        text.push_str(shown.as_str())?;
    }
    Ok(())
}

// Adds the line of a row.
fn push_row(
    alloc: Global,
    sheet: &Sheet<'_>,
    row: usize,
    columns: &[usize],
    text: &mut String,
) -> Result<(), OutOfMemory>
    requires members { AreAxesOf sheet.now.catalog.now sheet.now.axes.now }
    requires whole { IsAnswerTo sheet.now.axes.now sheet.now.cells.now }
    requires row { row < length (row_tuples sheet.now.axes.now) }
    requires columns { All (λ c. c < length sheet.now.axes.now.columns.tuples) columns.now }
    ensures lines { OnOk result (AreRowsBehind
        (Given (⟦<Formatter as GivesTexts>⟧.answers sheet.now.formatter.now))
        (grid_row sheet.now.catalog.now sheet.now.axes.now
        (values_of sheet.now.cells.now) columns.now row ∷ [])
        (string_bytes text.old) (string_bytes text.new)) }
    ensures title { OnOk result (IsTitle (title_at
        sheet.now.catalog.now sheet.now.axes.now.cube (row_tuples sheet.now.axes.now) row)) }
{
    let title = row_title(alloc, sheet, row)?;
    text.push_str("R\t")?;
    text.push_str(title.as_str())?;
    push_shown(sheet, row, columns, text)?;
    text.push_str("\n")?;
    Ok(())
}

/// Adds the lines of rows.
pub(crate) fn push_rows(
    alloc: Global,
    sheet: &Sheet<'_>,
    rows: &[usize],
    columns: &[usize],
    text: &mut String,
) -> Result<(), OutOfMemory>
    requires members { AreAxesOf sheet.now.catalog.now sheet.now.axes.now }
    requires whole { IsAnswerTo sheet.now.axes.now sheet.now.cells.now }
    requires rows { All (λ r. r < length (row_tuples sheet.now.axes.now)) rows.now }
    requires columns { All (λ c. c < length sheet.now.axes.now.columns.tuples) columns.now }
    ensures lines { OnOk result (AreRowsBehind
        (Given (⟦<Formatter as GivesTexts>⟧.answers sheet.now.formatter.now))
        (map (grid_row sheet.now.catalog.now sheet.now.axes.now
        (values_of sheet.now.cells.now) columns.now) rows.now)
        (string_bytes text.old) (string_bytes text.new)) }
    ensures titles { OnOk result (All IsTitle (map (title_at
        sheet.now.catalog.now sheet.now.axes.now.cube (row_tuples sheet.now.axes.now))
        rows.now)) }
{
    for row in rows {
        push_row(alloc, sheet, *row, columns, text)?;
    }
    Ok(())
}
