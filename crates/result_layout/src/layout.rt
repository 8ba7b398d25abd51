//! Grids.
ghost use Rattle.std.specs.Prelude.{◌≡◌, IfOk, string_bytes};
ghost use Rattle.olap_meaning.specs.Texts.{line};
ghost use Rattle.query_meaning.specs.GridForm.{IsGridText, IsOfGrid, head_text};
ghost use Rattle.query_meaning.specs.Grids.{grid_of};
ghost use Rattle.query_meaning.specs.OwnAxes.{AreAxesOf};
ghost use Rattle.result_layout.specs.Axes.{IsAnswerTo, values_of};
ghost use Rattle.shown_values.specs.Given.{Given};

use crate::places::{shown_columns, shown_rows};
use crate::rows::{Sheet, push_columns, push_rows};
use history_core::Answer;
use olap_catalog::Catalog;
use olap_meaning::{OutOfMemory, Text};
use query_meaning::Axes;
use shown_values::{Formatter, GivesTexts};
use std::alloc::Global;

// The first line of a grid.
fn head_line(
    alloc: Global,
    position: u64,
    columns: usize,
    rows: usize,
) -> Result<String, OutOfMemory>
    ensures { IfOk result
        (λ text. string_bytes text ≡ line (head_text position columns rows)) }
{
    let text = format!(in alloc; "GRID {position} {columns} {rows}\n")?;
    Ok(text)
}

/// The grid of an answer over the axes of a query: the titles of what is shown of the columns and rows, and of each of
/// their cells a text that the formatter gives for its value. A position of an axis that is NON EMPTY is dropped exactly
/// where its cells are all empty. Whatever the formatter, the text has the form of a grid.
pub fn grid(
    alloc: Global,
    catalog: &Catalog,
    axes: &Axes,
    answer: &Answer,
    formatter: &Formatter,
) -> Result<Text, OutOfMemory>
    requires members { AreAxesOf catalog.now axes.now }
    requires whole { IsAnswerTo axes.now answer.now.cells }
    ensures written { IfOk result
        (IsGridText (Given (⟦<Formatter as GivesTexts>⟧.answers formatter.now))
        (grid_of catalog.now axes.now answer.now.position (values_of answer.now.cells))) }
    ensures form { IfOk result (λ text. IsOfGrid text
        (grid_of catalog.now axes.now answer.now.position (values_of answer.now.cells))) }
{
    formatter.texts_show();
    let cells = answer.cells.as_slice();
    let sheet = Sheet {
        catalog,
        axes,
        cells,
        formatter,
    };
    let columns = shown_columns(alloc, axes, cells)?;
    let rows = shown_rows(alloc, axes, cells)?;
    let mut text = head_line(alloc, answer.position, columns.len(), rows.len())?;
    push_columns(alloc, &sheet, columns.as_slice(), &mut text)?;
    push_rows(
        alloc,
        &sheet,
        rows.as_slice(),
        columns.as_slice(),
        &mut text,
    )?;
    text.push_str(".\n")?;
    Ok(Text::from_string(text))
}
