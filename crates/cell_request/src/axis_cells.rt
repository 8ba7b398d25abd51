//! The cells of a query's axes.
ghost use Rattle.std.specs.Prelude.{◌≡◌, ◌*◌, ◌++◌, length, map, IfOk, IsTrue, OnOk};
ghost use Rattle.std.specs.List.{list_all};
ghost use Rattle.olap_meaning.specs.Legal.{is_cell};
ghost use Rattle.query_meaning.specs.AxisCells.{cell_among, cells_of};
ghost use Rattle.query_meaning.specs.Grids.{row_tuples};
ghost use Rattle.query_meaning.specs.OwnAxes.{AreAxesOf};
ghost use Rattle.cell_request.specs.Defaults as meaning;
ghost use Rattle.cell_request.specs.Standing.{row_cells};

use crate::boxes::boxes_among;
use crate::defaults::{DefaultBox, default_boxes};
use crate::members::measure_among;
use olap_catalog::Catalog;
use olap_meaning::{Cell, List, Member, OutOfMemory};
use query_meaning::Axes;
use std::alloc::Global;

/// The cells of axes, row by row, columns fastest. A hierarchy that no axis names stands on its default member, and the
/// measure is the cube's first where none is named.
pub fn cells(alloc: Global, catalog: &Catalog, axes: &Axes) -> Result<List<Cell>, OutOfMemory>
    requires { AreAxesOf catalog.now axes.now }
    ensures cells { IfOk result (λ cells. cells ≡ cells_of catalog.now axes.now) }
    ensures count { IfOk result (λ cells. length cells
        ≡ length (row_tuples axes.now) * length axes.now.columns.tuples) }
    ensures known { IfOk result (λ cells. IsTrue (list_all (is_cell catalog.now) cells)) }
{
    catalog.layout_holds();
    catalog.is_whole();
    let defaults = default_boxes(alloc, catalog, axes.cube)?;
    let mut cells = List::new(alloc);
    let Some(rows) = &axes.rows else {
        add_row(&mut cells, alloc, catalog, axes, defaults.as_slice(), &[])?;
        return Ok(cells);
    };
    for row in rows.tuples.as_slice() {
        add_row(
            &mut cells,
            alloc,
            catalog,
            axes,
            defaults.as_slice(),
            row.as_slice(),
        )?;
    }
    Ok(cells)
}

// Adds the cells of a row, column by column.
fn add_row(
    cells: &mut List<Cell>,
    alloc: Global,
    catalog: &Catalog,
    axes: &Axes,
    defaults: &[DefaultBox],
    row: &[Member],
) -> Result<(), OutOfMemory>
    requires { defaults.now ≡ meaning.default_boxes catalog.now axes.now.cube }
    ensures { OnOk result (cells.new ≡ cells.old ++ row_cells catalog.now axes.now row.now) }
{
    for column in axes.columns.tuples.as_slice() {
        let cell = cell_at(alloc, catalog, axes, defaults, column.as_slice(), row)?;
        cells.push(cell)?;
    }
    Ok(())
}

// The cell of a column and a row.
fn cell_at(
    alloc: Global,
    catalog: &Catalog,
    axes: &Axes,
    defaults: &[DefaultBox],
    column: &[Member],
    row: &[Member],
) -> Result<Cell, OutOfMemory>
    requires { defaults.now ≡ meaning.default_boxes catalog.now axes.now.cube }
    ensures { IfOk result
        (λ cell. cell
        ≡ cell_among catalog.now axes.now.cube (column.now ++ row.now ++ axes.now.slicer)) }
{
    let slicer = axes.slicer.as_slice();
    Ok(Cell {
        cube: axes.cube,
        measure: measure_among(column, row, slicer),
        at: boxes_among(alloc, catalog, defaults, column, row, slicer)?,
    })
}
